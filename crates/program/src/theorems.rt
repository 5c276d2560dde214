// What is proved of clearing: each function's contract is a theorem.
ghost use Rattle.program.specs.Clearing.{AcceptedSound, WithinLimits, OnlyLimits};
ghost use Rattle.program.specs.Cases.{CasesHold};
ghost use Rattle.program.specs.Guarantees.{HomesAreInside, LiteralsAreNumbers, NumbersAreWithin};

// The program that a clear leaves, whether it grants or refuses, is sound.
pub fn programs_are_sound()
    ensures { AcceptedSound }
{}

// A cleared program has at most 1,024 statements, 64 places and 128 cells.
pub fn programs_keep_limits()
    ensures { WithinLimits }
{}

// A text that the stage of names lets pass is refused by unfolding only where a limit is passed.
pub fn only_limits_refuse()
    ensures { OnlyLimits }
{}

// A dozen texts have the outcomes that the rules give them.
pub fn cases_hold()
    ensures { CasesHold }
{}

// Every home that a next names is a cell of the program that a clear leaves.
pub fn homes_are_inside()
    ensures { HomesAreInside }
{}

// Every word that a statement names is a number of the kind that reads the literals.
pub fn literals_are_numbers()
    ensures { LiteralsAreNumbers }
{}

// Statements name only cells, places and ports that there are, of which there are at most 128, 64 and 8.
pub fn numbers_are_within()
    ensures { NumbersAreWithin }
{}
