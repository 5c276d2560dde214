// Theorems about the grammar: each function's contract is one.
ghost use Rattle.grammar.specs.Language.{ParsedExactly, RefusedBegun, RefusedEarly};

// The tokens of a text are parsed to a tree exactly if the grammar gives them that tree, with at most 16 brackets open.
pub fn grammar_is_met()
    ensures { ParsedExactly }
{}

// No derivable text begins as a refused one does, up to the refused token and with it.
pub fn refusals_are_early()
    ensures { RefusedEarly }
{}

// The tokens before a refused one begin some text of the grammar, in which one bracket more may be open.
pub fn refusals_are_late()
    ensures { RefusedBegun }
{}
