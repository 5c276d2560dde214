// What every state of a board keeps.
ghost use Rattle.rules.specs.Safety.{
  AtPower,
  Kept,
  NumbersAtPower,
  NumbersKept,
  ReachedWellFormed,
  ReachedNumbers,
  MovesCounted,
};

// A board is well formed at power, every permitted move keeps it so, and so is every state reached.
pub fn states_are_well_formed()
    ensures power { AtPower }
    ensures kept { Kept }
    ensures reached { ReachedWellFormed }
{}

// Every cell always holds a number of the kind.
pub fn cells_hold_numbers()
    ensures power { NumbersAtPower }
    ensures kept { NumbersKept }
    ensures reached { ReachedNumbers }
{}

// The count of moves is the number of moves made.
pub fn moves_are_counted()
    ensures { MovesCounted }
{}
