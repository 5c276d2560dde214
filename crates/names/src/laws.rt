// What the stage of names amounts to, in the words of the rules.
ghost use Rattle.names.specs.Laws.{PassesWhenRight, RefusesFirstWrong};

// A text passes exactly where every name, call, literal and port of it is right.
pub fn names_pass_when_right()
    ensures { PassesWhenRight }
{}

// A text is refused exactly for the first that is wrong, in the order of the text.
pub fn names_refuse_first_wrong()
    ensures { RefusesFirstWrong }
{}
