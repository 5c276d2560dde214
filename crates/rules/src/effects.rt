// Whom a throw, a close, a meet and a poison change, in the words of the rules.
ghost use Rattle.rules.specs.EffectLaws.{ThrowTells, CloseTells, MeetTells, PoisonTells};

// A throw to another place poisons the thrower, lowers the mark of the try's place and marks those between; a close puts
// the place where its mark says, and its children are idle; nothing else changes.
pub fn throw_and_close_tell()
    ensures throws { ThrowTells }
    ensures closes { CloseTells }
{}

// A meet passes every counted next and gives its own cell the home's value; a poison poisons every counted place that
// waits and marks every counted one that is parted; nothing else changes.
pub fn meet_and_poison_tell()
    ensures meets { MeetTells }
    ensures poisons { PoisonTells }
{}
