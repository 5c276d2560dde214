// What the rules do not say is not so.
ghost use Rattle.rules.specs.Denials.{ThrowStaysInside, LesserWins, PoisonedOnly};

// A throw does not poison beyond its own try; the first raised try does not win over an outer one; a place that waits
// for nothing is not poisoned by a sibling.
pub fn what_is_not_said_is_not_so()
    ensures thrown { ThrowStaysInside }
    ensures outer { LesserWins }
    ensures waits { PoisonedOnly }
{}
