// The end never hangs on the order of moves.
ghost use Rattle.rules.specs.Confluence.{
  Diamond,
  OneEnd,
  DiamondWhenReached,
  OneEndWhenReached,
  OneEndFromPower,
};

// Any two different permitted moves can be made in either order, both remain permitted, and the ends are equal.
pub fn moves_commute()
    ensures formed { Diamond }
    ensures reached { DiamondWhenReached }
{}

// If one run comes to rest, every run has at most as many moves, rests exactly after as many, and at the same state.
pub fn runs_end_alike()
    ensures formed { OneEnd }
    ensures reached { OneEndWhenReached }
    ensures power { OneEndFromPower }
{}
