// Names of moves, the listing of the permitted ones, rest and the verdict.
ghost use Rattle.rules.specs.ListingLaws.{
  NamesTell,
  ListingTells,
  ListingOrdered,
  ListingOnce,
  PermittedExists,
  RestTells,
  VerdictFinished,
  VerdictDeadlock,
  VerdictMoving,
  FinishedRests,
};

// A kind and two numbers name a move exactly if it exists and this is its name.
pub fn names_tell()
    ensures { NamesTell }
{}

// The listing holds exactly the permitted moves that exist, each once, in the order of names; every permitted move
// exists, so an empty listing is rest.
pub fn listing_tells()
    ensures holds { ListingTells }
    ensures ordered { ListingOrdered }
    ensures once { ListingOnce }
    ensures exists { PermittedExists }
    ensures rest { RestTells }
{}

// The verdict is finished if place 0 is, else deadlock at rest, else moving; a finished board is at rest.
pub fn verdict_tells()
    ensures finished { VerdictFinished }
    ensures deadlock { VerdictDeadlock }
    ensures moving { VerdictMoving }
    ensures rests { FinishedRests }
{}
