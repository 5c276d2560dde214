// The tests that code computes say exactly what the rules say.
ghost use Rattle.rules.specs.Decisions.{
  ReadyOrSpoiled,
  ReadyTells,
  SpoiledTells,
  CountedTells,
  PermittedTells,
  CountedForm,
};

// No place is both ready and spoiled for a home.
pub fn ready_excludes_spoiled()
    ensures { ReadyOrSpoiled }
{}

// The tests of readiness, spoiling, counting and permission tell the relations.
pub fn tests_tell()
    ensures ready { ReadyTells }
    ensures spoiled { SpoiledTells }
    ensures counted { CountedTells }
    ensures permitted { PermittedTells }
{}

// A place is ready exactly if each place counted waits, or is parted with a live child that knows the home.
pub fn readiness_counts()
    ensures { CountedForm }
{}
