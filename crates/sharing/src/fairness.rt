// What the stage passes.
ghost use Rattle.sharing.specs.Fairness.{PassesExactly};

// The stage passes an unfolded text exactly when two different branches of a par never write a common variable or have a common port,
// no call is given a variable twice by reference, and every throw stands in the first block of a try of its name.
pub fn passes_exactly()
    ensures { PassesExactly }
{}
