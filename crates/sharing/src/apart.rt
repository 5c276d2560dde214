// A test of every two branches of a par.
ghost use Rattle.std.specs.Prelude.{◌≡◌};
ghost use Rattle.sharing.specs.Standing.{Test, TellsApart, with_later, pairwise};

use unfold::nodes::{Branches, Got, Nodes};

// Whether a branch passes the test with each of the branches after it.
fn is_apart_from<F: Fn(&[Got], &Nodes, &[Got], &Nodes) -> bool>(
    gots: &[Got],
    us: &Nodes,
    after: &Branches,
    test: &F,
) -> bool
    requires { F.IsAlwaysCallable test.now }
    ensures { (t : Test) → TellsApart (F.post test.now) t → result ≡ with_later t gots.now us.now after.now }
{
    match after {
        Branches::Last => true,
        Branches::Also(others, vs, rest) => {
            test(gots, us, others.as_slice(), vs) && is_apart_from(gots, us, rest, test)
        }
    }
}

// Whether every two branches pass it.
pub fn are_apart<F: Fn(&[Got], &Nodes, &[Got], &Nodes) -> bool>(
    branches: &Branches,
    test: &F,
) -> bool
    requires { F.IsAlwaysCallable test.now }
    ensures { (t : Test) → TellsApart (F.post test.now) t → result ≡ pairwise t branches.now }
{
    match branches {
        Branches::Last => true,
        Branches::Also(gots, us, rest) => {
            is_apart_from(gots.as_slice(), us, rest, test) && are_apart(rest, test)
        }
    }
}
