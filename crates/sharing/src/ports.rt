// The ports that stand in the branches of a par.
ghost use Rattle.std.specs.Prelude.{◌≡◌, ℕ, Bool, List, not};
ghost use Rattle.reader.specs.declared.fault.Cause.TheVariants.{PortTwice};
ghost use Rattle.reader.specs.Faults.{must};
ghost use Rattle.unfold.specs.Sharing.{apart, all_ports};
ghost use Rattle.unfold.specs.Views.{branches as meant};
ghost use Rattle.sharing.specs.Standing.{Tells, part_any, node_any, nodes_any, branches_any, nodes_have, nodes_clear};

use crate::apart::are_apart;
use reader::fault::{Cause, Fault, must};
use unfold::nodes::{Branches, Node, Nodes, Part};

// Whether the port before the blocks of a statement passes a test. Each part of the walk asks that the test may be called,
// since only a clause can say that of a parameter.
fn part_any<F: Fn(usize) -> bool>(part: &Part, test: &F) -> bool
    requires { F.IsAlwaysCallable test.now }
    ensures { (t : ℕ → Bool) → Tells (F.post test.now) t → result ≡ part_any t part.now }
{
    match part {
        Part::Takes(i, _) => test(*i),
        Part::Plain | Part::Calls(_, _) | Part::Tests(_) | Part::Loops(_) | Part::Tries(_) => false,
    }
}

#[cycle(branches_any_node_any_nodes_any)]
fn node_any<F: Fn(usize) -> bool>(u: &Node, test: &F) -> bool
    requires { F.IsAlwaysCallable test.now }
    ensures { (t : ℕ → Bool) → Tells (F.post test.now) t → result ≡ node_any t u.now }
{
    match u {
        Node::One(_, _, _) | Node::Throws(_, _) => false,
        Node::Two(_, _, part, first, second) => {
            part_any(part, test) || nodes_any(first, test) || nodes_any(second, test)
        }
        Node::Par(_, _, branches) => branches_any(branches, test),
    }
}

// Whether a port that stands in a block passes a test, those of called procedures and of statements never reached too.
#[cycle(branches_any_node_any_nodes_any)]
fn nodes_any<F: Fn(usize) -> bool>(us: &Nodes, test: &F) -> bool
    requires { F.IsAlwaysCallable test.now }
    ensures { (t : ℕ → Bool) → Tells (F.post test.now) t → result ≡ nodes_any t us.now }
{
    match us {
        Nodes::Nil => false,
        Nodes::Seq(u, rest) => node_any(u, test) || nodes_any(rest, test),
    }
}

#[cycle(branches_any_node_any_nodes_any)]
fn branches_any<F: Fn(usize) -> bool>(branches: &Branches, test: &F) -> bool
    requires { F.IsAlwaysCallable test.now }
    ensures { (t : ℕ → Bool) → Tells (F.post test.now) t → result ≡ branches_any t branches.now }
{
    match branches {
        Branches::Last => false,
        Branches::Also(_, us, rest) => nodes_any(us, test) || branches_any(rest, test),
    }
}

// Whether a port stands in a block.
fn nodes_have(us: &Nodes, port: usize) -> bool
    ensures { result ≡ nodes_have port us.now }
{
    nodes_any(us, &|i| port == i)
}

// Whether no port of a block stands in another.
fn nodes_clear(us: &Nodes, others: &Nodes) -> bool
    ensures { result ≡ nodes_clear us.now others.now }
{
    !nodes_any(us, &|i| nodes_have(others, i))
}

// No port stands in two branches of a par.
pub fn check_ports(at: usize, branches: &Branches) -> Result<(), Fault>
    ensures { (text : List ℕ) → result ≡ must (apart (all_ports (meant text branches.now))) PortTwice at }
{
    let is_apart = are_apart(branches, &|_, us, _, vs| nodes_clear(us, vs));
    must(is_apart, Cause::PortTwice, at)
}
