// Where blocks are entered: a plain block is entered and left without a move.
ghost use Rattle.std.specs.Prelude.{◌≡◌, ℕ, ◌+◌, ◌<◌, ◌^◌, List, MatchOption};
ghost use Rattle.program.specs.Sizes.{node_size, size, node_entry, entry as entered};
ghost use Rattle.unfold.specs.Views.{node, nodes as meant};

use crate::sizes::node_statements;
use unfold::nodes::{Node, Nodes, Part};

// The first point of a statement, if o is where its points begin; a plain block may have none.
#[cycle(entries)]
fn node_point(u: &Node, o: u16) -> Option<u16>
    ensures { (text : List ℕ) (k : ℕ) → o + node_size (node text u.now) < 2 ^ 16 → MatchOption result (k ≡ node_entry (node text u.now) o k) (λ x. x ≡ node_entry (node text u.now) o k) }
{
    match u {
        Node::Two(_, _, Part::Plain, first, _) => first_point(first, o.saturating_add(1)),
        _ => Some(o),
    }
}

// The first point of a block, if o is where its points begin; none where no statement of it has one.
// What stands behind the first point is not looked at, since a walk asks this of the rest of a block at each statement.
#[cycle(entries)]
fn first_point(us: &Nodes, o: u16) -> Option<u16>
    ensures { (text : List ℕ) (k : ℕ) → o + size (meant text us.now) < 2 ^ 16 → MatchOption result (k ≡ entered (meant text us.now) o k) (λ x. x ≡ entered (meant text us.now) o k) }
{
    match us {
        Nodes::Nil => None,
        Nodes::Seq(u, rest) => match node_point(u, o) {
            None => first_point(rest, o.saturating_add(node_statements(u))),
            found => found,
        },
    }
}

// The first point of a block, if o is where its points begin and k is after it.
pub fn entry(us: &Nodes, o: u16, k: u16) -> u16
    ensures { (text : List ℕ) → o + size (meant text us.now) < 2 ^ 16 → result ≡ entered (meant text us.now) o k }
{
    first_point(us, o).unwrap_or(k)
}
