// How much there is in the unfolded text.
ghost use Rattle.std.specs.Prelude.{◌≡◌, ℕ, ◌+◌, ◌-◌, ◌^◌, min, List};
ghost use Rattle.program.specs.Sizes.{node_size, size, branch_size, node_places, how_many, branch_places};
ghost use Rattle.unfold.specs.Views.{node, nodes as meant, branches as all};

use unfold::nodes::{Branches, Node, Nodes};

// How many statements, where a block that belongs to one counts nothing, and how many places, one for each branch of a
// par, as far as a number counts.
#[derive(Clone, Copy, Default)]
pub(crate) struct Extent {
    pub(crate) statements: u16,
    pub(crate) places: u16,
}

impl Extent {
    fn with(self, other: Extent) -> Extent
        ensures statements { result.statements ≡ min (self.statements + other.statements) (2 ^ 16 - 1) }
        ensures places { result.places ≡ min (self.places + other.places) (2 ^ 16 - 1) }
    {
        Extent {
            statements: self.statements.saturating_add(other.statements),
            places: self.places.saturating_add(other.places),
        }
    }
}

#[cycle(extent)]
pub(crate) fn node_extent(u: &Node) -> Extent
    ensures statements { (text : List ℕ) → result.statements ≡ min (node_size (node text u.now)) (2 ^ 16 - 1) }
    ensures places { (text : List ℕ) → result.places ≡ min (node_places (node text u.now)) (2 ^ 16 - 1) }
{
    let one = Extent {
        statements: 1,
        places: 0,
    };
    match u {
        Node::One(_, _, _) | Node::Throws(_, _) => one,
        Node::Two(_, _, _, first, second) => one
            .with(block_extent(first))
            .with(block_extent(second)),
        Node::Par(_, _, branches) => one.with(branch_extent(branches)),
    }
}

#[cycle(extent)]
pub(crate) fn block_extent(us: &Nodes) -> Extent
    ensures statements { (text : List ℕ) → result.statements ≡ min (size (meant text us.now)) (2 ^ 16 - 1) }
    ensures places { (text : List ℕ) → result.places ≡ min (how_many (meant text us.now)) (2 ^ 16 - 1) }
{
    match us {
        Nodes::Nil => Extent::default(),
        Nodes::Seq(u, rest) => node_extent(u).with(block_extent(rest)),
    }
}

#[cycle(extent)]
fn branch_extent(branches: &Branches) -> Extent
    ensures statements { (text : List ℕ) → result.statements ≡ min (branch_size (all text branches.now)) (2 ^ 16 - 1) }
    ensures places { (text : List ℕ) → result.places ≡ min (branch_places (all text branches.now)) (2 ^ 16 - 1) }
{
    match branches {
        Branches::Last => Extent::default(),
        Branches::Also(_, us, rest) => {
            let branch = Extent {
                statements: 0,
                places: 1,
            };
            branch.with(block_extent(us)).with(branch_extent(rest))
        }
    }
}

// How many statements a statement makes: it, and all that lie in it.
pub fn node_statements(u: &Node) -> u16
    ensures { (text : List ℕ) → result ≡ min (node_size (node text u.now)) (2 ^ 16 - 1) }
{
    node_extent(u).statements
}

// How many statements there are in a block.
pub fn statements(us: &Nodes) -> u16
    ensures { (text : List ℕ) → result ≡ min (size (meant text us.now)) (2 ^ 16 - 1) }
{
    block_extent(us).statements
}
