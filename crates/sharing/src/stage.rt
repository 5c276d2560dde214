// The stage, over the unfolded text in order.
ghost use Rattle.std.specs.Prelude.{◌≡◌, []};
ghost use Rattle.reader.specs.declared.fault.Cause.TheVariants.{Uncaught};
ghost use Rattle.reader.specs.Faults.{must};
ghost use Rattle.reader.specs.Tokens.{among};
ghost use Rattle.grammar.specs.Views.{name};
ghost use Rattle.unfold.specs.Sharing.{node_sharing, sharing, branches_sharing};
ghost use Rattle.unfold.specs.Views.{Gives, node, nodes as meant, branches as all};
ghost use Rattle.sharing.specs.Opening.{Opened, tries_of, Checks};

use crate::ports::check_ports;
use crate::references::check_references;
use crate::writes::check_writes;
use grammar::tree::Name;
use names::visible::is_among;
use reader::fault::{Cause, Error, Fault, must};
use std::alloc::Global;
use unfold::nodes::{Branches, Node, Nodes, Part};

// What a part of the unfolded text is checked against: the text that its names are parts of,
// and the tries that are open around it, of which the last is the innermost.
#[derive(Drop)]
pub struct Checker<'a> {
    pub text: &'a [u8],
    pub tries: Vec<Name>,
}

// The first block of a try is held by it.
fn open(tries: &mut Vec<Name>, part: &Part) -> Result<(), Error>
    ensures { Opened tries.old.items part.now result tries.new.items }
{
    if let Part::Tries(n) = part {
        tries.push(*n)?;
    }
    Ok(())
}

impl Checker<'_> {
    // A throw stands in a try of its name.
    fn check_caught(&self, at: usize, n: Name) -> Result<(), Fault>
        ensures { result ≡ must (among (name self.now.text.now n).text (tries_of self.now)) Uncaught at }
    {
        must(
            is_among(self.text, self.tries.as_slice(), n),
            Cause::Uncaught,
            at,
        )
    }

    #[cycle(check_branches_check_node_check_nodes)]
    fn check_node(&mut self, u: &Node) -> Result<(), Error>
        ensures { Checks self.old self.new result (node_sharing (tries_of self.old) (node self.old.text.now u.now)) }
    {
        match u {
            Node::One(_, _, _) => Ok(()),
            Node::Throws(at, n) => Ok(self.check_caught(*at, *n)?),
            Node::Two(at, _, part, first, second) => {
                check_references(self.text, *at, part)?;
                let count = self.tries.len();
                open(&mut self.tries, part)?;
                self.check_nodes(first)?;
                // A catch block is not held by its own try.
                self.tries.truncate(count);
                self.check_nodes(second)
            }
            Node::Par(at, _, branches) => {
                check_writes(self.text, *at, branches)?;
                check_ports(*at, branches)?;
                self.check_branches(branches)
            }
        }
    }

    #[cycle(check_branches_check_node_check_nodes)]
    fn check_nodes(&mut self, us: &Nodes) -> Result<(), Error>
        ensures { Checks self.old self.new result (sharing (tries_of self.old) (meant self.old.text.now us.now)) }
    {
        match us {
            Nodes::Nil => Ok(()),
            Nodes::Seq(u, rest) => {
                self.check_node(u)?;
                self.check_nodes(rest)
            }
        }
    }

    #[cycle(check_branches_check_node_check_nodes)]
    fn check_branches(&mut self, branches: &Branches) -> Result<(), Error>
        ensures { Checks self.old self.new result (branches_sharing (tries_of self.old) (all self.old.text.now branches.now)) }
    {
        match branches {
            Branches::Last => Ok(()),
            Branches::Also(_, us, rest) => {
                self.check_nodes(us)?;
                self.check_branches(rest)
            }
        }
    }
}

// The fifth stage of clearing: passes an unfolded text, or refuses it at the first fault.
pub fn check_sharing(heap: Global, text: &[u8], nodes: &Nodes) -> Result<(), Error>
    ensures { Gives (λ _. tt) result (sharing [] (meant text.now nodes.now)) }
{
    let mut checker = Checker {
        text,
        tries: Vec::new(heap),
    };
    checker.check_nodes(nodes)
}
