// What names stand for.
ghost use Rattle.std.specs.Prelude.{◌≡◌};
ghost use Rattle.grammar.specs.Views.{name};
ghost use Rattle.unfold.specs.Scopes.{lookup, stands};
ghost use Rattle.unfold.specs.Views.{binding, perhaps, variables, Says};

use crate::nodes::Got;
use grammar::tree::{Name, Proc};
use reader::fault::{Cause, Fault};
use std::alloc::Global;

// A variable of a place: its name, and the own cell and the home that it stands for.
#[derive(Clone, Copy)]
pub struct Binding {
    pub name: Name,
    pub own: usize,
    pub home: usize,
}

impl From<Got> for Binding {
    ghost from_gives = { λ g b. b ≡ record { name = g.name; own = g.own; home = g.home } };

    fn from(g: Got) -> Binding {
        Binding {
            name: g.name,
            own: g.own,
            home: g.home,
        }
    }
}

// Where a part of the text is unfolded: the text, the procedures and the variables that are visible there, and the heap.
// The number kind is no field: only expressions read it, and each other method would be generic in it too.
// The count goes in and comes out beside what was unfolded, as in the definition: it is what the next statement begins with.
#[derive(Clone, Copy)]
pub struct Scope<'a> {
    pub heap: Global,
    pub text: &'a [u8],
    pub procs: &'a [Proc],
    pub bindings: &'a [Binding],
}

impl<'a> Scope<'a> {
    // What a name stands for, where the first binding of it counts.
    pub fn find_binding(&self, n: Name) -> Option<Binding>
        ensures { perhaps (binding self.now.text.now) result ≡ lookup (variables self.now) (name self.now.text.now n).text }
    {
        self.bindings
            .iter()
            .find(|b| n.is_alike(self.text, b.name))
            .copied()
    }

    pub fn resolve_name(&self, n: Name) -> Result<Binding, Fault>
        ensures { Says (binding self.now.text.now) result (stands (variables self.now) (name self.now.text.now n)) }
    {
        self.find_binding(n).ok_or(Cause::NotVisible.at(n.at))
    }
}
