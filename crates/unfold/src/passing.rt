// The arguments of a call.
ghost use Rattle.std.specs.Prelude.{ℕ, List};
ghost use Rattle.grammar.specs.Views.{names, params as parameters};
ghost use Rattle.unfold.specs.Unfolding.{passes};
ghost use Rattle.unfold.specs.Passing.{passed, PassesOn};
ghost use Rattle.unfold.specs.Views.{variables, Gives};

use crate::counts::Count;
use crate::nodes::New;
use crate::scopes::{Binding, Scope};
use grammar::tree::{Name, Param};
use reader::fault::Error;
use tables::stmt::Copied;

// What the parameters stand for, the copies of a call, the cells that it brings, and its by-reference arguments.
#[derive(Drop)]
pub struct Passed {
    pub env: Vec<Binding>,
    pub copies: Vec<Copied>,
    pub news: Vec<New>,
    pub refs: Vec<Name>,
}

impl Passed {
    // One argument more, with new cells numbered after those that there are.
    fn pass(&mut self, n: Count, p: Param, a: Name, b: Binding) -> Result<(), Error>
        ensures { (text : List ℕ) → PassesOn text p a b n.cells self.old result self.new }
    {
        if p.reference {
            self.env.push(Binding { name: p.name, ..b })?;
            self.refs.push(a)?;
            return Ok(());
        }
        let own = n.cells + self.news.len();
        self.env.push(Binding {
            name: p.name,
            own,
            ..b
        })?;
        self.copies.push(Copied {
            to: own,
            from: b.own,
        })?;
        self.news.push(New {
            home: b.home,
            name: p.name,
        })?;
        Ok(())
    }
}

impl<'a> Scope<'a> {
    pub fn pass_args(&self, n: Count, params: &[Param], args: &[Name]) -> Result<Passed, Error>
        ensures { Gives (passed self.now.text.now) result (passes (variables self.now) (parameters self.now.text.now params.now) (names self.now.text.now args.now) n.cells) }
    {
        let mut s = Passed {
            env: Vec::new(self.heap),
            copies: Vec::new(self.heap),
            news: Vec::new(self.heap),
            refs: Vec::new(self.heap),
        };
        for (p, a) in params.iter().zip(args) {
            let b = self.resolve_name(*a)?;
            s.pass(n, *p, *a, b)?;
        }
        Ok(s)
    }
}
