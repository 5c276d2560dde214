// What a part of a text is checked against.
ghost use Rattle.std.specs.Prelude.{◌≡◌, []};
ghost use Rattle.reader.specs.Tokens.{among};
ghost use Rattle.grammar.specs.Views.{name, names};
ghost use Rattle.names.specs.Naming.{find_proc, visible, undeclared, all_visible};
ghost use Rattle.names.specs.Scopes.{arity};
ghost use Rattle.names.specs.Checking.{vars_of, procs_of};

use crate::visible::find_proc;
use grammar::tree::{Name, Proc};
use reader::fault::{Cause, Fault, must};
use std::alloc::Global;

// The kind of its numbers, the text that its names are parts of, and the tables of the procedures and the variables that are visible.
#[derive(Drop)]
pub struct Checker<'a, K> {
    pub kind: &'a K,
    pub text: &'a [u8],
    pub procs: &'a [Proc],
    pub vars: Vec<Name>,
}

impl<'a, K> Checker<'a, K> {
    // No variable is visible yet.
    pub fn new(heap: Global, kind: &'a K, text: &'a [u8], procs: &'a [Proc]) -> Checker<'a, K>
        ensures text { result.text.now ≡ text.now }
        ensures procs { result.procs.now ≡ procs.now }
        ensures vars { result.vars.items ≡ [] }
    {
        Checker {
            kind,
            text,
            procs,
            vars: Vec::new(heap),
        }
    }

    // Whether a variable of this name is visible, from the newest on, since what is used was mostly declared last.
    fn sees(&self, n: Name) -> bool
        ensures { result ≡ among (name self.now.text.now n).text (vars_of self.now) }
    {
        self.vars.iter().rev().any(|m| n.is_alike(self.text, *m))
    }

    // A variable that is used has to be visible.
    pub fn check_visible(&self, n: Name) -> Result<(), Fault>
        ensures { result ≡ visible (vars_of self.now) (name self.now.text.now n) }
    {
        must(self.sees(n), Cause::NotVisible, n.at)
    }

    // A variable that is declared must not be visible.
    pub fn check_undeclared(&self, n: Name) -> Result<(), Fault>
        ensures { result ≡ undeclared (vars_of self.now) (name self.now.text.now n) }
    {
        must(!self.sees(n), Cause::Redeclared, n.at)
    }

    // The arguments of a call.
    pub fn check_arguments(&self, args: &[Name]) -> Result<(), Fault>
        ensures { result ≡ all_visible (vars_of self.now) (names self.now.text.now args.now) }
    {
        for n in args {
            self.check_visible(*n)?;
        }
        Ok(())
    }

    // How many parameters the visible procedure of a name has, if there is one.
    pub fn parameter_count(&self, n: Name) -> Option<usize>
        ensures { result ≡ arity (find_proc (procs_of self.now) (name self.now.text.now n).text) }
    {
        let place = find_proc(self.text, self.procs, n)?;
        let p = &self.procs[place];
        Some(p.params.len())
    }
}
