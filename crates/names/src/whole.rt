// Names of procedures and of a whole text.
ghost use Rattle.std.specs.Prelude.{◌≡◌, [], not, is_some};
ghost use Rattle.reader.specs.Faults.{Meets, must};
ghost use Rattle.reader.specs.declared.fault.Cause.TheVariants.{Redeclared};
ghost use Rattle.grammar.specs.Views.{name, params as parameters, proc, tree as whole};
ghost use Rattle.numbers.specs.Literals.{literal_reading};
ghost use Rattle.names.specs.Naming.{find_proc, names_params, names_proc, named};
ghost use Rattle.names.specs.Checking.{vars_of, procs_of, Declares};
ghost use Rattle.names.specs.Sites.{sites, Judged};

use crate::checker::Checker;
use grammar::tree::{Name, Param, Proc, Tree};
use numbers::kind::NumberKind;
use reader::fault::{Cause, Error, Fault, must};
use std::alloc::Global;

impl<K: NumberKind> Checker<'_, K> {
    // A procedure must not have the name of one that ended before it.
    fn check_new_proc(&self, n: Name) -> Result<(), Fault>
        ensures { result ≡ must (not (is_some (find_proc (procs_of self.now) (name self.now.text.now n).text))) Redeclared n.at }
    {
        must(self.parameter_count(n).is_none(), Cause::Redeclared, n.at)
    }

    // The parameters of a procedure become its first variables.
    fn check_params(&mut self, params: &[Param]) -> Result<(), Error>
        ensures { Declares self.old self.new result (names_params (vars_of self.old) (parameters self.old.text.now params.now)) }
    {
        for p in params {
            self.check_undeclared(p.name)?;
            self.vars.push(p.name)?;
        }
        Ok(())
    }

    // A procedure, where no variable is visible yet.
    fn check_proc(mut self, p: &Proc) -> Result<(), Error>
        requires { vars_of self ≡ [] }
        ensures { Meets (λ _ _. Unit {0}) result (names_proc (literal_reading K.NumberKind.meaning) (procs_of self.entry) (proc self.entry.text.now p.now)) }
    {
        self.check_new_proc(p.name)?;
        self.check_params(p.params.as_slice())?;
        self.check_block(&p.body)
    }
}

// The third stage of clearing: passes a tree, or refuses it at the first fault of names, arguments, literals and ports.
pub fn check_names<K: NumberKind>(
    heap: Global,
    kind: &K,
    text: &[u8],
    tree: &Tree,
) -> Result<(), Error>
    ensures answer { Meets (λ _ _. Unit {0}) result (named (literal_reading K.NumberKind.meaning) (whole text.now tree.now)) }
    ensures rules { Judged (literal_reading K.NumberKind.meaning) (sites (whole text.now tree.now)) result }
{
    let procs = tree.procs.as_slice();
    for (i, p) in procs.iter().enumerate() {
        let checker = Checker::new(heap, kind, text, &procs[..i]);
        checker.check_proc(p)?;
    }
    let mut checker = Checker::new(heap, kind, text, procs);
    checker.check_block(&tree.main)
}
