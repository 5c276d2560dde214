// The visible procedures: a procedure sees those before it.
ghost use Rattle.grammar.specs.Views.{name};
ghost use Rattle.unfold.specs.Calls.{FoundAt};

use crate::scopes::Scope;
use grammar::tree::Name;
use names::visible::find_proc;

impl<'a> Scope<'a> {
    // Where the visible procedure of a name stands.
    #[tactic(auto, using(crate::proofs::Adding::found_at))]
    pub fn find_proc(&self, n: Name) -> Option<usize>
        ensures { FoundAt self.now.text.now self.now.procs.now (name self.now.text.now n).text result }
    {
        find_proc(self.text, self.procs, n)
    }
}
