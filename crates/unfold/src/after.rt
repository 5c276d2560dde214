// What comes after a statement, and how many branches a par has.
ghost use Rattle.std.specs.Prelude.{◌≡◌, ℕ, ◌-◌, ◌^◌, min, List, length};
ghost use Rattle.grammar.specs.Views.{stm, blocks};
ghost use Rattle.unfold.specs.Unfolding.{branch_count, brings, env_after};
ghost use Rattle.unfold.specs.Views.{env, count, news as new-cells, variables, Builds, Says};

use crate::counts::Count;
use crate::nodes::New;
use crate::scopes::{Binding, Scope};
use grammar::tree::{Blocks, Simple, Stmt};
use reader::fault::{Error, Fault};

// The branches of a par, as far as a number counts.
pub fn count_branches(bs: &Blocks) -> usize
    ensures { (text : List ℕ) → result ≡ min (branch_count (blocks text bs.now)) (2 ^ 64 - 1) }
{
    match bs {
        Blocks::Last => 0,
        Blocks::Also(_, rest) => count_branches(rest).saturating_add(1),
    }
}

impl<'a> Scope<'a> {
    // What names stand for after a statement: a `var` declares one more, in front of the others.
    pub fn bindings_after(&self, n: Count, s: &Stmt) -> Result<Vec<Binding>, Error>
        ensures { Builds (λ v. env self.now.text.now v.items ≡ env_after (variables self.now) (count n) (stm self.now.text.now s.now)) result }
    {
        let mut all = Vec::new(self.heap);
        if let Stmt::One(_, Simple::Var(x)) = s {
            all.push(Binding {
                name: *x,
                own: n.cells,
                home: n.cells,
            })?;
        }
        all.extend_from_slice(self.bindings)?;
        Ok(all)
    }

    // What a call brings. This and the next stand apart from their callers, where each goal would need the length
    // of the list that the new cells stand for.
    #[tactic(auto, using(crate::proofs::Entries::news_length))]
    pub fn bring_call(&self, n: Count, news: &[New], at: usize) -> Result<Count, Fault>
        ensures { Says count result (brings (count n) 0 (length (new-cells self.now.text.now news.now)) at) }
    {
        n.bring(0, news.len(), at)
    }

    // What a par brings.
    pub fn bring_par(&self, n: Count, bs: &Blocks, news: &[New], at: usize) -> Result<Count, Fault>
        ensures { Says count result (brings (count n) (branch_count (blocks self.now.text.now bs.now)) (length (new-cells self.now.text.now news.now)) at) }
    {
        n.bring(count_branches(bs), news.len(), at)
    }
}
