// The variables that a branch of a par gets.
ghost use Rattle.std.specs.Prelude.{◌≡◌, ◌+◌, ◌^◌, ◌<◌, ◌≤◌, length};
ghost use Rattle.reader.specs.Tokens.{among};
ghost use Rattle.grammar.specs.Views.{name, block, blocks};
ghost use Rattle.unfold.specs.Variables.{got_new, got_env, uses_block, all_get, all_new};
ghost use Rattle.unfold.specs.Steps.{got_one};
ghost use Rattle.unfold.specs.Occurrences.{uses, visible_params};
ghost use Rattle.unfold.specs.Getting.{had, GetsOn, AllGot};
ghost use Rattle.unfold.specs.Views.{env, got as one-got, gots, perhaps, variables, visible, Builds, MoreNews};

use crate::nodes::{Got, New};
use crate::scopes::{Binding, Scope};
use crate::uses::{Use, is_written};
use grammar::tree::{Block, Blocks, Name};
use reader::fault::Error;

// What a branch got so far, and the number of the next new cell.
#[derive(Drop)]
pub struct Getting {
    pub got: Vec<Got>,
    pub next: usize,
}

impl Getting {
    // Whether a variable of this name was got, from the newest on, since what occurs again was mostly got last.
    fn has(&self, text: &[u8], n: Name) -> bool
        ensures { result ≡ among (name text.now n).text (had text.now self.now.got.items) }
    {
        self.got.iter().rev().any(|g| n.is_alike(text, g.name))
    }

    // What an occurrence of a variable brings: nothing at a later one, or where the parent has no such variable.
    fn get_one(&self, scope: &Scope, found: &[Use], n: Name) -> Option<Got>
        ensures { perhaps (one-got scope.now.text.now) result ≡ got_one (variables scope.now) (uses scope.now.text.now found.now) (had scope.now.text.now self.now.got.items) (name scope.now.text.now n) self.now.next }
    {
        if self.has(scope.text, n) {
            return None;
        }
        let b = scope.find_binding(n)?;
        if is_written(scope.text, found, n) {
            Some(Got {
                name: n,
                own: b.own,
                home: b.home,
                from: None,
            })
        } else {
            Some(Got {
                name: n,
                own: self.next,
                home: b.home,
                from: Some(b.own),
            })
        }
    }

    // One occurrence more.
    fn get_next(&mut self, scope: &Scope, found: &[Use], n: Name) -> Result<(), Error>
        requires { self.old.next < 2 ^ 63 + 128 }
        ensures { GetsOn scope.now.text.now (variables scope.now) (uses scope.now.text.now found.now) n self.old result self.new }
    {
        if let Some(g) = self.get_one(scope, found, n) {
            self.got.push(g)?;
            self.next += usize::from(g.from.is_some());
        }
        Ok(())
    }
}

impl<'a> Scope<'a> {
    // What a branch gets by what occurs in it, with its new cells numbered from `first`.
    fn get_variables(&self, found: &[Use], first: usize) -> Result<Getting, Error>
        requires low { first ≤ 128 }
        requires short { length found.now < 2 ^ 63 }
        ensures { Builds (AllGot self.now.text.now (variables self.now) (uses self.now.text.now found.now) first) result }
    {
        let mut s = Getting {
            got: Vec::new(self.heap),
            next: first,
        };
        for u in found {
            s.get_next(self, found, u.name)?;
        }
        Ok(s)
    }

    // What a branch gets by what occurs in its block.
    pub fn get_branch(&self, b: &Block, first: usize) -> Result<Getting, Error>
        requires { first ≤ 128 }
        ensures { Builds (AllGot self.now.text.now (variables self.now) (uses_block (visible_params (visible self.now)) (block self.now.text.now b.now)) first) result }
    {
        let mut found = Vec::new(self.heap);
        self.add_block(b, &mut found)?;
        self.get_variables(found.as_slice(), first)
    }

    // What the names of a branch stand for.
    pub fn branch_bindings(&self, got: &[Got]) -> Result<Vec<Binding>, Error>
        ensures { Builds (λ v. env self.now.text.now v.items ≡ got_env (gots self.now.text.now got.now)) result }
    {
        Ok(got.iter().map(|g| Binding::from(*g)).collect(self.heap)?)
    }

    // The new cells of a branch.
    fn add_news(&self, got: &[Got], out: &mut Vec<New>) -> Result<(), Error>
        ensures { MoreNews self.now.text.now out.old.items (got_new (gots self.now.text.now got.now)) result out.new.items }
    {
        out.extend(
            got.iter().filter(|g| g.from.is_some()).map(|g| New {
                home: g.home,
                name: g.name,
            }),
        )?;
        Ok(())
    }

    // The new cells of all branches of a par.
    pub fn add_branch_news(&self, bs: &Blocks, out: &mut Vec<New>) -> Result<(), Error>
        ensures { MoreNews self.now.text.now out.old.items (all_new (all_get (visible_params (visible self.now)) (variables self.now) (blocks self.now.text.now bs.now) 0)) result out.new.items }
    {
        match bs {
            Blocks::Last => Ok(()),
            Blocks::Also(b, rest) => {
                let s = self.get_branch(b, 0)?;
                self.add_news(s.got.as_slice(), out)?;
                self.add_branch_news(rest, out)
            }
        }
    }
}
