// The statement of a par: the places of its branches, and the copies for the variables that they read.
ghost use Rattle.std.specs.Prelude.{◌≡◌, ℕ, ◌+◌, ◌<◌, ◌^◌, List, ◌++◌, IfOk, OnOk};
ghost use Rattle.rules.specs.Programs.{par as opens};
ghost use Rattle.tables.specs.Stms.{stm, copies as rows};
ghost use Rattle.program.specs.Sizes.{branch_places};
ghost use Rattle.program.specs.Layout.{branch_list, branch_copies};
ghost use Rattle.unfold.specs.Variables.{got_copies};
ghost use Rattle.unfold.specs.Views.{gots as variables, branches as all};

use crate::sizes::block_extent;
use std::alloc::{AllocError, Global};
use tables::stmt::{Copied, Stmt};
use unfold::nodes::{Branches, Got};

fn push_numbers(out: &mut Vec<u16>, branches: &Branches, q: u16) -> Result<(), AllocError>
    ensures { (text : List ℕ) → q + branch_places (all text branches.now) < 2 ^ 16 → OnOk result (out.new.items ≡ out.old.items ++ branch_list (all text branches.now) q) }
{
    match branches {
        Branches::Last => Ok(()),
        Branches::Also(_, us, rest) => {
            out.push(q)?;
            let next = q.saturating_add(1).saturating_add(block_extent(us).places);
            push_numbers(out, rest, next)
        }
    }
}

// A new own cell copies the parent's.
fn push_own(out: &mut Vec<Copied>, gots: &[Got]) -> Result<(), AllocError>
    ensures { (text : List ℕ) → OnOk result (rows out.new.items ≡ rows out.old.items ++ got_copies (variables text gots.now)) }
{
    out.extend(
        gots.iter()
            .filter_map(|g| g.from.map(|from| Copied { to: g.own, from })),
    )?;
    Ok(())
}

fn push_copies(out: &mut Vec<Copied>, branches: &Branches) -> Result<(), AllocError>
    ensures { (text : List ℕ) → OnOk result (rows out.new.items ≡ rows out.old.items ++ branch_copies (all text branches.now)) }
{
    match branches {
        Branches::Last => Ok(()),
        Branches::Also(gots, _, rest) => {
            push_own(out, gots)?;
            push_copies(out, rest)
        }
    }
}

// A par whose first branch is the place q.
pub fn par_stmt(heap: Global, branches: &Branches, q: u16) -> Result<Stmt, AllocError>
    ensures { (text : List ℕ) → q + branch_places (all text branches.now) < 2 ^ 16 → IfOk result (λ s. ((x : ℕ) → stm x s ≡ opens (branch_list (all text branches.now) q) (branch_copies (all text branches.now)))) }
{
    let mut numbers: Vec<u16> = Vec::new(heap);
    let mut copies: Vec<Copied> = Vec::new(heap);
    push_numbers(&mut numbers, branches, q)?;
    push_copies(&mut copies, branches)?;
    Ok(Stmt::Par(numbers, copies))
}
