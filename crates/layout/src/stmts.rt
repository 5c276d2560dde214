// The statement of a point.
ghost use Rattle.std.specs.Prelude.{◌≡◌, ℕ, true, List, IfOk};
ghost use Rattle.tables.specs.Fit.{named};
ghost use Rattle.tables.specs.Stms.{stm};
ghost use Rattle.program.specs.Layout.{part_stm};
ghost use Rattle.unfold.specs.Views.{action as acted, part as meant};
ghost use Rattle.layout.specs.Fits.{part_fits};

use crate::exprs::copy_expr;
use std::alloc::{AllocError, Global};
use tables::stmt::Stmt;
use unfold::nodes::{Action, Part};

// What a statement without blocks does.
pub fn action_stmt(heap: Global, action: &Action) -> Result<Stmt, AllocError>
    requires { named (acted action.now) ≡ true }
    ensures { IfOk result (λ s. ((q : ℕ) → stm q s ≡ acted action.now)) }
{
    match action {
        Action::Var(c) => Ok(Stmt::Var(*c as u16)),
        Action::Set(c, e) => Ok(Stmt::Set(*c as u16, copy_expr(heap, e)?)),
        Action::Know => Ok(Stmt::Know),
        Action::Next(c, h) => Ok(Stmt::Next(*c as u16, *h as u16)),
    }
}

// What stands before blocks, where the first block is entered at i, the second at j, and k is after the statement.
pub fn part_stmt(heap: Global, part: &Part, i: u16, j: u16, k: u16) -> Result<Stmt, AllocError>
    requires { (text : List ℕ) × (part_fits (meant text part.now) ≡ true) }
    ensures { (text : List ℕ) → IfOk result (λ s. ((q : ℕ) → stm q s ≡ part_stm (meant text part.now) i j k)) }
{
    match part {
        Part::Plain => Ok(Stmt::Goto(i)),
        Part::Calls(copies, _) => Ok(Stmt::Call(Vec::from_slice(heap, copies.as_slice())?, i)),
        Part::Tests(e) => Ok(Stmt::Test(copy_expr(heap, e)?, i, j)),
        Part::Loops(e) => Ok(Stmt::Test(copy_expr(heap, e)?, i, k)),
        Part::Tries(_) => Ok(Stmt::Try(i)),
        Part::Takes(port, c) => Ok(Stmt::Take(*port as u32, *c as u16, i)),
    }
}
