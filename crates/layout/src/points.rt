// Points, and the ends of places, which follow those of the statements.
ghost use Rattle.std.specs.Prelude.{◌≡◌, ◌+◌, ◌≤◌, [], ◌∷◌, ◌++◌, length, OnOk};
ghost use Rattle.tables.specs.Stms.{stm};
ghost use Rattle.program.specs.Layout.{ends as ended};
ghost use Rattle.layout.specs.Rows.{point_rows, standing};

use crate::tries::Inside;
use std::alloc::{AllocError, Global};
use tables::rows::Point;
use tables::stmt::Stmt;

pub fn push_point(
    heap: Global,
    out: &mut Vec<Point>,
    inside: &Inside<'_>,
    stmt: Stmt,
    after: u16,
    offset: usize,
) -> Result<(), AllocError>
    ensures len { OnOk result (length out.new.items ≡ length out.old.items + 1) }
    ensures rows { OnOk result (point_rows out.new.items ≡ point_rows out.old.items ++ (standing inside.now.place (stm inside.now.place stmt) after inside.now.catches.now offset ∷ [])) }
{
    let catches = Vec::from_slice(heap, inside.catches)?;
    out.push(Point {
        stmt,
        after,
        place: inside.place,
        catches,
        offset,
    })?;
    Ok(())
}

// The ends of n places, where that of the place q is the point e + q: a loop over the places' numbers, each of which it
// writes.
pub fn push_ends(heap: Global, out: &mut Vec<Point>, e: u16, n: u16) -> Result<(), AllocError>
    requires { e + n ≤ 2048 }
    ensures { OnOk result (point_rows out.new.items ≡ point_rows out.old.items ++ ended e 0 n) }
{
    for q in 0..n {
        let end = Inside {
            place: q,
            catches: &[],
            tries: &[],
        };
        push_point(heap, out, &end, Stmt::End, e + q, 0)?;
    }
    Ok(())
}
