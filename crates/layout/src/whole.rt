// The tables of an unfolded text.
ghost use Rattle.std.specs.Prelude.{◌≡◌, IfOk};
ghost use Rattle.rules.specs.Soundness.{Sound};
ghost use Rattle.program.specs.Layout.{laid_out, table_of};
ghost use Rattle.program.specs.Guarantees.{UnfoldedWithin, Bounded};
ghost use Rattle.unfold.specs.Views.{nodes as meant};
ghost use Rattle.layout.specs.Given.{given_from};
ghost use Rattle.layout.specs.Rows.{cell_rows, place_rows, point_rows};
ghost use Rattle.layout.specs.Shown.{Shows};

use crate::entries::entry;
use crate::points::push_ends;
use crate::sizes::statements;
use crate::tries::Inside;
use crate::walk::{Plan, Rows};
use std::alloc::{AllocError, Global};
use tables::rows::Place;
use tables::tables::Tables;
use unfold::nodes::Nodes;

// The main block is the first place; it has itself as parent and got nothing. The ends of the places follow the points of
// the statements.
fn lay_rows(text: &[u8], heap: Global, us: &Nodes) -> Result<Rows, AllocError>
    requires { UnfoldedWithin (meant text.now us.now) }
    ensures points { IfOk result (λ r. point_rows r.points.items ≡ (laid_out (meant text.now us.now)).points) }
    ensures places { IfOk result (λ r. r.places.items ≡ place_rows (laid_out (meant text.now us.now)).places) }
    ensures cells { IfOk result (λ r. cell_rows r.cells.items ≡ (laid_out (meant text.now us.now)).cells) }
    ensures got { IfOk result (λ r. r.got.items ≡ given_from 0 (laid_out (meant text.now us.now)).places) }
{
    let ends = statements(us);
    let mut rows = Rows {
        points: Vec::new(heap),
        places: Vec::new(heap),
        cells: Vec::new(heap),
        got: Vec::new(heap),
    };
    let start = entry(us, 0, ends);
    rows.places.push(Place {
        parent: 0,
        under: 0,
        start,
    })?;
    let main = Inside {
        place: 0,
        catches: &[],
        tries: &[],
    };
    Plan { text, heap, ends }.put_block(&mut rows, &main, us, ends)?;
    let places = rows.next_place();
    push_ends(heap, &mut rows.points, ends, places)?;
    Ok(rows)
}

// The tables of an unfolded text.
pub fn lay_out(text: &[u8], heap: Global, us: &Nodes) -> Result<Tables, AllocError>
    requires within { UnfoldedWithin (meant text.now us.now) }
    requires bounded { Bounded (laid_out (meant text.now us.now)) }
    requires sound { Sound (table_of (laid_out (meant text.now us.now))) }
    ensures { IfOk result (λ t. Shows t (laid_out (meant text.now us.now))) }
{
    let rows = lay_rows(text, heap, us)?;
    Ok(Tables {
        points: rows.points,
        places: rows.places,
        cells: rows.cells,
        got: rows.got,
    })
}
