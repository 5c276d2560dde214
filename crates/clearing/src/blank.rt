// The tables of `main { }`.
ghost use Rattle.std.specs.Prelude.{IfOk};
ghost use Rattle.program.specs.Clearing.{fresh as empty_main};
ghost use Rattle.layout.specs.Shown.{Shows};

use std::alloc::{AllocError, Global};
use tables::rows::Place;
use tables::tables::Tables;

// New tables of `main { }`. The main block has itself as parent, and its end, which stands past the last point, is its
// first point.
pub fn blank_tables(heap: Global) -> Result<Tables, AllocError>
    ensures { IfOk result (λ t. Shows t empty_main) }
{
    Ok(Tables {
        points: Vec::new(heap),
        places: vec![in heap; Place::default()]?,
        cells: Vec::new(heap),
        got: Vec::new(heap),
    })
}

// Makes tables those of `main { }`, in the memory that they have.
pub fn reset_tables(tables: &mut Tables)
    ensures { Shows tables.new empty_main }
{
    tables.points.clear();
    tables.cells.clear();
    tables.got.clear();
    tables.places.truncate(1);
    tables.places[0] = Place::default();
}
