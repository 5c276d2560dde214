// The unfolded text laid out as tables, and how many statements it has.
ghost use Rattle.std.specs.Prelude.{◌≡◌};
ghost use Rattle.reader.specs.Faults.{Meets};
ghost use Rattle.numbers.specs.Literals.{literal_reading};
ghost use Rattle.program.specs.Clearing.{cleared};
ghost use Rattle.layout.specs.Shown.{Shows};
ghost use Rattle.clearing.specs.Cleared.{statements_of};

use crate::stages::cleared_nodes;
use layout::sizes::statements;
use layout::whole::lay_out;
use numbers::kind::NumberKind;
use reader::fault::Error;
use std::alloc::Global;
use tables::tables::Tables;

// The tables of a text and its number of statements, or the refusal.
pub fn cleared_tables<K: NumberKind>(
    heap: Global,
    kind: &K,
    text: &[u8],
) -> Result<(Tables, usize), Error>
    ensures { Meets (λ v p. Shows v.0 p × (v.1 ≡ statements_of p)) result (cleared (literal_reading K.NumberKind.meaning) text.now) }
{
    let all = cleared_nodes(heap, kind, text)?;
    let tables = lay_out(text, heap, &all)?;
    Ok((tables, usize::from(statements(&all))))
}
