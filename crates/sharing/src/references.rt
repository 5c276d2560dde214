// A call's by-reference arguments.
ghost use Rattle.std.specs.Prelude.{◌≡◌};
ghost use Rattle.unfold.specs.Sharing.{names_distinct, part_sharing};
ghost use Rattle.unfold.specs.Views.{spellings, part as meant};

use grammar::tree::Name;
use names::visible::is_among;
use reader::fault::{Cause, Fault, must};
use unfold::nodes::Part;

// Whether no name stands twice in a list.
fn are_distinct(text: &[u8], list: &[Name]) -> bool
    ensures { result ≡ names_distinct (spellings text.now list.now) }
{
    // No chain: its closure would need a bound on the index that only the loop knows.
    for (i, n) in list.iter().enumerate() {
        if is_among(text, &list[i + 1..], *n) {
            return false;
        }
    }
    true
}

// A call is given no variable twice by reference.
pub fn check_references(text: &[u8], at: usize, part: &Part) -> Result<(), Fault>
    ensures { result ≡ part_sharing at (meant text.now part.now) }
{
    match part {
        Part::Calls(_, references) => must(
            are_distinct(text, references.as_slice()),
            Cause::ReferencedTwice,
            at,
        ),
        _ => Ok(()),
    }
}
