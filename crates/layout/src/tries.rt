// Open tries, and throws.
ghost use Rattle.std.specs.Prelude.{◌≡◌, ℕ, ◌≤◌, List, length, IfOk};
ghost use Rattle.grammar.specs.Views.{name as called};
ghost use Rattle.tables.specs.Stms.{stm};
ghost use Rattle.program.specs.Layout.{nearest, thrown, part_after, part_catches, part_opens};
ghost use Rattle.unfold.specs.Views.{perhaps, part as meant};
ghost use Rattle.layout.specs.Opens.{held, all_held};

use grammar::tree::Name;
use std::alloc::{AllocError, Global};
use tables::stmt::Stmt;
use unfold::nodes::Part;

// An open try: its name, its place, its number among the open ones of the place from outside, and its catch block.
#[derive(Clone, Copy)]
pub struct Held {
    pub name: Name,
    pub place: u16,
    pub number: u16,
    pub catch: u16,
}

// The nearest open try of a name.
fn nearest_try(text: &[u8], tries: &[Held], n: Name) -> Option<Held>
    ensures { perhaps (held text.now) result ≡ nearest (called text.now n).text (all_held text.now tries.now) }
{
    tries.iter().find(|r| n.is_alike(text, r.name)).copied()
}

// Where a block stands: its place, the catch blocks of the tries that are open in it from outside, and all open tries,
// those nearest first.
#[derive(Clone, Copy)]
pub struct Inside<'a> {
    pub place: u16,
    pub catches: &'a [u16],
    pub tries: &'a [Held],
}

// A throw there.
pub fn throw_stmt(text: &[u8], inside: &Inside<'_>, n: Name) -> Stmt
    ensures { stm inside.now.place result ≡ thrown inside.now.place (nearest (called text.now n).text (all_held text.now inside.now.tries.now)) }
{
    nearest_try(text, inside.tries, n).map_or(
        Stmt::End,
        |r| Stmt::Throw(r.place, r.number, r.catch),
    )
}

// Where the first block leads: back to a while at o.
pub fn leads_to(part: &Part, o: u16, k: u16) -> u16
    ensures { (text : List ℕ) → result ≡ part_after (meant text part.now) o k }
{
    match part {
        Part::Loops(_) => o,
        _ => k,
    }
}

// The catch blocks of the tries that are open in the first block, where j is the second.
pub fn inner_catches(
    heap: Global,
    part: &Part,
    j: u16,
    inside: &Inside<'_>,
) -> Result<Vec<u16>, AllocError>
    ensures { IfOk result (λ v. ((text : List ℕ) → v.items ≡ part_catches (meant text part.now) j inside.now.catches.now)) }
{
    let mut out = Vec::from_slice(heap, inside.catches)?;
    if let Part::Tries(_) = part {
        out.push(j)?;
    }
    Ok(out)
}

// The tries that are open in the first block.
pub fn inner_tries(
    heap: Global,
    part: &Part,
    j: u16,
    inside: &Inside<'_>,
) -> Result<Vec<Held>, AllocError>
    requires { length inside.now.catches.now ≤ 1024 }
    ensures { IfOk result (λ v. ((text : List ℕ) → all_held text v.items ≡ part_opens (meant text part.now) inside.now.place j inside.now.catches.now (all_held text inside.now.tries.now))) }
{
    let mut out: Vec<Held> = Vec::new(heap);
    if let Part::Tries(n) = part {
        out.push(Held {
            name: *n,
            place: inside.place,
            number: inside.catches.len() as u16 + 1,
            catch: j,
        })?;
    }
    out.extend_from_slice(inside.tries)?;
    Ok(out)
}
