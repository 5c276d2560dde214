// A tape and the words to come on it.
ghost use Rattle.std.specs.Prelude.{◌≡◌, ℕ, ◌<◌, slice_index, slice_index_or};
ghost use Rattle.banks.specs.Banks.{tape_words, stretch};
ghost use Rattle.banks.specs.contracts.tape.TapeBank.TheImpl.{ghosts as tape};

use crate::tape::Tape;
use std::array;

// The words of the memory from a first index for a length; none where they do not all lie inside it.
fn stretch_of(memory: &[u32], first: usize, len: usize) -> &[u32]
    ensures { result.now ≡ stretch memory.now first len }
{
    first
        .checked_add(len)
        .and_then(|end| memory.get(first..end))
        .unwrap_or(&[])
}

impl<'a> Tape<'a> {
    // At each port come the words of the memory from a first index for a length; none where they do not all lie inside it.
    // The two arrays stay apart as parameters: callers' code stays as it is. No slices come in their place: which parts lie
    // inside the memory is decided here.
    pub fn new(memory: &'a [u32], first: [usize; 8], len: [usize; 8]) -> Tape<'a>
        ensures fields { (p : ℕ) → p < 8 → (slice_index_or result.ports p memory.entry).now
            ≡ stretch memory.now (slice_index first p) (slice_index len p) }
        ensures words { (p : ℕ) → tape.words result p ≡ tape_words memory.now first len p }
    {
        let ports = array::from_fn(|p| stretch_of(memory, first[p], len[p]));
        Tape { ports }
    }
}
