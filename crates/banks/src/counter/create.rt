// A counter and the words to come on it.
ghost use Rattle.std.specs.Prelude.{◌≡◌, ℕ, ◌<◌, slice_index, slice_index_or};
ghost use Rattle.banks.specs.Banks.{counter_words};
ghost use Rattle.banks.specs.Held.{no_count};
ghost use Rattle.banks.specs.contracts.counter.CounterBank.TheImpl.{ghosts as counter};

use crate::counter::{Count, Counter};
use std::array;

impl Counter {
    // At each port comes a count of words, the first of them the start, each later one a stride more modulo 2^32.
    // The three arrays stay apart as parameters: the rules give a counter by them, and callers' code stays as it is.
    pub fn new(start: [u32; 8], stride: [u32; 8], count: [u16; 8]) -> Counter
        ensures fields { (p : ℕ) → p < 8 → slice_index_or result.ports p no_count
            ≡ record { next = slice_index start p; stride = slice_index stride p; left = slice_index count p } }
        ensures words { (p : ℕ) → counter.words result p ≡ counter_words start stride count p }
    {
        let ports = array::from_fn(|p| Count {
            next: start[p],
            stride: stride[p],
            left: count[p],
        });
        Counter { ports }
    }
}
