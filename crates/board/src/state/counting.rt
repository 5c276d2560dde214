// Which places readiness of a place for a home counts.
ghost use Rattle.std.specs.Prelude.{◌≡◌, ℕ, ◌<◌, false, slice_index_or};
ghost use Rattle.rules.specs.Readiness.{counts_child, counted};
ghost use Rattle.tables.specs.Views.{table};
ghost use Rattle.board.specs.Views.{portless, flags};
ghost use Rattle.board.specs.Loops.{counted_one};

use crate::state::State;
use tables::tables::Tables;

impl State {
    // Whether `q` is a live child, of a parted place, that knows `h`.
    fn counts_child(&self, t: &Tables, h: usize, q: usize) -> bool
        requires { q < 64 }
        ensures { result ≡ counts_child (table t.now) (portless self.now) h q }
    {
        q != 0
            && self.places[t.parent(q)].at.is_parted()
            && self.places[q].at.is_live()
            && t.knows(q, h)
    }

    // Whether `q` is counted from `p`, given the answers for the places before it.
    fn counted_one(&self, t: &Tables, h: usize, p: usize, q: usize, before: &[bool; 64]) -> bool
        requires { q < 64 }
        ensures { result ≡ counted_one (table t.now) (portless self.now) h p (flags before.now) q }
    {
        q == p || (self.counts_child(t, h, q) && q != 0 && before[t.parent(q)])
    }

    // `p`, and from a counted parted place its live children that know `h`:
    // from the first place to the last, since a child is counted by its parent.
    pub fn counted(&self, t: &Tables, h: usize, p: usize) -> [bool; 64]
        ensures { (q : ℕ) → q < 64 → slice_index_or result q false ≡ counted (table t.now) (portless self.now) h p q }
    {
        // Not the fill of `answers`, which goes backward: an order as a parameter is longer than this loop.
        let mut out = [false; 64];
        for q in 0..64 {
            out[q] = self.counted_one(t, h, p, q, &out);
        }
        out
    }
}
