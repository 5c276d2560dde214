// Which places are spoiled for a home.
ghost use Rattle.std.specs.Prelude.{◌≡◌, ℕ, ◌<◌, false, slice_index_or};
ghost use Rattle.rules.specs.Tests.{spoiled};
ghost use Rattle.tables.specs.Views.{table};
ghost use Rattle.board.specs.Views.{local, place, portless, flags};
ghost use Rattle.board.specs.Loops.{spoiled_child, spoiled_through, spoiled_one};

use crate::state::answers::backward;
use crate::state::{Local, State};
use tables::tables::Tables;

impl State {
    // Whether `c` is a live child of `q` that is spoiled, given the answers.
    pub(crate) fn spoiled_child(&self, t: &Tables, q: usize, c: usize, later: &[bool; 64]) -> bool
        requires { c < 64 }
        ensures { result ≡ spoiled_child (table t.now) (portless self.now) q (flags later.now) c }
    {
        t.child(q, c) && self.places[c].at.is_live() && later[c]
    }

    // Whether no live child of `q` knows `h`, or some live child is spoiled, given the answers for them.
    // A loop with index, as for readiness.
    fn spoiled_through(&self, t: &Tables, h: usize, q: usize, later: &[bool; 64]) -> bool
        ensures { result ≡ spoiled_through (table t.now) (portless self.now) h q (flags later.now) }
    {
        let mut some = false;
        for c in 1..t.place_count() {
            if self.spoiled_child(t, q, c, later) {
                return true;
            }
            if self.knowing_child(t, h, q, c) {
                some = true;
            }
        }
        !some
    }

    // Whether `q` is spoiled for `h`, given the answers for the places after it: it knows `h`, and it is poisoned,
    // or parted with mark 0 and spoiled through its children.
    fn spoiled_one(&self, t: &Tables, h: usize, q: usize, later: &[bool; 64]) -> bool
        requires { q < 64 }
        ensures { result ≡ spoiled_one (table t.now) (portless self.now) h q (flags later.now) (local (place self.now q).at) }
    {
        let place = self.places[q];
        t.knows(q, h)
            && match place.at {
                Local::Poisoned => true,
                Local::Parted(_) => {
                    place.mark == Some(0) && self.spoiled_through(t, h, q, later)
                }
                Local::Idle | Local::Running(_) | Local::Finished => false,
            }
    }

    // Which places are spoiled for a home: by the answers for the places after it.
    pub fn spoiled(&self, t: &Tables, h: usize) -> [bool; 64]
        ensures { (q : ℕ) → q < (table t.now).places → slice_index_or result q false ≡ spoiled (table t.now) (portless self.now) h (table t.now).places q }
    {
        backward(t.place_count(), |p, later| {
            self.spoiled_one(t, h, p, later)
        })
    }
}
