// Which places are ready for a home.
ghost use Rattle.std.specs.Prelude.{◌≡◌, ℕ, ◌<◌, false, slice_index_or};
ghost use Rattle.rules.specs.Tests.{knowing_child, ready_at, ready};
ghost use Rattle.tables.specs.Views.{table};
ghost use Rattle.board.specs.Views.{local, place, portless, flags};
ghost use Rattle.board.specs.Loops.{children_ready};

use crate::state::answers::backward;
use crate::state::{Local, State};
use tables::tables::Tables;

impl State {
    // Whether `c` is a live child of `p` that knows `h`.
    pub(crate) fn knowing_child(&self, t: &Tables, h: usize, p: usize, c: usize) -> bool
        requires { c < 64 }
        ensures { result ≡ knowing_child (table t.now) (portless self.now) h p c }
    {
        t.child(p, c) && self.places[c].at.is_live() && t.knows(c, h)
    }

    // Whether some live child knows `h` and every live child that knows `h` is ready, given the answers for them.
    // Readiness and spoiling loop with index over the places: a rule of the project.
    fn children_ready(&self, t: &Tables, h: usize, p: usize, later: &[bool; 64]) -> bool
        ensures { result ≡ children_ready (table t.now) (portless self.now) h p (flags later.now) }
    {
        let mut some = false;
        for c in 1..t.place_count() {
            if self.knowing_child(t, h, p, c) {
                if !later[c] {
                    return false;
                }
                some = true;
            }
        }
        some
    }

    // Whether `p` is ready for `h`, given the answers for the places after it.
    fn ready_one(&self, t: &Tables, h: usize, p: usize, later: &[bool; 64]) -> bool
        requires { p < 64 }
        ensures { result ≡ ready_at (table t.now) (portless self.now) h p (flags later.now) (local (place self.now p).at) }
    {
        match self.places[p].at {
            Local::Running(x) => t.awaits(x).is_some_and(|(_, home)| home as usize == h),
            Local::Parted(_) => self.children_ready(t, h, p, later),
            Local::Idle | Local::Finished | Local::Poisoned => false,
        }
    }

    // Which places are ready for a home: by the answers for the places after it.
    pub fn ready(&self, t: &Tables, h: usize) -> [bool; 64]
        ensures { (q : ℕ) → q < (table t.now).places → slice_index_or result q false ≡ ready (table t.now) (portless self.now) h (table t.now).places q }
    {
        backward(t.place_count(), |p, later| {
            self.ready_one(t, h, p, later)
        })
    }
}
