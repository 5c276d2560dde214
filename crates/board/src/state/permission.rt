// Which moves a state permits.
ghost use Rattle.std.specs.Prelude.{◌≡◌, ℕ, ◌<◌};
ghost use Rattle.rules.specs.States.{step, close, meet, poison};
ghost use Rattle.rules.specs.Moves.{any_below};
ghost use Rattle.rules.specs.Tests.{permitted};
ghost use Rattle.rules.specs.Names.{Exists};
ghost use Rattle.tables.specs.Views.{table, cells_of, move};
ghost use Rattle.board.specs.Views.{portless, flags};
ghost use Rattle.board.specs.Loops.{busy_child, no_child_busy, spoiled_sibling};

use crate::state::{Local, State};
use tables::moves::Move;
use tables::tables::Tables;

impl State {
    // Step: `p` runs and is not before a next.
    pub(crate) fn can_step(&self, t: &Tables, p: usize) -> bool
        requires { p < 64 }
        ensures { result ≡ permitted (table t.now) (portless self.now) (step p) }
    {
        matches!(self.places[p].at, Local::Running(x) if t.awaits(x).is_none())
    }

    // Whether `c` is a child of `p` that runs or is parted.
    fn busy_child(&self, t: &Tables, p: usize, c: usize) -> bool
        requires { c < 64 }
        ensures { result ≡ busy_child (table t.now) (portless self.now) p c }
    {
        t.child(p, c) && self.places[c].at.is_busy()
    }

    // Whether no child of `p` runs or is parted.
    fn no_child_busy(&self, t: &Tables, p: usize) -> bool
        ensures { result ≡ no_child_busy (table t.now) (portless self.now) p }
    {
        (1..t.place_count()).all(|c| !self.busy_child(t, p, c))
    }

    // Close: `p` is parted and no child runs or is parted.
    pub(crate) fn can_close(&self, t: &Tables, p: usize) -> bool
        requires { p < 64 }
        ensures { result ≡ permitted (table t.now) (portless self.now) (close p) }
    {
        self.places[p].at.is_parted() && self.no_child_busy(t, p)
    }

    // Meet: the place that declared `h` is ready for `h`, which is a home.
    pub(crate) fn can_meet(&self, t: &Tables, h: usize) -> bool
        ensures { result ≡ permitted (table t.now) (portless self.now) (meet h) }
    {
        t.home(h) == h && self.ready(t, h)[t.declarer(h)]
    }

    // Whether `c` is a live sibling of `p` that is spoiled, given the answers.
    fn spoiled_sibling(&self, t: &Tables, p: usize, c: usize, spoiled: &[bool; 64]) -> bool
        requires { c < 64 }
        ensures { result ≡ spoiled_sibling (table t.now) (portless self.now) p (flags spoiled.now) c }
    {
        c != p && self.spoiled_child(t, t.parent(p), c, spoiled)
    }

    // Whether there is such a sibling.
    fn some_spoiled_sibling(&self, t: &Tables, p: usize, spoiled: &[bool; 64]) -> bool
        ensures { result ≡ any_below (table t.now).places (spoiled_sibling (table t.now) (portless self.now) p (flags spoiled.now)) }
    {
        (1..t.place_count()).any(|c| self.spoiled_sibling(t, p, c, spoiled))
    }

    // Poison: `p` knows `h`, which is a home, and is ready for it, and a live sibling is spoiled for `h`.
    pub(crate) fn can_poison(&self, t: &Tables, p: usize, h: usize) -> bool
        requires { p < (table t.now).places }
        ensures { result ≡ permitted (table t.now) (portless self.now) (poison p h) }
    {
        if t.home(h) != h || !t.knows(p, h) || !self.ready(t, h)[p] {
            return false;
        }
        self.some_spoiled_sibling(t, p, &self.spoiled(t, h))
    }

    // Whether a move of the board is permitted.
    pub fn permits(&self, t: &Tables, m: Move) -> bool
        requires { Exists (table t.now) (cells_of t.now) (move m) }
        ensures { result ≡ permitted (table t.now) (portless self.now) (move m) }
    {
        match m {
            Move::Step(p) => self.can_step(t, p as usize),
            Move::Close(p) => self.can_close(t, p as usize),
            Move::Meet(h) => self.can_meet(t, h as usize),
            Move::Poison(p, h) => self.can_poison(t, p as usize, h as usize),
        }
    }
}
