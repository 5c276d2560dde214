// A close of a place.
ghost use Rattle.std.specs.Prelude.{◌≡◌, ℕ, ◌<◌};
ghost use Rattle.rules.specs.Moves.{closing, close_effect};
ghost use Rattle.tables.specs.Views.{table};
ghost use Rattle.board.specs.Views.{local, marked, place};
ghost use Rattle.board.specs.Effects.{PlaceAfter, After, MayMove};

use crate::state::{Local, PlaceState, State};
use std::array;
use tables::tables::Tables;

// Where a place goes that closes its par: with mark none after the par, with 0 it is poisoned, with k to the catch
// block of its k-th open try.
fn after_close(t: &Tables, at: Local, mark: Option<u16>) -> Local
    ensures { local result ≡ closing (table t.now) (marked mark) (local at) }
{
    let Local::Parted(x) = at else {
        return at;
    };
    match mark {
        None => Local::Running(t.after(x)),
        Some(0) => Local::Poisoned,
        Some(k) => Local::Running(t.catch_block(x, k as usize - 1)),
    }
}

// A place after `p` closed its par and stands at `out`: the children of `p` are idle.
fn closed(t: &Tables, p: usize, out: Local, q: usize, old: PlaceState) -> PlaceState
    ensures { PlaceAfter (close_effect (table t.now) p (local out)) q old result }
{
    if q == p {
        PlaceState {
            at: out,
            mark: None,
            ..old
        }
    } else if t.child(p, q) {
        PlaceState {
            at: Local::Idle,
            ..old
        }
    } else {
        old
    }
}

impl State {
    // Place `p` leaves its par, its mark becomes none, and its children are idle.
    pub fn close(&mut self, t: &Tables, p: usize)
        requires inside { p < 64 }
        requires counts { MayMove self.old }
        ensures { After (close_effect (table t.now) p (closing (table t.now) (marked (place self.old p).mark) (local (place self.old p).at))) self.old self.new }
    {
        let out = after_close(t, self.places[p].at, self.places[p].mark);
        self.places = array::from_fn(|q| closed(t, p, out, q, self.places[q]));
        self.total += 1;
    }
}
