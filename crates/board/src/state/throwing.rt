// A throw to a try of another place.
ghost use Rattle.std.specs.Prelude.{◌≡◌, ℕ, ◌<◌};
ghost use Rattle.rules.specs.Answers.{limit};
ghost use Rattle.rules.specs.Steps.{raise, step_effect};
ghost use Rattle.tables.specs.Views.{table};
ghost use Rattle.board.specs.Effects.{PlaceAfter, After, MayMove};

use crate::state::marks::lesser;
use crate::state::{Local, PlaceState, State};
use std::array;
use tables::tables::Tables;

// A place after a throw of `p` to the `k`-th try of `g`: `p` is poisoned, the places between get mark 0, and `g`
// the lesser of its mark and `k`.
fn thrown(t: &Tables, p: usize, g: usize, k: u16, q: usize, old: PlaceState) -> PlaceState
    requires { old.steps < limit }
    ensures { PlaceAfter (step_effect (table t.now) p (raise g k)) q old result }
{
    let mark = if q == g {
        lesser(old.mark, k)
    } else if t.within(g, q) && t.within(q, t.parent(p)) {
        lesser(old.mark, 0)
    } else {
        old.mark
    };
    if q == p {
        PlaceState {
            at: Local::Poisoned,
            mark,
            steps: old.steps + 1,
        }
    } else {
        PlaceState { mark, ..old }
    }
}

impl State {
    // Each place by itself: what becomes of it depends on no other.
    pub(crate) fn throw(&mut self, t: &Tables, p: usize, g: usize, k: u16)
        requires inside { p < 64 }
        requires above { g < 64 }
        requires counts { MayMove self.old }
        ensures { After (step_effect (table t.now) p (raise g k)) self.old self.new }
    {
        self.places = array::from_fn(|q| thrown(t, p, g, k, q, self.places[q]));
        self.total += 1;
    }
}
