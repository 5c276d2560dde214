// The state at power.
ghost use Rattle.std.specs.Prelude.{◌≡◌, ℕ, List};
ghost use Rattle.rules.specs.States.{powered};
ghost use Rattle.tables.specs.Views.{table};
ghost use Rattle.board.specs.Views.{view};
ghost use Rattle.board.specs.Effects.{Shaped, Bounded, started};

use crate::state::{Local, PlaceState, State};
use tables::tables::Tables;

// A place that runs from its start; its mark and its steps stay.
pub(crate) fn started(t: &Tables, q: usize, old: PlaceState) -> PlaceState
    ensures { result ≡ started (table t.now).start q old }
{
    PlaceState {
        at: Local::Running(t.start(q)),
        ..old
    }
}

impl State {
    // Place 0 runs from its start, the others are idle, marks are none, cells are word 0 and counts are 0.
    pub fn power(t: &Tables) -> State
        ensures view { (ws : ℕ → List ℕ) → view result ws ≡ powered (table t.now) ws }
        ensures shaped { Shaped result }
        ensures bounded { Bounded result }
        ensures total { result.total ≡ 0 }
    {
        let mut places = [PlaceState::default(); 64];
        places[0] = started(t, 0, places[0]);
        State {
            places,
            cells: [0; 128],
            meets: [0; 128],
            total: 0,
        }
    }
}
