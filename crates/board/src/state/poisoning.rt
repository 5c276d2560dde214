// A poisoning of a place for a home.
ghost use Rattle.std.specs.Prelude.{◌≡◌, ℕ};
ghost use Rattle.rules.specs.Moves.{observed, poison_effect};
ghost use Rattle.tables.specs.Views.{table};
ghost use Rattle.board.specs.Views.{local, portless};
ghost use Rattle.board.specs.Effects.{PlaceAfter, After, MayMove, observed_if};

use crate::state::marks::lesser;
use crate::state::{Local, PlaceState, State};
use std::array;
use tables::tables::Tables;

// A place after a poisoning, by whether it is counted: a waiting one is poisoned, a parted one gets mark 0.
// This says the same of every place, so its contract says it of place 0.
fn poisoned(counted: bool, old: PlaceState) -> PlaceState
    ensures { PlaceAfter (poison_effect (observed_if counted (local old.at))) 0 old result }
{
    match old.at {
        Local::Running(_) if counted => PlaceState {
            at: Local::Poisoned,
            ..old
        },
        Local::Parted(_) if counted => PlaceState {
            mark: lesser(old.mark, 0),
            ..old
        },
        _ => old,
    }
}

impl State {
    // The waiting places that are counted from `p` are poisoned; the parted ones, `p` included, get mark 0.
    pub fn poison(&mut self, t: &Tables, p: usize, h: usize)
        requires counts { MayMove self.old }
        ensures { After (poison_effect (observed (table t.now) (portless self.old) h p)) self.old self.new }
    {
        let counted = self.counted(t, h, p);
        self.places = array::from_fn(|q| poisoned(counted[q], self.places[q]));
        self.total += 1;
    }
}
