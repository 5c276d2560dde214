// A look at a place.
ghost use Rattle.std.specs.Prelude.{◌≡◌};
ghost use Rattle.tables.specs.Views.{table};
ghost use Rattle.board.specs.Views.{local, marked, portless};
ghost use Rattle.calls.specs.Looks.{condition, waits_for, PlaceTold};

use crate::looks::{Condition, PlaceLook};
use crate::powered::Board;
use banks::bank::Bank;
use board::state::Local;
use numbers::kind::NumberKind;
use rules::answers::Refusal;
use tables::tables::Tables;

// Which of the five it is.
impl From<Local> for Condition {
    ghost from_gives = { λ at c. c ≡ condition (local at) };

    fn from(at: Local) -> Condition {
        match at {
            Local::Idle => Condition::Idle,
            Local::Running(_) => Condition::Running,
            Local::Parted(_) => Condition::Parted,
            Local::Finished => Condition::Finished,
            Local::Poisoned => Condition::Poisoned,
        }
    }
}

// The home that a running place waits for.
fn awaited_home(t: &Tables, at: Local) -> Option<u16>
    ensures { marked result ≡ waits_for (table t.now) (local at) }
{
    match at {
        Local::Running(x) => t.awaits(x).map(|(_, home)| home),
        _ => None,
    }
}

impl<K: NumberKind, B: Bank> Board<K, B> {
    // What a place is, the home that it waits for, its mark and its steps.
    pub fn place(&self, q: usize) -> Result<PlaceLook, Refusal>
        ensures { PlaceTold (table self.now.tables) (portless self.now.state) q result }
    {
        if q >= self.tables.place_count() {
            return Err(Refusal::NoSuch);
        }
        let place = self.state.places[q];
        Ok(PlaceLook {
            condition: Condition::from(place.at),
            on: awaited_home(&self.tables, place.at),
            mark: place.mark,
            steps: place.steps,
        })
    }
}
