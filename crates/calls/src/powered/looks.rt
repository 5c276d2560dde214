// Looks at what is permitted, and the verdict.
ghost use Rattle.std.specs.Prelude.{◌≡◌, length};
ghost use Rattle.rules.specs.Answers.{verdict};
ghost use Rattle.rules.specs.Listings.{listing, nth};
ghost use Rattle.tables.specs.Views.{table, cells_of};
ghost use Rattle.board.specs.Views.{portless};
ghost use Rattle.calls.specs.Boards.{Told};

use crate::powered::Board;
use banks::bank::Bank;
use board::state::Local;
use numbers::kind::NumberKind;
use rules::answers::{Refusal, Verdict};
use tables::moves::MoveName;

impl<K: NumberKind, B: Bank> Board<K, B> {
    // How many moves are permitted.
    pub fn permitted(&self) -> usize
        ensures { result ≡ length (listing (table self.now.tables) (portless self.now.state) (cells_of self.now.tables)) }
    {
        self.state.permitted_count(&self.tables)
    }

    // The permitted move at an index, by its name.
    pub fn permitted_at(&self, index: usize) -> Result<MoveName, Refusal>
        ensures { Told result (nth (listing (table self.now.tables) (portless self.now.state) (cells_of self.now.tables)) index) }
    {
        self.state
            .permitted_at(&self.tables, index)
            .map(|m| m.name())
            .ok_or(Refusal::NoSuch)
    }

    // The verdict is finished if place 0 is, else deadlock at rest, else moving.
    pub fn verdict(&self) -> Verdict
        ensures { result ≡ verdict (table self.now.tables) (cells_of self.now.tables) (portless self.now.state) }
    {
        match self.state.places[0].at {
            Local::Finished => Verdict::Finished,
            _ if self.permitted() == 0 => Verdict::Deadlock,
            _ => Verdict::Moving,
        }
    }
}
