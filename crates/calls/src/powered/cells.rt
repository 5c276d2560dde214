// A look at a cell.
ghost use Rattle.std.specs.Prelude.{◌≡◌};
ghost use Rattle.tables.specs.Views.{table, cells_of};
ghost use Rattle.board.specs.Views.{portless};
ghost use Rattle.calls.specs.Looks.{CellTold};

use crate::looks::CellLook;
use crate::powered::Board;
use banks::bank::Bank;
use numbers::kind::NumberKind;
use rules::answers::Refusal;

impl<K: NumberKind, B: Bank> Board<K, B> {
    // The home of a cell, its word and its meets.
    pub fn cell(&self, c: usize) -> Result<CellLook, Refusal>
        ensures { CellTold (table self.now.tables) (cells_of self.now.tables) (portless self.now.state) c result }
    {
        if c >= self.tables.cell_count() {
            return Err(Refusal::NoSuch);
        }
        Ok(CellLook {
            home: self.tables.home(c),
            value: self.state.cells[c],
            meets: self.state.meets[c],
        })
    }
}
