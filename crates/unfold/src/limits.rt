// The limits: 1,024 statements, 64 places and 128 cells.
ghost use Rattle.std.specs.Prelude.{◌≡◌};
ghost use Rattle.unfold.specs.Unfolding.{brings};
ghost use Rattle.unfold.specs.Views.{count, Says};

use crate::counts::Count;
use reader::fault::{Cause, Fault, must};

impl Count {
    // A statement at an offset brings itself, places and cells.
    pub fn bring(self, places: usize, cells: usize, at: usize) -> Result<Count, Fault>
        ensures { Says count result (brings (count self) places cells at) }
    {
        let statements = self.statements.saturating_add(1);
        let places = self.places.saturating_add(places);
        let cells = self.cells.saturating_add(cells);
        must(
            statements <= 1024 && places <= 64 && cells <= 128,
            Cause::OverLimit,
            at,
        )?;
        Ok(Count {
            statements,
            places,
            cells,
        })
    }
}
