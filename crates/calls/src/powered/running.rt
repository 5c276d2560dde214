// A run over choices.
ghost use Rattle.std.specs.Prelude.{◌≡◌};
ghost use Rattle.tables.specs.Views.{table, cells_of};
ghost use Rattle.board.specs.Views.{portless};
ghost use Rattle.calls.specs.Boards.{RunTells, Stops, last_stop};

use crate::powered::{Board, LIMIT};
use banks::bank::Bank;
use numbers::kind::NumberKind;
use rules::answers::Stop;

impl<K: NumberKind, B: Bank> Board<K, B> {
    // Why a board grants no move of `n` permitted ones: at rest, or at the limit, named in that order.
    fn stop(&self, n: usize) -> Option<Stop>
        ensures { Stops n self.now.state.total result }
    {
        if n == 0 {
            Some(Stop::Rest)
        } else if self.state.total >= LIMIT {
            Some(Stop::Limit)
        } else {
            None
        }
    }

    // Why a run stops whose choices are used up: at rest, at the limit, or at the list's end, named in that order.
    fn last_stop(&self) -> Stop
        ensures { result ≡ last_stop (table self.now.tables) (cells_of self.now.tables) (portless self.now.state) }
    {
        self.stop(self.permitted()).unwrap_or(Stop::End)
    }

    // Grants, for each choice, the permitted move at that index modulo their number. Tells how many it granted, and
    // why it stopped: at rest, at the limit, or at the list's end, named in that order.
    pub fn run(&mut self, choices: &[u32]) -> (u32, Stop)
        ensures { RunTells K.NumberKind.meaning B.Bank.words self.old choices.now result self.new }
    {
        let mut granted = 0;
        for choice in choices {
            let n = self.permitted();
            if let Some(stop) = self.stop(n) {
                return (granted, stop);
            }
            let Some(m) = self.state.permitted_at(&self.tables, *choice as usize % n) else {
                return (granted, Stop::Rest);
            };
            self.grant(m);
            granted += 1;
        }
        (granted, self.last_stop())
    }
}
