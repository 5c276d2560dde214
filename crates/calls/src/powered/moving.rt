// Making a named move.
ghost use Rattle.std.specs.Prelude.{◌≡◌, ℕ, ◌<◌, true};
ghost use Rattle.rules.specs.Moves.{made};
ghost use Rattle.rules.specs.Answers.{limit};
ghost use Rattle.rules.specs.Names.{Exists};
ghost use Rattle.rules.specs.Tests.{permitted};
ghost use Rattle.tables.specs.Views.{table, cells_of, move};
ghost use Rattle.board.specs.Views.{portless};
ghost use Rattle.calls.specs.Boards.{state_of, Moved};

use crate::powered::{Board, LIMIT};
use banks::bank::Bank;
use numbers::kind::NumberKind;
use rules::answers::Refusal;
use tables::moves::Move;

impl<K: NumberKind, B: Bank> Board<K, B> {
    // Makes the move that a kind and two numbers name. A refusal changes nothing: no such name, then limit reached,
    // then not permitted.
    pub fn make_move(&mut self, kind: u32, a: u32, b: u32) -> Result<(), Refusal>
        ensures { Moved K.NumberKind.meaning B.Bank.words self.old kind a b result self.new }
    {
        let Some(m) = self.tables.move_of(kind, a, b) else {
            return Err(Refusal::NoSuch);
        };
        if self.state.total >= LIMIT {
            return Err(Refusal::Limit);
        }
        if !self.state.permits(&self.tables, m) {
            return Err(Refusal::NotPermitted);
        }
        self.grant(m);
        Ok(())
    }

    // Makes a permitted move.
    pub(crate) fn grant(&mut self, m: Move)
        requires exists { Exists (table self.old.tables) (cells_of self.old.tables) (move m) }
        requires under { self.old.state.total < limit }
        requires permitted { permitted (table self.old.tables) (portless self.old.state) (move m) ≡ true }
        ensures view { state_of B.Bank.words self.new ≡ made K.NumberKind.meaning (table self.old.tables) (state_of B.Bank.words self.old) (move m) }
        ensures tables { self.new.tables ≡ self.old.tables }
        ensures kind { self.new.kind ≡ self.old.kind }
    {
        match m {
            Move::Step(p) => self
                .state
                .step(&self.tables, &self.kind, &mut self.bank, p as usize),
            Move::Close(p) => self.state.close(&self.tables, p as usize),
            Move::Meet(h) => self.state.meet(&self.tables, h as usize),
            Move::Poison(p, h) => self.state.poison(&self.tables, p as usize, h as usize),
        }
    }
}
