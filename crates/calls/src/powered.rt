// A board: a number kind, a program, a bank and a state. The kind and the program never change.
ghost use Rattle.std.specs.Prelude.{ℕ, ◌≤◌};
ghost use Rattle.rules.specs.Answers.{limit};
ghost use Rattle.board.specs.Effects.{Bounded};

use board::state::State;
use tables::tables::Tables;

// The rules' limit of granted moves.
const LIMIT: u32 = 1000000000;

#[derive(Drop)]
pub struct Board<K, B> {
    kind: K,
    tables: Tables,
    bank: B,
    state: State,
    // no count is above the total, and the total is within the limit
    ghost bounded: { Bounded state },
    ghost limited: { state.total ≤ limit },
}

pub mod cells;
pub mod looks;
pub mod moving;
pub mod places;
pub mod power;
pub mod running;
