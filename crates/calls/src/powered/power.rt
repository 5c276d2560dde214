// Power.
ghost use Rattle.std.specs.Prelude.{◌≡◌};
ghost use Rattle.rules.specs.States.{powered};
ghost use Rattle.tables.specs.Views.{table};
ghost use Rattle.calls.specs.Boards.{state_of};

use crate::powered::Board;
use banks::bank::Bank;
use board::state::State;
use numbers::kind::NumberKind;
use tables::tables::Tables;

impl<K: NumberKind, B: Bank> Board<K, B> {
    // A board at power; it is never refused.
    pub fn power(kind: K, tables: Tables, bank: B) -> Board<K, B>
        ensures view { state_of B.Bank.words result ≡ powered (table tables) (B.Bank.words bank) }
        ensures tables { result.tables ≡ tables }
        ensures kind { result.kind ≡ kind }
        ensures bank { result.bank ≡ bank }
    {
        let state = State::power(&tables);
        Board {
            kind,
            tables,
            bank,
            state,
        }
    }
}
