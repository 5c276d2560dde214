// What a program holds.
ghost use Rattle.std.specs.Prelude.{◌≡◌};

use crate::programs::Program;
use tables::tables::Tables;

impl<K> Program<K> {
    // How many statements the text unfolded to.
    pub fn statements(&self) -> usize
        ensures { result ≡ self.now.statements }
    {
        self.statements
    }

    // The tables, to look at.
    pub fn tables(&self) -> &Tables
        ensures { result.now ≡ self.now.tables }
    {
        &self.tables
    }

    // The kind and the tables; the program is spent.
    pub fn into_parts(self) -> (K, Tables)
        ensures { (result.0 ≡ self.kind) × (result.1 ≡ self.tables) }
    {
        (self.kind, self.tables)
    }
}
