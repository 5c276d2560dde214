// Filling a program from a text.
ghost use Rattle.std.specs.Prelude.{◌≡◌, IfOk};
ghost use Rattle.program.specs.Clearing.{fresh as empty_main};
ghost use Rattle.clearing.specs.Cleared.{Holds, Cleared};

use crate::blank::{blank_tables, reset_tables};
use crate::laid::cleared_tables;
use crate::programs::Program;
use numbers::kind::NumberKind;
use reader::fault::Error;
use std::alloc::{AllocError, Global};

impl<K: NumberKind + Drop> Program<K> {
    // The program `main { }`.
    pub fn fresh(heap: Global, kind: K) -> Result<Program<K>, AllocError>
        ensures { IfOk result (λ p. Holds p empty_main × (p.kind ≡ kind)) }
    {
        let tables = blank_tables(heap)?;
        Ok(Program {
            kind,
            tables,
            statements: 0,
        })
    }
}

impl<K: NumberKind> Program<K> {
    // Fills the program from a text: the stages in turn over the whole text. A refusal, or want of memory, leaves
    // `main { }`.
    pub fn clear(&mut self, heap: Global, text: &[u8]) -> Result<(), Error>
        ensures { Cleared K.NumberKind.meaning self.old text.now result self.new }
    {
        reset_tables(&mut self.tables);
        self.statements = 0;
        let (tables, statements) = cleared_tables(heap, &self.kind, text)?;
        self.tables = tables;
        self.statements = statements;
        Ok(())
    }
}
