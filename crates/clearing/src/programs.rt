// A program under a number kind: what a text was cleared to, or `main { }`.
use tables::tables::Tables;

// The tables are what a board reads; the count is that of the unfolded statements.
#[derive(Drop)]
pub struct Program<K> {
    kind: K,
    tables: Tables,
    statements: usize,
}

pub mod clear;
pub mod parts;
