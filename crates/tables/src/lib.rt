// The unfolded program as tables: its statements, places, cells, and what each place got.
#![tactic(auto)]

pub mod expr;
pub mod moves;
pub mod rows;
pub mod stmt;
pub mod tables;
