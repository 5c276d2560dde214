// The running core of a board: its state, what it permits, and what each move does to it.
#![tactic(auto)]

pub mod eval;
pub mod scan;
pub mod state;
