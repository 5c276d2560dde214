// The calls that people make on a board.
#![tactic(auto)]

pub mod looks;
pub mod powered;
