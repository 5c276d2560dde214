// The fourth and fifth stages of clearing: the text is unfolded, and what its branches share is checked.
#![tactic(auto)]

mod after;
mod counts;
mod exprs;
mod gets;
mod heads;
mod limits;
pub mod nodes;
mod passing;
mod procs;
mod scopes;
pub mod unfolding;
mod uses;
