// The third stage of clearing: names, arguments, literals and ports.
#![tactic(auto)]

mod checker;
mod exprs;
pub mod laws;
mod literals;
mod stmts;
pub mod visible;
mod whole;

pub use crate::whole::check_names;

#[cfg(test)]
mod tests;
