// The first stage of clearing: a text's bytes become tokens.
#![tactic(auto)]

mod classes;
pub mod fault;
pub mod laws;
pub mod reader;
#[cfg(test)]
mod tests;
pub mod token;
