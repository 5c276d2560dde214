#![tactic(auto)]

pub mod binary;
pub mod decimal;
pub mod digits;
pub mod kind;
pub mod laws;
pub mod literal;
#[cfg(test)]
mod tests;
