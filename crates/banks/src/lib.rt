#![tactic(auto)]

pub mod bank;
pub mod counter;
pub mod laws;
pub mod tape;
#[cfg(test)]
mod tests;
