// The second stage of clearing: tokens become a tree.
#![tactic(auto)]

mod expressions;
mod parser;
pub mod programs;
mod simples;
mod statements;
#[cfg(test)]
mod tests;
pub mod theorems;
pub mod tree;
