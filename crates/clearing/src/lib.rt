// Clearing: a program is filled from a text, stage by stage.
#![tactic(auto)]

mod blank;
mod laid;
pub mod programs;
mod stages;
