// The cleared program: what the last stages of clearing leave, and what is true of it.
#![tactic(auto)]

pub mod theorems;
