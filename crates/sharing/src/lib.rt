// The fifth stage of clearing: what branches of a par share, variables given twice by reference, and throws that no try catches.
#![tactic(auto)]

mod apart;
mod fairness;
mod ports;
mod references;
mod stage;
mod writes;

pub use crate::fairness::passes_exactly;
pub use crate::stage::check_sharing;
