// The rules of moves and what follows from them. The definitions are in specs/; a function here has no work to do:
// its contract names theorems, so that the check asks for their proofs. The enums are what boards answer.
#![tactic(auto)]

pub mod answers;
pub mod cases;
pub mod confluence;
pub mod decisions;
pub mod denials;
pub mod effects;
pub mod grants;
pub mod listings;
pub mod safety;
