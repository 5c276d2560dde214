// The last step of clearing: the unfolded text is laid out as the tables that a board reads.
#![tactic(auto)]

mod cells;
mod entries;
mod exprs;
mod given;
mod pars;
mod points;
pub mod sizes;
mod stmts;
mod tries;
mod walk;
pub mod whole;
