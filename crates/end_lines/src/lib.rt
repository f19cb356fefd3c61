//! How a run of the program ends in which no party was run, and the line that tells it.
#![tactic(auto)]

mod cause;
mod telling;

pub use cause::{Cause, cause_of_fault, status_code};
pub use telling::{give_cause, give_generation, give_pieces};
