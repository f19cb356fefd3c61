//! Submitting a change (Command-Line Reference, "p4 submit").
//!
//! The files of a change land together, or none does. Each look-up is of a row of a file that is submitted; the
//! client's opened files are found by a walk over the client's openings, and the jobs that the change fixes by one over
//! the fixes by the change.
#![tactic(auto)]

mod credits;
mod entries;
mod fixes;
mod landing;
mod numbers;
mod openings;
mod refusals;
mod submitting;

pub use credits::credits_of;
pub use submitting::{submit_change, submit_default};
