//! The run of the sessions and replicas of all parties by turns over a depot in files: whose turn it is a seed draws,
//! and each party's replies go to its own sink.
#![tactic(auto)]

mod answers;
mod beginning;
mod commits;
mod replicas;
mod run;
mod turns;

pub use run::{Ran, Unrun, run_sessions};
