//! The session of a load, over who takes its commands.
#![tactic(auto)]

mod laws;
mod run;
mod streams;

pub use laws::load_scripts_are_whole;
pub use run::{LoadRun, run_load};
