//! What the steps of requests leave as it was.
#![tactic(auto)]

mod laws;

pub use laws::steps_keep_the_generation;
