//! The step of every request leaves a sound depot sound.
#![tactic(auto)]

mod laws;
mod types;

pub use laws::requests_keep_depots_sound;
pub use types::requests_are_typed;
