//! Contents of revisions stand in the archive after each command: at the spots that were there, or among those that the
//! command stores.
#![tactic(auto)]

mod laws;

pub use laws::contents_stand_after_steps;
