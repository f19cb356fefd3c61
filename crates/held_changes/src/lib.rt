//! What holds a change: files that are shelved in it, and jobs that it fixes.
#![tactic(auto)]

mod holding;

pub use holding::{is_fixing, is_shelved};
