//! Runs of commits over one journal, some of which a fault of the disk may cut short.
#![tactic(auto)]

mod landing;
mod runs;

pub use landing::Landing;
pub use runs::{commit_all, commit_changes, commit_settled};
