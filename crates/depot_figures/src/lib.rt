//! The figures of a depot: how many changes were submitted, how many files are live, and how many bytes of content
//! their revisions have.
#![tactic(auto)]

mod changes;
mod files;

pub use changes::landed_changes;
pub use files::{FileFigures, file_figures};
