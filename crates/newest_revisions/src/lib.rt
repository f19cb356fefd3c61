//! The newest revisions of files, by the rows that the walk passed which found the files.
//!
//! Where an argument asks for no revision, [`SeenRows`] finds its files and keeps the rows of their newest revisions,
//! and gives them file by file; a file whose row wasn't seen is searched.
#![tactic(auto)]

mod newest;
mod seen;

pub use newest::{Revision, asks_for_none, is_live};
pub use seen::SeenRows;
