//! What deeds change in the rows of a depot's tables.
//!
//! A command says what happens by its deeds. The engine keeps the rows that they touch over those of
//! the tables, and at the end says what differs, as changes that a commit writes.
#![tactic(auto)]

mod deeds;
mod difference;
mod engine;
mod landing;
mod lines;
mod overlay;
mod ranges;
mod rows;
mod stored;
mod words;

pub use engine::row_changes;
