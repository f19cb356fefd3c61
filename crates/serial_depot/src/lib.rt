//! A depot in files that one thread asks.
//!
//! It keeps the rows of the tables in memory, reads the contents that a reply has from the archive where
//! they aren't given, and before it answers stores the contents of a command there and commits what it
//! changes to the journal.
#![tactic(auto)]

mod depot;
mod fetching;
mod taking;

pub use depot::{Closed, SerialDepot};
