//! The rows of a depot's tables in memory, in versions that never change and share what they have
//! in common.
//!
//! A [`Version`] holds the rows of one table in the order of their keys. A change makes a new
//! version and leaves the old one as it is, so that who reads a version goes on reading it while
//! the next one is made. The rows of a changelist, its fixes among them, of a client and of a user are found
//! without those of others. [`Tables`] has a version of each table.
#![tactic(auto)]

mod branch;
mod draft;
mod mark_walk;
mod node;
mod page;
mod protections;
mod row_order;
mod search_key;
mod shared_row;
mod table_trees;
mod tables;
mod tree;
mod version;
mod walk;

pub use draft::Draft;
pub use mark_walk::MarkWalk;
pub use protections::line_texts;
pub use tables::Tables;
pub use version::Version;
pub use walk::Walk;

// What stands below, for the crates above.
pub use db_records as records;
pub use db_records::paths;
