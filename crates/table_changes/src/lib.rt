//! Changes of all tables, one after another.
//!
//! A [`TablesDraft`] is for who tests and makes many changes of many tables; [`change_tables`] makes
//! changes that are known to fit. The tables from which they begin stay as they are.
#![tactic(auto)]

mod changing;
mod draft;

pub use changing::{change_tables, no_changes_change_nothing};
pub use draft::TablesDraft;

// What stands below, for the crates above.
pub use table_store as tables;
