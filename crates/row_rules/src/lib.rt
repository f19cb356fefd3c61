//! Whether the rows of tables keep the rules, so that some depot has them.
//!
//! Each call answers for all tables. The one error is want of memory.
#![tactic(auto)]

mod files;
mod fixes;
mod forms;
mod integrations;
mod keeping;
mod laws;
mod locks;
mod lookups;
mod numerals;
mod revisions;
mod rules;
mod shelves;
mod simple;
mod texts;

pub use laws::rows_of_depots_keep_rules;
pub use rules::{generation_of, keep_rules};
