//! Rows that keep the rules are those of some depot.
#![tactic(auto)]

mod laws;

pub use laws::rows_that_keep_rules_stand;
