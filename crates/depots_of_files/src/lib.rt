//! Files whose rows suit them, with their contents, are those that stand for a depot.
#![tactic(auto)]

mod laws;

pub use laws::whole_files_stand_for_depots;
