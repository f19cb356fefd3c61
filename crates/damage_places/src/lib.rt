//! Damaged files are damaged at one place.
#![tactic(auto)]

mod laws;

pub use laws::damaged_files_have_one_place;
