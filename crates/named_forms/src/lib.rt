//! The names of saved forms that begin with a text: those of the files that are shelved in a change, those of the fixes
//! of a job; and those of the fixes by a change.
#![tactic(auto)]

mod names;

pub use names::{fix_names, names_with};
