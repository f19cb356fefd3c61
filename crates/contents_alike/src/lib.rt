//! Depots whose contents one archive has, over the same rows, have the same contents.
#![tactic(auto)]

mod laws;

pub use laws::depots_of_one_archive_have_the_same_contents;
