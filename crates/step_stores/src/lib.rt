//! What steps store: the contents of a submitted change, each at its place in the archive.
#![tactic(auto)]

mod laws;

pub use laws::steps_without_a_submit_store_nothing;
