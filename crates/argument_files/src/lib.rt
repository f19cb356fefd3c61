//! Those of given files that an argument of a command names.
#![tactic(auto)]

mod naming;

pub use naming::named;
