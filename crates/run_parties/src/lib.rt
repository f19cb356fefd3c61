//! What the parties of a run ask and what they are given, whether they take turns on one thread or each has a thread of
//! its own.
#![tactic(auto)]

mod asking;
mod giving;

pub use asking::{all_requests, replica_parties};
pub use giving::give;
