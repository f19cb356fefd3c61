//! A depot in files that takes commands one after another, and that replicas may follow.
#![tactic(auto)]

mod following;
mod taking;

pub use following::Following;
pub use taking::FollowedDepot;
