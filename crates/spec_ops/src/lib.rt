//! What the commands do that show and save counters, clients, labels, groups and the protections, as deeds and rows of
//! replies.
//!
//! Each command answers for all tables. Where those that it reads have the rows of a sound depot, its step is the
//! model's. The one error is want of memory.
#![tactic(auto)]

mod checkpoints;
mod clients;
mod counters;
mod groups;
mod labels;
mod protections;
mod saving;

pub use checkpoints::checkpoint;
pub use clients::{client_save, client_show};
pub use counters::{counter_delete, counter_list, counter_set, counter_show};
pub use groups::{group_save, group_show};
pub use labels::{label_list, label_save, label_show};
pub use protections::{protect_save, protect_show};
