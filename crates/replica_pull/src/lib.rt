//! A replica of a depot, which follows the journal of its master and has the files inside a filter alone.
#![tactic(auto)]

mod cut;
mod fault;
mod feed;
mod laws;
mod pull;
mod replica;

pub use cut::{cut_change, is_left};
pub use fault::PullFault;
pub use feed::{Taken, place_before, take_feed};
pub use laws::{
    cut_changes_make_cut_rows, journals_are_good_feeds, replicas_have_a_prefix,
    replicas_keep_cut_rows, replicas_stand_for_cut_depots, replicas_take_whole_groups,
};
pub use pull::{begin_generation, joined, last_bytes};
pub use replica::Replica;
