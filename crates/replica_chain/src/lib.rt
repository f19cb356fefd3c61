//! A node of a chain: a copy of a depot, with files of its own, that follows the depot's journal and copies its
//! contents.
//!
//! A [`Node`] cuts nothing and keeps every row. It copies the contents before it commits the group that names them, so
//! that its files always open as those of a depot. Its journal and its archive are ends from which the next node
//! follows in turn ([`NodeLink`], and the archive itself as `Contents`). A node whose work as a follower has ended is a
//! depot as any other.
#![tactic(auto)]

mod apart;
mod contents;
mod counting;
mod fault;
mod feed;
mod laws;
mod link;
mod node;
mod opening;
mod passing;
mod pull;
mod verifying;

pub use apart::Departure;
pub use fault::NodeFault;
pub use laws::{
    nodes_behind_nodes, nodes_have_their_depots, nodes_open_at_every_moment,
    nodes_open_to_prefixes, nodes_opened_are_behind, nodes_stay_while_followed,
    nodes_tell_their_changes, nodes_that_have_all,
};
pub use link::NodeLink;
pub use node::{Node, Pair};
pub use opening::NotNode;
