//! A node, with files of its own, that follows a depot.
//!
//! [`chain_top`] lets a node follow a depot to its end: it copies what the node lacks, checks each content, and tells
//! how far the node is.
#![tactic(auto)]

mod ended;
mod following;
mod laws;
mod opening;
mod rows;
mod telling;
mod top;

pub use ended::{ChainCause, ChainEnded};
pub use laws::{copies_have_its_depots, new_nodes_begin_alike};
pub use top::chain_top;
