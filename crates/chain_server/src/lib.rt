//! The depot server with a second site: a node, with files of its own, that follows a depot.
//!
//! [`whole_top`] is all that the program does over a depot and a node that follows it: with the first word `follow` the
//! node follows, with the first word `node` the words behind it are run over the node's files, which so take the
//! depot's place, and all other words are run over the depot's. [`task_of`] tells which of the three.
#![tactic(auto)]

mod whole;

pub use depot_follow::{ChainCause, ChainEnded, chain_top};
pub use p4_server::{Cause, Ended, PartyCause, PartyEnd};
pub use replica_chain::Pair;
pub use whole::{Task, WholeEnded, task_of, whole_top};
