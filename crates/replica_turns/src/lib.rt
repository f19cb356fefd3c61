//! A replica among the parties of a run: it follows the run's own journal, and answers from its own rows.
#![tactic(auto)]

mod answers;
mod laws;
mod party;
mod position;
mod pulling;
mod replying;

pub use laws::{
    depots_grow_by_their_changes, depots_leave_what_was_written, pulls_move,
    replicas_reply_for_their_last_pull,
};
pub use party::{Answered, ReplicaParty};
pub use replying::{is_print, is_pull};
