//! Groups of records, as a journal keeps them: each behind a mark, with its number and its length.
//!
//! A group is `@nx@ NUMBER LENGTH`, a line feed, and records of LENGTH bytes. In a journal a mark of five
//! bytes stands before each group, `@ex@` and a line feed; the first mark with another second byte ends the
//! committed text. A checkpoint is one group.
#![tactic(auto)]

mod body;
mod fault;
mod group;
mod laws;
mod mark;
mod moved;
mod reader;

pub use fault::GroupFault;
pub use group::{print_group, read_group};
pub use laws::{faults_have_their_cause, groups_have_one_text};
pub use moved::Moved;
pub use reader::GroupReader;
