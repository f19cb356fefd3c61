//! What commands share that open files: refusals of a file, the row of an opening, the type of a revision, copies of
//! names and paths.
//!
//! The one error of each call is want of memory.
#![tactic(auto)]

mod copies;
mod opening_rows;
mod refusing;
mod revision_types;

pub use copies::{own_name, own_path};
pub use opening_rows::{action_word, opening_row};
pub use refusing::{exclusive_refusal, right_refusal, unseen_row};
pub use revision_types::type_of;
