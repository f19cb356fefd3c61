//! What the rows of opened files tell: the opening of a row, as the deed that opened the file has it, the openings of a
//! client in a change, what a client has opened within a command, and the resolves of a file.
#![tactic(auto)]

mod files;
mod in_change;
mod owed;
mod own_openings;
mod reading;
mod resolves;

pub use files::held;
pub use in_change::openings_of;
pub use owed::owed_of;
pub use own_openings::{OwnOpenings, is_opened_by, opening_by, own_opening};
pub use reading::{opening_in, path_in, reopened_in, rows_tell_openings};
pub use resolves::{file_resolves, owed_resolves, owes_resolve, rows_tell_resolves};
