//! What the commands do that work on opened files, as deeds and rows of replies.
#![tactic(auto)]

mod adding;
mod editing;
mod had;
mod locking;
mod moving;
mod partners;
mod reopening;
mod reverting;
mod showing;

pub use adding::add;
pub use editing::{delete, edit};
pub use had::had_type;
pub use locking::{lock, unlock};
pub use moving::move_files;
pub use partners::partner_of;
pub use reopening::reopen;
pub use reverting::revert;
pub use showing::opened;
