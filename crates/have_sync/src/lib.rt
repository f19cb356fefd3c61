//! What the commands do that show the have lists of clients and change them, as deeds and rows of replies.
#![tactic(auto)]

mod having;
mod newest;
mod place;
mod placing;
mod rows;
mod syncing;

pub use having::have;
pub use placing::where_is;
pub use syncing::sync;
