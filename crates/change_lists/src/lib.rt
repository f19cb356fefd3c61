//! What the commands do on changelists, as deeds and rows of replies: `change`.
//!
//! Each command answers for all tables. Where those that it reads have the rows of a sound depot, its step is the
//! model's. The one error is want of memory.
#![tactic(auto)]

mod deleting;
mod describing;
mod files;
mod lines;
mod listing;
mod made;
mod numbers;
mod saving;
mod showing;

pub use deleting::change_delete;
pub use describing::describe;
pub use listing::changes;
pub use saving::change_save;
pub use showing::change_show;
