//! What the commands do on files that are shelved in a change, as deeds and rows of replies.
//!
//! Each command answers for all tables. Where those that it reads have the rows of a sound depot, its step is the
//! model's. The one error is want of memory.
#![tactic(auto)]

mod describing;
mod forms;
mod keeping;
mod kept_heads;
mod kept_openings;
mod kept_set;
mod limits;
mod opened_heads;
mod removing;
mod shelf_rows;
mod shelving;
mod unshelving;

pub use describing::describe_shelved;
pub use removing::shelve_delete;
pub use shelving::shelve;
pub use unshelving::unshelve;
