//! What the commands do on jobs and on the changes that fix them, as deeds and rows of replies.
//!
//! Each command answers for all tables. Where those that it reads have the rows of a sound depot, its step is the
//! model's. The one error is want of memory.
#![tactic(auto)]

mod fixes;
mod fixing;
mod jobs;
mod refusals;
mod saving;

pub use fixes::fix_list;
pub use fixing::{fix, fix_delete};
pub use jobs::{job_list, job_show};
pub use saving::job_save;
