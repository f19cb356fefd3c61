//! Where the contents of opened files come from: from revisions, or from the blocks that a session gives.
//!
//! Each call answers for all tables, and reads that of revisions alone, by one look-up for each revision. Where it has
//! the rows of a sound depot, the call answers what the model says of that depot. The one error is want of memory.
#![tactic(auto)]

mod content;
mod contents;
mod given;

pub use content::{Found, content_of, is_live_action, lacks_content};
pub use contents::rows_tell_contents;
pub use given::block_given;
