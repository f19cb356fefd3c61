//! What commands read of the revisions of a depot in its tables, each from the rows of the tables that it names and of
//! no others.
//!
//! Each call answers for all tables. Where those that it reads have the rows of a sound depot, it answers what the
//! model says of that depot. Its cost follows the files that it speaks of: no call walks over a table. The one error is
//! want of memory.
#![tactic(auto)]

mod choice;
mod history;
mod holders;
mod moments;
mod probe;
mod range;
mod revisions;
mod search;
mod shown;
mod targets;

pub use choice::{Chosen, chosen_of, is_live_choice, standing_rows_are_those_of_all_tables};
pub use history::{
    change_of, chosen_revision, revisions_have_their_changes, revisions_up_to, stored_choice,
};
pub use holders::holder_of;
pub use range::in_range;
pub use revisions::{head_of, is_live_at, is_live_head, revision_of};
pub use shown::{shown_by, shown_of};
pub use targets::{file_at, first_live, shown_in_view, target_at, target_text};
