//! What commands read of a depot in its tables, each from the rows of the tables that it names and of no others.
//!
//! Each call answers for all tables. Where those that it reads have the rows of a sound depot, it answers what the
//! model says of that depot. The one error is want of memory.
#![tactic(auto)]

mod callers;
mod counters;
mod files;
mod forms;
mod groups;
mod laws;
mod numbers;
mod protections;
mod saved;
mod syntax;
mod views;

pub use callers::who_of;
pub use counters::counters_of;
pub use files::{have_of, label_of, opened_of};
pub use forms::{form_names, form_value, is_locked_form, is_locked_label, saved_form};
pub use groups::users_of;
pub use laws::depots_with_the_same_rows_give_the_same_rights;
pub use numbers::top_change;
pub use protections::{protection_lines, protects_of};
pub use saved::{is_client, is_label};
pub use syntax::in_client_syntax;
pub use views::view_of;
