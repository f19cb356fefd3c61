//! What a request does to a depot in its tables, and what it is answered.
#![tactic(auto)]

mod about;
mod change_commands;
mod evaluation;
mod history_commands;
mod input;
mod job_commands;
mod laws;
mod opening_commands;
mod outcome;
mod refusing;
mod server_commands;
mod shelf_commands;
mod spec_commands;
mod submit_commands;
mod syncing_commands;

pub use evaluation::evaluate;
pub use laws::{depots_with_the_same_rows_and_contents_answer_alike, steps_keep_depots_sound};
pub use outcome::Outcome;
