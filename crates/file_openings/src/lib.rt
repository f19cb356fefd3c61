//! Who has a file opened, from the rows of opened files alone.
//!
//! Each call answers for all tables. Where the table of opened files has the rows of a depot, it answers what the model
//! says of that depot. Its cost follows the openings of the file that it speaks of.
#![tactic(auto)]

mod barring;
mod exclusive;
mod openings;
mod own;

pub use barring::barred_by;
pub use exclusive::is_exclusive;
pub use openings::{openings_of, rows_are_openings};
pub use own::opening_of;
