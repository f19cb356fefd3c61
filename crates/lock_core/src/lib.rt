//! The parties of a run, each of which takes turns with its commands: which event each may take next, and what it does.
//!
//! It is the machine of `lock_machine` in memory. A command locks the tables that it writes and looks at those that it
//! only reads; with the journal it judges whether a table that it looked at was changed since, and then takes its whole
//! set in a second attempt. What it saw is then what the tables have, so that its commit is answered from them.
#![tactic(auto)]

mod acting;
mod beginning;
mod commits;
mod drawing;
mod ending;
mod gathering;
mod machine;
mod party;
mod preparing;
mod sharing;
mod stopping;
mod turn;
mod turns;
mod work;

pub use machine::LockCore;
pub use sharing::share_tables;
pub use turn::{Finish, Turn};
