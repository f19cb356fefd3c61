//! The words with which the program is called: `[--seed N] [--count N] MODE NAME..`.
//!
//! [`mode_of`] tells the mode that they ask: `clap` reads them, and what it can't say is tested behind it. [`usage`]
//! explains them.
#![tactic(auto)]

mod command;
mod mode;
mod names;
mod number;

pub use command::usage;
pub use mode::{Mode, mode_of, served_names};
