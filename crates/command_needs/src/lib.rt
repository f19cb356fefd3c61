//! The tables that a command reads and writes: its set, told without memory.
#![tactic(auto)]

mod needs;
mod table_set;

pub use needs::{Needs, request_needs, tables_of};
pub use table_set::TableSet;
