//! The model of a depot: what has happened to it, what a command does to it and answers, and what the
//! sessions of a run are given.
//!
//! The definitions stand in `specs/`. They name no table, lock, thread or byte of a file. Beside them
//! stand the types of commands, requests and replies, filters, the reading of file types, and laws of the definitions.
#![tactic(auto)]

mod command;
mod contents;
mod file_type;
mod filter;
mod laws;
mod line;
mod lock;
mod order;
mod refusal;
mod reply;
mod request;

pub use command::{Command, FileArgument, Labelling, PatternArgument, Taking};
pub use contents::{Contents, ScriptContents};
pub use file_type::{is_file_type, is_printed_type, printed_type};
pub use filter::{Filter, FilterRule};
pub use laws::{
    counters_keep_depots_sound, empty_depot_is_sound, later_lines_of_others_change_nothing,
    numbers_rise, same_rows_tell_same_counters,
};
pub use line::Line;
pub use lock::LockId;
pub use order::{Answer, Place};
pub use refusal::{Limit, Refusal};
pub use reply::{Field, Reply, Row};
pub use request::{Asked, Caller, Content, Request, Session, WordFault};

// What stands below, for the crates above.
pub use db_records as records;
pub use db_records::paths;
pub use protect_table as protections;
pub use spec_form as forms;
pub use view_map as views;
