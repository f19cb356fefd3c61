//! Checkpoints: the rows of all tables as one text, and the next generation of a journal that begins with it.
//!
//! A checkpoint is one group of its generation's number that puts each row, tables and keys rising.
#![tactic(auto)]

mod fault;
mod printing;
mod writing;

pub use fault::CheckpointFault;
pub use printing::print_generation;
pub use writing::write_generation;
