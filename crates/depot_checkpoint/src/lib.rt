//! The checkpoint of a depot whose files are open, as the server takes it by itself: no rights are asked.
//!
//! What it changes in the rows is what the command `admin checkpoint` changes: the counter that tells the generation.
#![tactic(auto)]

mod fault;
mod taking;
mod values;

pub use fault::TakingFault;
pub use taking::take_checkpoint;
