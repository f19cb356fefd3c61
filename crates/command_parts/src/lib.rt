//! What commands share that name a change or save a form: the refusal of the change, and the step of a form that can't
//! be read.
//!
//! The one error of each call is want of memory.
#![tactic(auto)]

mod changes;
mod forms;

pub use changes::{change_refusal, is_own, named_change_refusal, reopened_change_refusal};
pub use forms::{named, unread};
