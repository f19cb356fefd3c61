//! The changes that fix jobs: their fixes, and what closes a job (Command-Line Reference, "p4 fix").
//!
//! What is read is answered from the table of forms alone, where that has the rows of a sound depot. The one error is
//! want of memory.
#![tactic(auto)]

mod closing;
mod fixes;

pub use closing::{close, digits, fix_name, save, with};
pub use fixes::{fixes_asked, fixes_of, is_on};
