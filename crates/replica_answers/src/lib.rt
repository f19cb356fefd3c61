//! What a replica answers, from its own rows.
#![tactic(auto)]

mod answers;
mod printing;
mod refusing;

pub use answers::answer;
pub use printing::{PrintFault, answer_print};
