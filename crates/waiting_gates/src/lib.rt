//! Gates that hold commands back, to try an interleaving of threads, and tell whether what they waited for came.
//!
//! A command is named by its party and its number, both from 1. What a gate was told stands in words that all threads
//! share, of which no clause can speak. What is proved is that each call returns: a gate that waits looks so many times
//! at most. What it tells is shown by tests.
#![tactic(auto)]

mod looks;
mod meet;
mod turn;

pub use meet::MeetGate;
pub use turn::TurnGate;
