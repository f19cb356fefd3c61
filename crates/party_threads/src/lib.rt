//! The run of all parties over a depot in files, sessions and replicas, each on a thread of its own.
//!
//! - Each session's thread has its commands taken by the depot that all share, and gives its sink the replies. Of the
//!   order of all commands it knows what its pass tells: all that its own places stand behind.
//! - Each replica's thread has its commands answered by that depot, a `print` under the lock of the archive, a `pull`
//!   under that of the journal and the others under that of the order, and makes a mark where it was told that a disk
//!   failed. What it was answered, it was over a depot that had run the places of a beginning of the order.
//! - Once all threads have ended, each pass begins one order, which the depot in files has run; so what each thread
//!   knows of its own replies is true of that order.
#![tactic(auto)]

mod party;
mod replicas;
mod run;
mod session;
mod threads;
mod words;

pub use run::{ThreadsRun, run_on_threads};
