//! Files of cases of a server, and the answers that are expected of them.
//!
//! `data/README.md` of the program `acceptance` tells what the lines of a file of cases ask and how they are answered.
//! The disks, the scripts and what the parties get stay in memory. Which server runs is left open ([`Server`]).
#![tactic(auto)]

mod answers;
mod cases;
mod comparison;
mod disks;
mod fault;
mod files;
mod gate;
mod server;
mod step;
mod trial;
mod world;

pub use disks::{Disks, Sites};
pub use files::answer_files;
pub use gate::CaseGate;
pub use server::{Ran, Server, Setting};
