//! The outside of the server on a real machine: files, folders, standard output and the clock.
//!
//! Each object has a count of faults, which is all that its contracts tell: what a file holds, no
//! contract can say.
#![tactic(auto)]

mod clock;
mod count;
mod disk;
mod doors;
mod folder;
mod interrupts;
mod lines;
mod paths;
mod regular;
mod stream;

pub use clock::SystemClock;
pub use disk::FolderDisk;
pub use doors::{DoorFault, FolderDoors, PartyFile};
pub use lines::line_of;
pub use stream::{FileSink, FileSource};
