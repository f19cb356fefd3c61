//! An outside in memory, which tells everything that it holds, and whose calls fail as it is told.
#![tactic(auto)]

mod call;
mod disk;
mod door;
mod doors;
mod failing;
mod files;
mod image;
mod link;
mod lossy;
mod stream;
mod timing;

pub use disk::MemoryDisk;
pub use door::Door;
pub use doors::MemoryDoors;
pub use link::MemoryLink;
pub use lossy::{Loss, LossyLink};
pub use stream::{MemorySink, MemorySource};
pub use timing::{FixedClock, OpenGate};
