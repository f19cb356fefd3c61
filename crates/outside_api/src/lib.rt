//! The outside of the server: what gives it bytes, takes them, keeps them, tells the time and holds commands back.
//!
//! Each trait but [`Clock`] and [`Gate`] has a count of faults that never falls, and a call answers
//! [`Failed`] only where that count has risen in the call. What a source, a sink or a door holds is told
//! by an option: the clauses on content say something where it is told.
#![tactic(auto)]

mod disk;
mod doors;
mod fault;
mod filling;
mod link;
mod stream;
mod through;
mod timing;

pub use disk::Disk;
pub use doors::Doors;
pub use fault::DiskFault;
pub use filling::fill;
pub use link::{Fetched, Link};
pub use stream::{Failed, Sink, Source};
pub use through::write_through;
pub use timing::{Clock, Gate};
