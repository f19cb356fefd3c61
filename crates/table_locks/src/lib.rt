//! How a command goes through the locks of a depot's tables.
//!
//! - It takes the locks of the tables that it writes, in the order of `TableId` ([`gather`]); in its
//!   last attempt it takes the lock of each table of its set.
//! - Under the lock of the order it looks at the other tables of its set, as they are after all
//!   places. What it has then is a version of each table of its set ([`Gathered`]), over which it
//!   is evaluated.
//! - When it holds the lock of the order again, it confirms what it gathered: where no table that
//!   it looked at was changed since, its versions are those after all places. Otherwise it gives
//!   all back and tries again; its last attempt nothing can overtake.
//! - With the next version of each table that it changes it is then given its place.
#![tactic(auto)]

mod confirmed;
mod confirming;
mod gathered;
mod gathering;
mod looking;
mod preparing;
mod ways;

pub use confirmed::Confirmed;
pub use gathered::Gathered;
pub use gathering::gather;
