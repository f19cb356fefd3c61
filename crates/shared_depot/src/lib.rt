//! A depot in files that many threads ask at once.
//!
//! Each table lies behind a lock of its own, and so do the archive and the journal. Behind one lock more
//! lie the order of all places and the tables after them ([`SharedDepot`]). Locks are taken in rising order:
//! those of the tables, that of the archive, that of the journal, and that of the order, under which no
//! device is called. How a thread has a session's command taken:
//!
//! - It takes the locks of the tables that the command writes, and that of the archive if the command may
//!   store contents. It looks at the other tables of the command's set under the lock of the order, and
//!   finds over all these what the command does. No other thread waits for that but those that write a table
//!   that the command writes, or want the archive.
//! - It passes the gate. If the reply waits for contents, it takes the lock of the archive, and reads
//!   them. Where one can't be read, it takes the lock of the order too, and the command has the next place,
//!   that of a fault. Else it prints the reply. A command that neither stores nor reads doesn't touch the
//!   archive.
//! - If the command writes nothing, it takes the lock of the order, and the command has the next place.
//! - Else it takes the lock of the journal, and under it that of the order for a moment. Then what is in
//!   doubt is settled, what the command stores is stored, and what it changes is committed. It takes the
//!   lock of the order once more, and the command has the next place. Between the two only commands have
//!   their places that write nothing, which is what the journal's lane says.
//! - Where a table that it only looked at was changed since, it gives all locks back. A command that only
//!   reads then looks again, without the gate, three times at most. Else, and after these, the command holds
//!   its whole set in a last attempt, which nothing overtakes.
//!
//! A replica's `pull` fetches of the journal under its lock, so that it follows the journal between two
//! commits, and its `print` reads the archive under that of the archive; its other commands are answered
//! from its own rows. Its commands have no place. Where the answer tells that a disk failed, the party makes
//! a mark under the same lock.
//!
//! Once all threads have ended, the depot is opened ([`OpenedDepot`]), each party's passes are heard,
//! and the depot in files and the order are given back ([`Closed`]).
#![tactic(auto)]

mod answering;
mod attempts;
mod both_marks;
mod closing;
mod commits;
mod common;
mod laws;
mod link;
mod making;
mod of_archive;
mod quiet;
mod reading;
mod serving;
mod settling;
mod shared;
mod stored_archive;
mod unplaced;
mod writing;
mod written_journal;

pub use both_marks::BothMarks;
pub use closing::{Closed, OpenedDepot};
pub use laws::depots_are_followed;
pub use link::DepotLink;
pub use making::Shared;
pub use serving::Serving;
pub use shared::SharedDepot;
