//! The tables of a depot, each behind a lock of its own, and the order of the places that changed
//! them, behind a lock too.
//!
//! The order is that of `order_words`: it exists in contracts alone. What lies behind the lock of
//! a table is a version of the table, with the seat of the table's lane: the version is the table
//! after the list of places of that seat ([`LockedTable`]). Behind the lock of the archive lies the
//! seat of its lane, with how much of the archive is used ([`LockedArchive`]). Behind the lock of
//! the journal lies the seat of its lane ([`LockedJournal`]). Behind the lock of the order lies the
//! seat of the order, which has the list of all places ([`PlacedOrder`]). A party has a seat too,
//! whose list has each of the party's own places ([`PartyPass`]).
//!
//! How a command goes through them:
//!
//! - It takes the locks of the tables that it writes ([`HeldTable`]) in rising order, and looks at
//!   the others of its set under the lock of the order ([`Peek`]).
//! - Under the lock of the order each held table turns out to be as it is after all places, and so
//!   does each table that was looked at, where its lane's word is no later than the places that
//!   there were.
//! - A command that changes something holds the lock of the journal from then on. Each place that
//!   touches the journal's lane is put into the order under that lock, so that in between come only
//!   places that change nothing.
//! - Its place is then put at the end of the order, and the versions that were prepared take the
//!   place of those that the place changes. There is room for it: each party may have so many
//!   places, and the order was made with room for all.
#![tactic(auto)]

mod held_lanes;
mod held_table;
mod locked_archive;
mod locked_journal;
mod locked_table;
mod naming;
mod party_pass;
mod peek;
mod placed_order;
mod placing;
mod table_locks;
mod taken;
mod words;

pub use held_lanes::{ArchiveLane, JournalLane, NoLane};
pub use held_table::HeldTable;
pub use locked_archive::LockedArchive;
pub use locked_journal::LockedJournal;
pub use locked_table::LockedTable;
pub use naming::Naming;
pub use party_pass::PartyPass;
pub use peek::Peek;
pub use placed_order::PlacedOrder;
pub use table_locks::TableLocks;
pub use taken::Taken;
pub use words::OrderWords;
