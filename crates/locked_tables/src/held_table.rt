//! The guard of a table's lock, with the version that a command is to leave.

use crate::locked_table::LockedTable;
use crate::naming::Naming;
use std::sync::MutexGuard;
use table_changes::tables::Version;

/// A table whose lock is taken. A command that changes the table prepares the next version before
/// it is given its place.
#[derive(Drop)]
pub struct HeldTable<'a, N: Naming> {
    pub guard: MutexGuard<'a, LockedTable<N>>,
    pub next: Option<Version>,
}
