//! What commands lock.

use db_records::TableId;

/// What a command may lock. A command goes through its set in this order: the tables, as `TableId` has them, then the
/// archive, then the journal.
#[derive(Clone, Copy)]
pub enum LockId {
    /// A table.
    Table(TableId),
    /// The archive of contents.
    Archive,
    /// The journal.
    Journal,
}
