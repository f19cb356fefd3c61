//! Changes of tables.

ghost use Rattle.std.specs.Prelude.{◌≡◌, IfOk};

use crate::record::Record;
use std::alloc::AllocError;

/// What is done with a row.
#[derive(Clone, Copy, PartialEq, Eq)]
pub enum Op {
    /// A row is added. No row has its key.
    Put,
    /// A row takes the place of the one with its key.
    Replace,
    /// A row goes away.
    Remove,
}

/// A change of one row: the new one, or the one that goes away.
#[derive(Clone, PartialEq, Eq)]
pub struct Change {
    pub op: Op,
    pub row: Record,
}

impl Drop for Change {
    fn drop(self) {
        let Change { op: _, row: _ } = self;
    }
}

impl Change {
    /// The same change once more. The one error is want of memory.
    pub fn copy(&self) -> Result<Change, AllocError>
        ensures { IfOk result (λ change. change ≡ self.now) }
    {
        self.clone()
    }

    /// The row, which takes no memory.
    pub fn into_row(self) -> Record
        ensures { result ≡ self.row }
    {
        let Change { op: _, row } = self;
        row
    }
}

/// Where a content stands in the archive.
#[derive(Clone, Copy, PartialEq, Eq)]
pub struct Spot {
    /// The place of its first byte.
    pub at: u64,
    /// How many bytes it has.
    pub length: u64,
}
