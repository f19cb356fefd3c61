//! Rows that several pages hold.

ghost use Rattle.std.specs.Prelude.{◌≡◌, IfOk};

use db_records::Record;
use std::alloc::{AllocError, Global};
use std::marker::Model;
use std::sync::Arc;

/// A row that the pages of several versions and of both orders hold. It never changes.
#[derive(Drop)]
pub(crate) struct SharedRow {
    row: Arc<Record, Global>,
}

impl Model for SharedRow {
    ghost use Rattle.std.specs.Arc.{arc_value};
    ghost use Rattle.db_records.specs.declared.record.Record.{Record};

    ghost Value = { Record };

    ghost view = { λ a. arc_value a.row };
}

impl SharedRow {
    /// A row, of which this is the first share. The one error is want of memory.
    pub(crate) fn new(alloc: Global, row: Record) -> Result<SharedRow, AllocError>
        ensures { IfOk result (λ shared. shared ≡ row) }
    {
        Ok(SharedRow {
            row: Arc::new(alloc, row)?,
        })
    }

    /// The same row, shared. The one error is that there are too many shares.
    pub(crate) fn share(&self) -> Result<SharedRow, AllocError>
        ensures { IfOk result (λ shared. shared ≡ self.now) }
    {
        Ok(SharedRow {
            row: Arc::try_clone(&self.row)?,
        })
    }

    /// The row.
    pub(crate) fn row(&self) -> &Record
        ensures { result.now ≡ self.now }
    {
        &self.row
    }
}
