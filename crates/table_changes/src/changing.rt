//! All changes at once.

ghost use Rattle.std.specs.Prelude.{◌≡◌, [], IfOk};
ghost use Rattle.table_store.specs.db_records.declared.table.TableId.{TableId};
ghost use Rattle.table_changes.specs.Changed.{AllRows, AllFitIn, changed_by, rows_of};

use crate::draft::TablesDraft;
use std::alloc::{AllocError, Global};
use table_store::Tables;
use table_store::records::Change;

/// No changes leave the rows as they are.
pub fn no_changes_change_nothing()
    ensures { (rows : AllRows) (table : TableId) → changed_by rows [] table ≡ rows table }
{}

/// The tables after changes, each of which fits after those before it. They share with those given
/// what the changes leave alone. The one error is want of memory.
pub fn change_tables(
    alloc: Global,
    tables: &Tables,
    changes: &[Change],
) -> Result<Tables, AllocError>
    requires { AllFitIn (rows_of tables.now) changes.now }
    ensures rows { IfOk result (λ made. rows_of made ≡ changed_by (rows_of tables.now) changes.now) }
    ensures end { IfOk result (λ made. made.archive_end ≡ tables.now.archive_end) }
{
    let mut draft = TablesDraft::of(alloc, tables)?;
    for change in changes {
        draft.change(alloc, change)?;
    }
    let made = draft.finish(alloc)?;
    Ok(made)
}
