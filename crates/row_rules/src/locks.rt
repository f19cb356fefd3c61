//! Locks of paths.

ghost use Rattle.std.specs.Prelude.{◌≡◌, IfOk, None};
ghost use Rattle.depot_rows.specs.db_records.declared.table.TableId.TheVariants as table_ids;
ghost use Rattle.depot_rows.specs.table_store.Tables.{version_of};
ghost use Rattle.row_rules.specs.Tests.{is_lock as lock_test, path_in, is_again as again_test, locked_last as last_of, are_apart};

use depot_rows::paths::Text;
use depot_rows::records::{Record, TableId};
use depot_rows::tables::Tables;
use std::alloc::{AllocError, Global};

/// Whether a row locks its path.
fn is_lock(row: &Record) -> bool
    ensures { result ≡ lock_test row.now }
{
    match row {
        Record::Working(row) => row.lock == 1,
        _ => false,
    }
}

/// The path of an opened file's row.
fn path_of(alloc: Global, row: &Record) -> Result<Text, AllocError>
    ensures { IfOk result (λ path. path ≡ path_in row.now) }
{
    match row {
        Record::Working(row) => row.path.clone(),
        _ => Ok(Text::new(alloc)),
    }
}

/// Whether a row locks the path that was locked last.
fn is_again(last: &Option<Text>, row: &Record) -> bool
    ensures { result ≡ again_test last.now row.now }
{
    match (last, row) {
        (Some(path), Record::Working(row)) => {
            row.lock == 1 && row.path.as_bytes() == path.as_bytes()
        }
        _ => false,
    }
}

/// The path that is locked last, after a row.
fn locked_last(alloc: Global, last: Option<Text>, row: &Record) -> Result<Option<Text>, AllocError>
    ensures { IfOk result (λ path. path ≡ last_of last row.now) }
{
    if is_lock(row) {
        let path = path_of(alloc, row)?;
        Ok(Some(path))
    } else {
        Ok(last)
    }
}

/// Whether no row of an opened file locks the path that was locked last before it.
pub(crate) fn locks_are_apart(alloc: Global, tables: &Tables) -> Result<bool, AllocError>
    ensures { IfOk result (λ apart. apart ≡ are_apart None (version_of tables.now table_ids.Working).rows) }
{
    let mut last = None;
    for row in tables.version(TableId::Working).rows() {
        if is_again(&last, row) {
            return Ok(false);
        }
        last = locked_last(alloc, last, row)?;
    }
    Ok(true)
}
