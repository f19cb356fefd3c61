//! The change that a command names.

ghost use Rattle.std.specs.Prelude.{◌≡◌, ◌&&◌, List, IfOk, option_map};
ghost use Rattle.std.specs.Option.{option_copied};
ghost use Rattle.depot_rows.specs.depot_path.Bytes.{same};
ghost use Rattle.depot_rows.specs.db_records.declared.table.TableId.TheVariants as table_ids;
ghost use Rattle.depot_rows.specs.table_changes.Changed.{rows_of};
ghost use Rattle.depot_rows.specs.depot_model.Deeds.{Deed};
ghost use Rattle.depot_rows.specs.depot_model.Refusals.{refusal_row};
ghost use Rattle.depot_rows.specs.depot_model.Steps.Opening as model;
ghost use Rattle.depot_rows.specs.Standing.{HasRows};
ghost use Rattle.command_parts.specs.Changes.{change_told};

use depot_rows::model::{Caller, Row};
use depot_rows::records::{ChangeRecord, Record};
use depot_rows::tables::Tables;
use reply_rows::{no_such_change_row, not_yours_row};
use revision_reads::change_of;
use std::alloc::{AllocError, Global};

/// Whether a row is of a change of the caller's user and client. It takes no memory.
pub fn is_own(caller: &Caller, row: &ChangeRecord) -> bool
    ensures { result ≡ (same row.now.user caller.now.user && same row.now.client caller.now.client) }
{
    row.user.as_bytes() == caller.user.as_bytes()
        && row.client.as_bytes() == caller.client.as_bytes()
}

/// The refusal of a change, by its row.
fn refusal_of(
    alloc: Global,
    caller: &Caller,
    change: u32,
    row: Option<&ChangeRecord>,
) -> Result<Option<Row>, AllocError>
    ensures { IfOk result (λ told. told ≡
        option_map refusal_row (change_told caller.now change (option_map Record.Change (option_copied row.entry)))) }
{
    match row {
        Some(row) => {
            if row.status.as_bytes() != b"pending".as_slice() {
                let told = no_such_change_row(alloc, change)?;
                return Ok(Some(told));
            }
            if is_own(caller, row) {
                return Ok(None);
            }
            let told = not_yours_row(alloc, change)?;
            Ok(Some(told))
        }
        None => {
            let told = no_such_change_row(alloc, change)?;
            Ok(Some(told))
        }
    }
}

/// The row that refuses a change that isn't pending, or not of the caller's user and client, from the table of changes
/// alone. The one error is want of memory.
pub fn change_refusal(
    alloc: Global,
    tables: &Tables,
    caller: &Caller,
    change: u32,
) -> Result<Option<Row>, AllocError>
    ensures { IfOk result (λ row. (d : List Deed) → HasRows (rows_of tables.now) d table_ids.Change →
        row ≡ option_map refusal_row (model.change_refusal d caller.now change)) }
{
    let found = change_of(tables, change);
    let row = refusal_of(alloc, caller, change, found)?;
    Ok(row)
}

/// The same for a change that may be absent or 0, the default one (Command-Line Reference, "p4 reopen").
pub fn reopened_change_refusal(
    alloc: Global,
    tables: &Tables,
    caller: &Caller,
    change: Option<u32>,
) -> Result<Option<Row>, AllocError>
    ensures { IfOk result (λ row. (d : List Deed) → HasRows (rows_of tables.now) d table_ids.Change →
        row ≡ option_map refusal_row (model.reopened_change_refusal d caller.now change)) }
{
    match change {
        Some(change) => {
            if change == 0 {
                return Ok(None);
            }
            let row = change_refusal(alloc, tables, caller, change)?;
            Ok(row)
        }
        None => Ok(None),
    }
}

/// The same for a change that may be absent (Command-Line Reference, "p4 edit", option -c).
pub fn named_change_refusal(
    alloc: Global,
    tables: &Tables,
    caller: &Caller,
    change: Option<u32>,
) -> Result<Option<Row>, AllocError>
    ensures { IfOk result (λ row. (d : List Deed) → HasRows (rows_of tables.now) d table_ids.Change →
        row ≡ option_map refusal_row (model.named_change_refusal d caller.now change)) }
{
    match change {
        Some(change) => {
            let row = change_refusal(alloc, tables, caller, change)?;
            Ok(row)
        }
        None => Ok(None),
    }
}
