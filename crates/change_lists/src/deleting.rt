//! `change -d` (Command-Line Reference, "p4 change").

ghost use Rattle.std.specs.Prelude.{◌≡◌, ◌∷◌, [], List, IfOk, nat_lt, length, option_map};
ghost use Rattle.std.specs.Option.{option_copied};
ghost use Rattle.depot_rows.specs.db_records.declared.record.Record.TheVariants as records;
ghost use Rattle.depot_rows.specs.db_records.declared.table.TableId.TheVariants as table_ids;
ghost use Rattle.depot_rows.specs.table_changes.Changed.{rows_of};
ghost use Rattle.depot_rows.specs.depot_model.Deeds.{Deed};
ghost use Rattle.depot_rows.specs.depot_model.Refusals.{refusal_row};
ghost use Rattle.depot_rows.specs.depot_model.Rules.{IsSound};
ghost use Rattle.depot_rows.specs.depot_model.Steps.Changing as model;
ghost use Rattle.depot_rows.specs.Standing.{HasRows};
ghost use Rattle.depot_rows.specs.declared.deed.Deed.TheVariants as dones;
ghost use Rattle.reply_rows.specs.Made.{IsMade, does};
ghost use Rattle.opening_reads.specs.InChange.{opened_in};
ghost use Rattle.change_lists.specs.Deleting.{delete_told, deleted_row as row_of_deleted};

use command_parts::is_own;
use depot_rows::model::{Caller, Row};
use depot_rows::paths::Name;
use depot_rows::records::ChangeRecord;
use depot_rows::tables::Tables;
use opening_reads::openings_of;
use reply_rows::{RowBuilder, Step, no_such_change_row, not_deletable_row, not_yours_row};
use revision_reads::change_of;
use std::alloc::{AllocError, Global};

/// The row of the first refusal of deleting a change, by its row and by whether it has opened files.
fn refusal_of(
    alloc: Global,
    caller: &Caller,
    change: u32,
    row: Option<&ChangeRecord>,
    holds: bool,
) -> Result<Option<Row>, AllocError>
    ensures { IfOk result (λ refused. refused ≡
        option_map refusal_row (delete_told caller.now change holds (option_map records.Change (option_copied row.entry)))) }
{
    match row {
        Some(row) => {
            if !is_own(caller, row) {
                let told = not_yours_row(alloc, change)?;
                return Ok(Some(told));
            }
            if row.status.as_bytes() != b"pending".as_slice() || holds {
                let told = not_deletable_row(alloc, change)?;
                return Ok(Some(told));
            }
            Ok(None)
        }
        None => {
            let told = no_such_change_row(alloc, change)?;
            Ok(Some(told))
        }
    }
}

/// Whether a client has files opened in a change.
fn has_openings(
    alloc: Global,
    tables: &Tables,
    client: &Name,
    change: u32,
) -> Result<bool, AllocError>
    ensures { IfOk result (λ holds. (d : List Deed) → IsSound d → HasRows (rows_of tables.now) d table_ids.Working →
        holds ≡ nat_lt 0 (length (opened_in d client.now change))) }
{
    let openings = openings_of(alloc, tables, client, change)?;
    let holds = 0 < openings.len();
    Ok(holds)
}

/// The step by which a change is pending no more.
fn drop_change(alloc: Global, change: u32) -> Result<Step, AllocError>
    ensures { IfOk result (λ step. step ≡ does (dones.Drop change ∷ []) (row_of_deleted change)) }
{
    let row = RowBuilder::new(alloc).number(b"Change", u64::from(change))?;
    let row = row.text(b"action", b"deleted")?;
    let mut step = Step::tells(alloc, row.row())?;
    step.deeds.drop_change(change)?;
    Ok(step)
}

/// `change -d N`: a pending change of the caller's user and client, without opened files, is deleted, from the tables
/// of changes and opened files alone.
pub fn change_delete(
    alloc: Global,
    tables: &Tables,
    caller: &Caller,
    change: u32,
) -> Result<Step, AllocError>
    ensures { IfOk result (λ step. (d : List Deed) → IsSound d → HasRows (rows_of tables.now) d table_ids.Change →
        HasRows (rows_of tables.now) d table_ids.Working →
        IsMade (rows_of tables.now) d d (model.change_delete d caller.now change) step) }
{
    let found = change_of(tables, change);
    let holds = has_openings(alloc, tables, &caller.client, change)?;
    let refused = refusal_of(alloc, caller, change, found, holds)?;
    match refused {
        Some(row) => {
            let step = Step::tells(alloc, row)?;
            Ok(step)
        }
        None => {
            let step = drop_change(alloc, change)?;
            Ok(step)
        }
    }
}
