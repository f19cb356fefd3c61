//! What a client has of a file that it is to open.

ghost use Rattle.std.specs.Prelude.{◌≡◌, List, IfOk, unwrap_or};
ghost use Rattle.depot_rows.specs.db_records.declared.table.TableId.TheVariants as table_ids;
ghost use Rattle.depot_rows.specs.table_changes.Changed.{rows_of};
ghost use Rattle.depot_rows.specs.depot_model.Deeds.{Deed};
ghost use Rattle.depot_rows.specs.depot_model.Steps.Editing as model;
ghost use Rattle.depot_rows.specs.Standing.{HasRows};

use depot_rows::model::Caller;
use depot_rows::paths::{DepotPath, Text};
use depot_rows::tables::Tables;
use opening_parts::type_of;
use revision_reads::revision_of;
use row_reads::have_of;
use std::alloc::{AllocError, Global};

/// A copy of a text.
pub(crate) fn own_text(text: &Text) -> Result<Text, AllocError>
    ensures { IfOk result (λ own. own ≡ text.now) }
{
    text.clone()
}

/// The type of the revision of a file that the caller's client has, `text` where it has none (Command-Line Reference,
/// "p4 edit"), from the tables of have lists and revisions alone. The one error is want of memory.
pub fn had_type(
    alloc: Global,
    tables: &Tables,
    caller: &Caller,
    path: &DepotPath,
) -> Result<Text, AllocError>
    ensures { IfOk result (λ file_type. (d : List Deed) → HasRows (rows_of tables.now) d table_ids.Have →
        HasRows (rows_of tables.now) d table_ids.Rev →
        file_type ≡ model.had_type d caller.now path.now) }
{
    let rev = have_of(alloc, tables, &caller.client, path)?;
    let row = revision_of(alloc, tables, path, rev)?;
    let file_type = type_of(alloc, row)?;
    Ok(file_type)
}

/// The type that is asked for, or else that of the revision that the client has.
pub(crate) fn first_type(
    alloc: Global,
    tables: &Tables,
    caller: &Caller,
    path: &DepotPath,
    asked: &Option<Text>,
) -> Result<Text, AllocError>
    ensures { IfOk result (λ file_type. (d : List Deed) → HasRows (rows_of tables.now) d table_ids.Have →
        HasRows (rows_of tables.now) d table_ids.Rev →
        file_type ≡ unwrap_or asked.now (model.had_type d caller.now path.now)) }
{
    match asked {
        Some(asked) => {
            let file_type = own_text(asked)?;
            Ok(file_type)
        }
        None => {
            let file_type = had_type(alloc, tables, caller, path)?;
            Ok(file_type)
        }
    }
}
