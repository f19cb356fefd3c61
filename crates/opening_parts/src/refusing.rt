//! What the commands that open files refuse alike.

ghost use Rattle.std.specs.Prelude.{◌≡◌, List, IfOk, option_map};
ghost use Rattle.depot_rows.specs.depot_path.Path.{printed};
ghost use Rattle.depot_rows.specs.db_records.declared.table.TableId.TheVariants as table_ids;
ghost use Rattle.depot_rows.specs.table_changes.Changed.{rows_of};
ghost use Rattle.depot_rows.specs.depot_model.declared.refusal.Refusal.TheVariants as refusals;
ghost use Rattle.depot_rows.specs.depot_model.declared.request.Caller.{Caller as AnyCaller};
ghost use Rattle.depot_rows.specs.depot_model.Deeds.{Deed};
ghost use Rattle.depot_rows.specs.depot_model.Refusals.{refusal_row};
ghost use Rattle.depot_rows.specs.depot_model.Rules.{IsSound};
ghost use Rattle.depot_rows.specs.depot_model.Steps.Opening as model;
ghost use Rattle.depot_rows.specs.Standing.{HasRows};
ghost use Rattle.named_files.specs.Asked.{IsAsker};

use depot_rows::model::Row;
use depot_rows::paths::{DepotPath, Name, Text};
use depot_rows::protections::Level;
use depot_rows::tables::Tables;
use file_openings::barred_by;
use named_files::Asker;
use reply_rows::{denied_row, exclusive_open_row, not_in_view_row};
use std::alloc::{AllocError, Global};

/// The row that refuses a file at which the asker lacks a right. The one error, here and below, is want of memory.
pub fn right_refusal(
    alloc: Global,
    asker: &Asker,
    path: &DepotPath,
    need: Level,
) -> Result<Option<Row>, AllocError>
    ensures { IfOk result (λ row. (d : List Deed) (caller : AnyCaller) → IsAsker d caller asker.now →
        row ≡ option_map refusal_row (model.right_refusal need.0 d caller path.now)) }
{
    if asker.may(path, need) {
        return Ok(None);
    }
    let row = denied_row(alloc, path, need)?;
    Ok(Some(row))
}

/// The row that refuses a file that the client's view doesn't show.
pub fn unseen_row(alloc: Global, path: &DepotPath) -> Result<Row, AllocError>
    ensures { IfOk result (λ row. row ≡ refusal_row (refusals.NotInView (printed path.now))) }
{
    let text = path.print(alloc)?;
    let row = not_in_view_row(alloc, text.as_bytes())?;
    Ok(row)
}

/// The row that refuses a file that another client has opened, where the type of its opening or the new one is
/// exclusive (Command-Line Reference, "File types"), from the table of opened files alone.
pub fn exclusive_refusal(
    alloc: Global,
    tables: &Tables,
    path: &DepotPath,
    client: &Name,
    file_type: &Text,
) -> Result<Option<Row>, AllocError>
    ensures { IfOk result (λ row. (d : List Deed) → IsSound d → HasRows (rows_of tables.now) d table_ids.Working →
        row ≡ option_map refusal_row (model.exclusive_refusal d path.now client.now file_type.now)) }
{
    let other = barred_by(alloc, tables, path, client, file_type)?;
    match other {
        Some(other) => {
            let row = exclusive_open_row(alloc, path, &other)?;
            Ok(Some(row))
        }
        None => Ok(None),
    }
}
