//! The two ends of moves.

ghost use Rattle.std.specs.Prelude.{◌≡◌, false, List, IfOk};
ghost use Rattle.std.specs.Option.{option_map_or};
ghost use Rattle.depot_rows.specs.depot_path.Bytes.{same};
ghost use Rattle.depot_rows.specs.db_records.declared.table.TableId.TheVariants as table_ids;
ghost use Rattle.depot_rows.specs.table_changes.Changed.{rows_of};
ghost use Rattle.depot_rows.specs.depot_model.Deeds.{Deed};
ghost use Rattle.depot_rows.specs.depot_model.Rules.{IsSound};
ghost use Rattle.depot_rows.specs.Standing.{HasRows};
ghost use Rattle.opened_files.specs.Partners.{end_named, partner_path};

use depot_rows::paths::{DepotPath, Name};
use depot_rows::tables::Tables;
use file_openings::opening_of;
use opening_reads::path_in;
use std::alloc::{AllocError, Global};

/// The file at the other end of a move, as a client's opening of a file names it.
fn named_end(
    alloc: Global,
    tables: &Tables,
    client: &Name,
    path: &DepotPath,
) -> Result<Option<DepotPath>, AllocError>
    ensures { IfOk result (λ other. (d : List Deed) → IsSound d → HasRows (rows_of tables.now) d table_ids.Working →
        other ≡ end_named d client.now path.now) }
{
    let row = opening_of(alloc, tables, client, path)?;
    match row {
        Some(row) => {
            let other = path_in(alloc, &row.moved)?;
            Ok(other)
        }
        None => Ok(None),
    }
}

/// Whether an end is that file.
pub(crate) fn is_end(end: &Option<DepotPath>, path: &DepotPath) -> bool
    ensures { result ≡ option_map_or (same path.now) end.now false }
{
    match end {
        Some(end) => path.as_bytes() == end.as_bytes(),
        None => false,
    }
}

/// The file at the other end of a move, where the client has it opened and it names the file back (Command-Line
/// Reference, "p4 move"), from the table of opened files alone. The one error is want of memory.
pub fn partner_of(
    alloc: Global,
    tables: &Tables,
    client: &Name,
    path: &DepotPath,
) -> Result<Option<DepotPath>, AllocError>
    ensures { IfOk result (λ other. (d : List Deed) → IsSound d → HasRows (rows_of tables.now) d table_ids.Working →
        other ≡ partner_path d client.now path.now) }
{
    let other = named_end(alloc, tables, client, path)?;
    match other {
        Some(other) => {
            let back = named_end(alloc, tables, client, &other)?;
            if is_end(&back, path) {
                Ok(Some(other))
            } else {
                Ok(None)
            }
        }
        None => Ok(None),
    }
}
