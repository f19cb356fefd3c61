//! The opening of a file by a client.

ghost use Rattle.std.specs.Prelude.{◌≡◌, List, IfOk, Ok, option_map};
ghost use Rattle.std.specs.Option.{option_copied};
ghost use Rattle.depot_rows.specs.depot_path.Path.{path_of, printed};
ghost use Rattle.depot_rows.specs.db_records.declared.key.Key.TheVariants as keys;
ghost use Rattle.depot_rows.specs.db_records.declared.table.TableId.TheVariants as table_ids;
ghost use Rattle.depot_rows.specs.table_changes.Changed.{rows_of};
ghost use Rattle.depot_rows.specs.depot_model.Deeds.{Deed};
ghost use Rattle.depot_rows.specs.depot_model.Opened.{opened};
ghost use Rattle.depot_rows.specs.depot_model.Records.{working_record};
ghost use Rattle.depot_rows.specs.Standing.{HasRows};
ghost use Rattle.file_openings.specs.Openings.{working_of};

use depot_rows::paths::{DepotPath, Name, Text};
use depot_rows::records::{Key, Record, TableId, WorkingRecord};
use depot_rows::tables::Tables;
use std::alloc::{AllocError, Global};

/// The key of a client's opening of a file.
fn opening_key(alloc: Global, client: &Name, path: &DepotPath) -> Result<Key, AllocError>
    ensures key { IfOk result (λ key. key ≡ keys.Working (printed path.now) client.now) }
    ensures read_again { path_of (printed path.now) ≡ Ok path.now }
{
    let path = path.print(alloc)?;
    let client = Text::from_bytes(alloc, client.as_bytes())?;
    Ok(Key::Working { path, client })
}

/// The row of an opened file, if it is one.
fn as_working<'a>(row: Option<&'a Record>) -> Option<&'a WorkingRecord>
    ensures { option_copied result ≡ working_of (option_copied row.entry) }
{
    match row {
        Some(Record::Working(row)) => Some(row),
        _ => None,
    }
}

/// The row of a file that a client has opened, None exactly where it hasn't (Command-Line Reference, "p4 opened"), from
/// the table of opened files alone. The one error is want of memory.
pub fn opening_of<'a>(
    alloc: Global,
    tables: &'a Tables,
    client: &Name,
    path: &DepotPath,
) -> Result<Option<&'a WorkingRecord>, AllocError>
    ensures { IfOk result (λ row. (d : List Deed) → HasRows (rows_of tables.now) d table_ids.Working →
        option_map Record.Working (option_copied row) ≡ option_map (working_record d) (opened d client.now path.now)) }
{
    let key = opening_key(alloc, client, path)?;
    let version = tables.version(TableId::Working);
    let row = version.get(&key);
    let opening = as_working(row);
    Ok(opening)
}
