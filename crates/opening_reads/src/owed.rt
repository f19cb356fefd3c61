//! Resolves that clients owe, as rows have them.

ghost use Rattle.std.specs.Prelude.{◌≡◌, List, IfOk, Ok, option_map};
ghost use Rattle.std.specs.Option.{option_copied};
ghost use Rattle.depot_rows.specs.depot_path.Path.{path_of, printed};
ghost use Rattle.depot_rows.specs.db_records.declared.key.Key.TheVariants as keys;
ghost use Rattle.depot_rows.specs.db_records.declared.table.TableId.TheVariants as table_ids;
ghost use Rattle.depot_rows.specs.table_changes.Changed.{rows_of};
ghost use Rattle.depot_rows.specs.depot_model.Deeds.{Deed};
ghost use Rattle.depot_rows.specs.depot_model.Opened.{owed};
ghost use Rattle.depot_rows.specs.depot_model.Records.{resolve_record};
ghost use Rattle.depot_rows.specs.Standing.{HasRows};
ghost use Rattle.opening_reads.specs.Owed.{resolve_of};

use depot_rows::paths::{DepotPath, Name, Text};
use depot_rows::records::{Key, Record, ResolveRecord, TableId};
use depot_rows::tables::Tables;
use std::alloc::{AllocError, Global};

/// The key of the resolve of a file from another one that a client owes.
fn owed_key(
    alloc: Global,
    client: &Name,
    path: &DepotPath,
    from: &DepotPath,
) -> Result<Key, AllocError>
    ensures key { IfOk result (λ key. key ≡ keys.Resolve client.now (printed path.now) (printed from.now)) }
    ensures read_again { IfOk result (λ _. (path_of (printed path.now) ≡ Ok path.now) ×
        (path_of (printed from.now) ≡ Ok from.now)) }
{
    let client = Text::from_bytes(alloc, client.as_bytes())?;
    let path = path.print(alloc)?;
    let from = from.print(alloc)?;
    Ok(Key::Resolve { client, path, from })
}

/// The row of a resolve, if it is one.
fn as_resolve<'a>(row: Option<&'a Record>) -> Option<&'a ResolveRecord>
    ensures { option_copied result ≡ resolve_of (option_copied row.entry) }
{
    match row {
        Some(Record::Resolve(row)) => Some(row),
        _ => None,
    }
}

/// The row of the resolve of a file from another one that a client owes or paid, None exactly where there is none since
/// the client opened the file (Command-Line Reference, "p4 resolve"), from the table of resolves alone. The one error
/// is want of memory.
pub fn owed_of<'a>(
    alloc: Global,
    tables: &'a Tables,
    client: &Name,
    path: &DepotPath,
    from: &DepotPath,
) -> Result<Option<&'a ResolveRecord>, AllocError>
    ensures { IfOk result (λ row. (d : List Deed) → HasRows (rows_of tables.now) d table_ids.Resolve →
        option_map Record.Resolve (option_copied row) ≡
        option_map resolve_record (owed d client.now path.now from.now)) }
{
    let key = owed_key(alloc, client, path, from)?;
    let version = tables.version(TableId::Resolve);
    let row = version.get(&key);
    let owed = as_resolve(row);
    Ok(owed)
}
