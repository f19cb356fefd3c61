//! What clients and labels have of a file.

ghost use Rattle.std.specs.Prelude.{◌≡◌, List, IfOk, Ok, option_map};
ghost use Rattle.std.specs.Option.{option_copied};
ghost use Rattle.depot_rows.specs.depot_path.Path.{path_of, printed};
ghost use Rattle.depot_rows.specs.db_records.declared.key.Key.TheVariants as keys;
ghost use Rattle.depot_rows.specs.db_records.declared.table.TableId.TheVariants as table_ids;
ghost use Rattle.depot_rows.specs.table_changes.Changed.{rows_of};
ghost use Rattle.depot_rows.specs.depot_model.Deeds.{Deed};
ghost use Rattle.depot_rows.specs.depot_model.Latest.{have, labelled};
ghost use Rattle.depot_rows.specs.depot_model.Opened.{opened};
ghost use Rattle.depot_rows.specs.depot_model.Records.{working_record};
ghost use Rattle.depot_rows.specs.Standing.{HasRows};
ghost use Rattle.row_reads.specs.Found.{have_in, label_in};

use depot_rows::paths::{DepotPath, Name, Text};
use depot_rows::records::{Key, Record, TableId};
use depot_rows::tables::Tables;
use std::alloc::{AllocError, Global};

/// The revision in a row of a have list, 0 where there is none.
fn have_rev(row: Option<&Record>) -> u32
    ensures { result ≡ have_in (option_copied row.entry) }
{
    match row {
        Some(Record::Have(have)) => have.rev,
        _ => 0,
    }
}

/// The revision in a row of a label, 0 where there is none.
fn label_rev(row: Option<&Record>) -> u32
    ensures { result ≡ label_in (option_copied row.entry) }
{
    match row {
        Some(Record::Label(label)) => label.rev,
        _ => 0,
    }
}

/// A copy of a row, where there is one.
fn copied(row: Option<&Record>) -> Result<Option<Record>, AllocError>
    ensures { IfOk result (λ copy. copy ≡ option_copied row.entry) }
{
    match row {
        Some(row) => Ok(Some(row.copy()?)),
        None => Ok(None),
    }
}

/// The key of a file in a have list.
fn have_key(alloc: Global, client: &Name, path: &DepotPath) -> Result<Key, AllocError>
    ensures key { IfOk result (λ key. key ≡ keys.Have client.now (printed path.now)) }
    ensures read_again { path_of (printed path.now) ≡ Ok path.now }
{
    let path = path.print(alloc)?;
    let client = Text::from_bytes(alloc, client.as_bytes())?;
    Ok(Key::Have { client, path })
}

/// The key of a file in a label.
fn label_key(alloc: Global, label: &Name, path: &DepotPath) -> Result<Key, AllocError>
    ensures key { IfOk result (λ key. key ≡ keys.Label label.now (printed path.now)) }
    ensures read_again { path_of (printed path.now) ≡ Ok path.now }
{
    let path = path.print(alloc)?;
    let label = Text::from_bytes(alloc, label.as_bytes())?;
    Ok(Key::Label { label, path })
}

/// The key of a file that a client has opened.
fn opened_key(alloc: Global, client: &Name, path: &DepotPath) -> Result<Key, AllocError>
    ensures key { IfOk result (λ key. key ≡ keys.Working (printed path.now) client.now) }
    ensures read_again { path_of (printed path.now) ≡ Ok path.now }
{
    let path = path.print(alloc)?;
    let client = Text::from_bytes(alloc, client.as_bytes())?;
    Ok(Key::Working { path, client })
}

/// The revision of a file that a client has, 0 where it has none (Command-Line Reference, "p4 have"), from the table of
/// have lists alone.
pub fn have_of(
    alloc: Global,
    tables: &Tables,
    client: &Name,
    path: &DepotPath,
) -> Result<u32, AllocError>
    ensures { IfOk result (λ rev. (d : List Deed) → HasRows (rows_of tables.now) d table_ids.Have →
        rev ≡ have d client.now path.now) }
{
    let key = have_key(alloc, client, path)?;
    let version = tables.version(TableId::Have);
    let row = version.get(&key);
    let rev = have_rev(row);
    Ok(rev)
}

/// The revision of a file that a label has, 0 where it has none (Command-Line Reference, "p4 label"), from the table of
/// labels alone.
pub fn label_of(
    alloc: Global,
    tables: &Tables,
    label: &Name,
    path: &DepotPath,
) -> Result<u32, AllocError>
    ensures { IfOk result (λ rev. (d : List Deed) → HasRows (rows_of tables.now) d table_ids.Label →
        rev ≡ labelled d label.now path.now) }
{
    let key = label_key(alloc, label, path)?;
    let version = tables.version(TableId::Label);
    let row = version.get(&key);
    let rev = label_rev(row);
    Ok(rev)
}

/// The row of a file that a client has opened, None exactly where it hasn't (Command-Line Reference, "p4 opened"), from
/// the table of opened files alone.
pub fn opened_of(
    alloc: Global,
    tables: &Tables,
    client: &Name,
    path: &DepotPath,
) -> Result<Option<Record>, AllocError>
    ensures { IfOk result (λ row. (d : List Deed) → HasRows (rows_of tables.now) d table_ids.Working →
        row ≡ option_map (working_record d) (opened d client.now path.now)) }
{
    let key = opened_key(alloc, client, path)?;
    let version = tables.version(TableId::Working);
    let row = version.get(&key);
    let copy = copied(row)?;
    Ok(copy)
}
