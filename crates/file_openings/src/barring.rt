//! Who keeps a client from opening a file.

ghost use Rattle.std.specs.Prelude.{◌≡◌, List, IfOk, Ok, filter};
ghost use Rattle.depot_rows.specs.db_records.declared.table.TableId.TheVariants as table_ids;
ghost use Rattle.row_ranges.specs.Ranges.{has_row, range_table};
ghost use Rattle.depot_rows.specs.table_changes.Changed.{rows_of};
ghost use Rattle.depot_rows.specs.depot_model.Deeds.{Deed};
ghost use Rattle.depot_rows.specs.depot_model.Rules.{IsSound};
ghost use Rattle.depot_rows.specs.depot_model.Steps.Opening as model;
ghost use Rattle.depot_rows.specs.Standing.{HasRows};
ghost use Rattle.file_openings.specs.Barring.{barring_in, bars_row, name_in_text};

use crate::exclusive::is_exclusive;
use crate::openings::{openings_of, rows_are_openings};
use depot_rows::paths::{DepotPath, Name, NameFault, Text};
use depot_rows::records::{Record, WorkingRecord};
use depot_rows::tables::Tables;
use row_ranges::{KeyRange, rows_in};
use std::alloc::{AllocError, Global};

/// Whether a row is of an opening by another client that keeps this one from opening the file, with a type that is
/// exclusive or one that isn't.
fn bars(client: &Name, exclusive: bool, row: &WorkingRecord) -> bool
    ensures { result ≡ bars_row client.now exclusive row.now }
{
    row.client.as_bytes() != client.as_bytes()
        && (exclusive || is_exclusive(row.file_type.as_bytes()))
}

/// The name that a text is, None where it is none.
fn name_in(alloc: Global, text: &Text) -> Result<Option<Name>, AllocError>
    ensures { IfOk result (λ name. name ≡ name_in_text text.now) }
{
    match Name::read(alloc, text.as_bytes()) {
        Ok(name) => Ok(Some(name)),
        Err(NameFault::Memory) => Err(AllocError),
        Err(NameFault::NotAName) => Ok(None),
    }
}

/// The client of the first row in a range that keeps this one from opening the file.
fn first_barring(
    alloc: Global,
    tables: &Tables,
    range: &KeyRange,
    client: &Name,
    exclusive: bool,
) -> Result<Option<Name>, AllocError>
    ensures { IfOk result (λ name. name ≡
        barring_in client.now exclusive (filter (has_row range.now) (rows_of tables.now (range_table range.now)))) }
{
    for row in rows_in(alloc, tables, range)? {
        if let Record::Working(row) = row
            && bars(client, exclusive, row)
        {
            let name = name_in(alloc, &row.client)?;
            return Ok(name);
        }
    }
    Ok(None)
}

/// The first other client, by name, that has a file opened where its type or the new one is exclusive, None exactly
/// where there is none (Command-Line Reference, "File types"), from the table of opened files alone. The one error is
/// want of memory.
pub fn barred_by(
    alloc: Global,
    tables: &Tables,
    path: &DepotPath,
    client: &Name,
    file_type: &Text,
) -> Result<Option<Name>, AllocError>
    ensures { IfOk result (λ other. (d : List Deed) → IsSound d → HasRows (rows_of tables.now) d table_ids.Working →
        other ≡ model.barred_by d path.now client.now file_type.now) }
{
    rows_are_openings(tables);
    let exclusive = is_exclusive(file_type.as_bytes());
    let range = openings_of(alloc, path)?;
    let other = first_barring(alloc, tables, &range, client, exclusive)?;
    Ok(other)
}
