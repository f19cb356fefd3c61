//! The resolves of an opened file: those that its client owes, and those that it paid.

ghost use Rattle.std.specs.List.{cons_option, filter_map, list_any};
ghost use Rattle.std.specs.Prelude.{◌≡◌, ◌++◌, IfOk, List, OnOk, Some, [], filter, map};
ghost use Rattle.depot_rows.specs.db_records.declared.table.TableId.TheVariants as table_ids;
ghost use Rattle.depot_rows.specs.depot_path.Path.{printed};
ghost use Rattle.depot_rows.specs.depot_model.Deeds.{Deed, Opening};
ghost use Rattle.depot_rows.specs.depot_model.Opened.{Resolve, opened};
ghost use Rattle.depot_rows.specs.depot_model.Records.{resolve_record};
ghost use Rattle.depot_rows.specs.depot_model.Rules.{IsSound};
ghost use Rattle.depot_rows.specs.depot_model.Steps.Submitting.{is_unpaid as unpaid, resolves_of};
ghost use Rattle.depot_rows.specs.Deed.{owing_of};
ghost use Rattle.depot_rows.specs.Standing.{HasRows};
ghost use Rattle.row_ranges.specs.Ranges.{has_row, range_table};
ghost use Rattle.row_ranges.specs.declared.range.KeyRange.TheVariants as ranges;
ghost use Rattle.opening_reads.specs.Owed.{is_unpaid_row, owing_in_row, owing_of_row};
ghost use Rattle.depot_rows.specs.table_changes.Changed.{rows_of};

use crate::reading::path_in;
use depot_rows::Owing;
use depot_rows::paths::{DepotPath, Name, Sequence, Text};
use depot_rows::records::{Record, ResolveRecord, TableId};
use depot_rows::tables::Tables;
use row_ranges::{KeyRange, rows_in};
use std::alloc::{AllocError, Global};

/// The rows of a sound depot tell the resolves of an opened file, in the order of the files that they come from.
pub fn rows_tell_resolves(tables: &Tables)
    ensures { (d : List Deed) (o : Opening) → IsSound d → HasRows (rows_of tables.now) d table_ids.Resolve →
        opened d o.client o.path ≡ Some o →
        filter (has_row (ranges.FileResolves o.client (printed o.path))) (rows_of tables.now table_ids.Resolve) ≡
        map resolve_record (resolves_of d o) }
{
    let version = tables.version(TableId::Resolve);
    // the rows of a version are of its table, their keys rising
    let _table = version.table();
}

/// Whether a row is of a resolve that is owed.
fn is_unpaid(row: &Record) -> bool
    ensures { result ≡ is_unpaid_row row.now }
{
    match row {
        Record::Resolve(row) => row.how.len() == 0,
        _ => false,
    }
}

/// The range of the resolves of a file of a client. The one error, here and below, is want of memory.
pub fn file_resolves(alloc: Global, client: &Name, path: &DepotPath) -> Result<KeyRange, AllocError>
    ensures { IfOk result (λ range. range ≡ ranges.FileResolves client.now (printed path.now)) }
{
    let client = Text::from_bytes(alloc, client.as_bytes())?;
    let path = path.print(alloc)?;
    Ok(KeyRange::FileResolves { client, path })
}

/// Whether a row of a range is of a resolve that is owed.
fn any_unpaid(alloc: Global, tables: &Tables, range: &KeyRange) -> Result<bool, AllocError>
    ensures { IfOk result (λ owes. owes ≡
        list_any is_unpaid_row (filter (has_row range.now) (rows_of tables.now (range_table range.now)))) }
{
    for row in rows_in(alloc, tables, range)? {
        if is_unpaid(row) {
            return Ok(true);
        }
    }
    Ok(false)
}

/// Whether a client owes a resolve of a file that it has opened (Command-Line Reference, "p4 resolve"), from the table
/// of resolves alone. It reads the rows of that file.
pub fn owes_resolve(
    alloc: Global,
    tables: &Tables,
    client: &Name,
    path: &DepotPath,
) -> Result<bool, AllocError>
    ensures { IfOk result (λ owes. (d : List Deed) (o : Opening) → IsSound d →
        HasRows (rows_of tables.now) d table_ids.Resolve → opened d client.now path.now ≡ Some o →
        owes ≡ list_any unpaid (resolves_of d o)) }
{
    rows_tell_resolves(tables);
    let range = file_resolves(alloc, client, path)?;
    let owes = any_unpaid(alloc, tables, &range)?;
    Ok(owes)
}

/// The owed resolve of a row of a client and a file.
fn owing_in(
    alloc: Global,
    client: &Name,
    path: &DepotPath,
    row: &ResolveRecord,
) -> Result<Option<Owing>, AllocError>
    ensures { IfOk result (λ owing. owing ≡ owing_in_row client.now path.now row.now) }
{
    let Some(from) = path_in(alloc, &row.from)? else {
        return Ok(None);
    };
    let client = client.clone()?;
    let path = path.clone()?;
    Ok(Some(Owing {
        client,
        path,
        from,
        first: row.first,
        last: row.last,
    }))
}

/// Adds the resolve of a row, where it is owed.
fn add_owing(
    alloc: Global,
    owings: &mut Sequence<Owing>,
    client: &Name,
    path: &DepotPath,
    row: &Record,
) -> Result<(), AllocError>
    ensures { OnOk result (owings.new ≡ owings.old ++ cons_option (owing_of_row client.now path.now row.now) []) }
{
    let Record::Resolve(row) = row else {
        return Ok(());
    };
    if row.how.len() != 0 {
        return Ok(());
    }
    if let Some(owing) = owing_in(alloc, client, path, row)? {
        owings.push(owing)?;
    }
    Ok(())
}

/// The resolves of the rows of a range that are owed.
fn owings_in(
    alloc: Global,
    tables: &Tables,
    client: &Name,
    path: &DepotPath,
    range: &KeyRange,
) -> Result<Sequence<Owing>, AllocError>
    ensures { IfOk result (λ owings. owings ≡
        filter_map (owing_of_row client.now path.now) (filter (has_row range.now) (rows_of tables.now (range_table range.now)))) }
{
    let mut owings = Sequence::new(alloc);
    for row in rows_in(alloc, tables, range)? {
        add_owing(alloc, &mut owings, client, path, row)?;
    }
    Ok(owings)
}

/// The resolves that a client owes of a file that it has opened (Command-Line Reference, "p4 resolve"), in the order of
/// the files that they come from, from the table of resolves alone. It reads the rows of that file.
pub fn owed_resolves(
    alloc: Global,
    tables: &Tables,
    client: &Name,
    path: &DepotPath,
) -> Result<Sequence<Owing>, AllocError>
    ensures { IfOk result (λ owings. (d : List Deed) (o : Opening) → IsSound d →
        HasRows (rows_of tables.now) d table_ids.Resolve → opened d client.now path.now ≡ Some o →
        map owing_of owings ≡ map (λ (r : Resolve). r.owing) (filter unpaid (resolves_of d o))) }
{
    rows_tell_resolves(tables);
    let range = file_resolves(alloc, client, path)?;
    let owings = owings_in(alloc, tables, client, path, &range)?;
    Ok(owings)
}
