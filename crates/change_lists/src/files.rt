//! The revisions that a submitted change made.

ghost use Rattle.std.specs.Prelude.{◌≡◌, ℕ, List, IfOk, filter_map, map};
ghost use Rattle.std.specs.List.{list_any};
ghost use Rattle.std.specs.Option.{option_copied};
ghost use Rattle.depot_rows.specs.db_records.declared.table.TableId.TheVariants as table_ids;
ghost use Rattle.depot_rows.specs.table_changes.Changed.{rows_of};
ghost use Rattle.depot_rows.specs.depot_model.declared.request.Caller.{Caller};
ghost use Rattle.depot_rows.specs.depot_model.Deeds.{Deed};
ghost use Rattle.depot_rows.specs.depot_model.Rules.{IsSound};
ghost use Rattle.depot_rows.specs.depot_model.Steps.Changes.{is_listable};
ghost use Rattle.depot_rows.specs.depot_model.Steps.History.{landed_files};
ghost use Rattle.depot_rows.specs.Standing.{HasRows};
ghost use Rattle.named_files.specs.Asked.{IsAsker};
ghost use Rattle.revision_reads.specs.History.{numbered_record, seen};
ghost use Rattle.change_lists.specs.Files.{is_listable_row, listable_in, may_in_text, rows_made};

use depot_rows::paths::{DepotPath, PathFault, Text};
use depot_rows::protections::Level;
use depot_rows::records::{Record, RevRecord, TableId};
use depot_rows::tables::Tables;
use named_files::Asker;
use std::alloc::{AllocError, Global};

/// Whether the asker may list the file that a text spells, if it spells one.
fn may_in(alloc: Global, asker: &Asker, text: &Text) -> Result<bool, AllocError>
    ensures { IfOk result (λ may. may ≡ may_in_text asker.now text.now) }
{
    match DepotPath::read(alloc, text.as_bytes()) {
        Ok(path) => Ok(asker.may(&path, Level(1))),
        Err(PathFault::Memory) => Err(AllocError),
        Err(_) => Ok(false),
    }
}

/// The revision of a row, where the asker may list its file.
fn listable<'a>(
    alloc: Global,
    asker: &Asker,
    row: &'a Record,
) -> Result<Option<&'a RevRecord>, AllocError>
    ensures { IfOk result (λ revision. option_copied revision ≡ listable_in asker.now row.now) }
{
    if let Record::Rev(row) = row
        && may_in(alloc, asker, &row.path)?
    {
        return Ok(Some(row));
    }
    Ok(None)
}

/// The rows of the revisions that a change made are those of the depot.
fn rows_tell_made(tables: &Tables)
    ensures made { (d : List Deed) (caller : Caller) (asker : _) → IsSound d → IsAsker d caller asker →
        HasRows (rows_of tables.now) d table_ids.Rev → (n : ℕ) →
        map seen (filter_map (listable_in asker) (rows_made n (rows_of tables.now table_ids.Rev))) ≡
        map numbered_record (landed_files d caller n) }
    ensures listed { (d : List Deed) (caller : Caller) (asker : _) → IsSound d → IsAsker d caller asker →
        HasRows (rows_of tables.now) d table_ids.Rev → (n : ℕ) →
        list_any (is_listable_row asker) (rows_made n (rows_of tables.now table_ids.Rev)) ≡ is_listable d caller n }
{
    let version = tables.version(TableId::Rev);
    // the rows of a version are of its table, their keys rising
    let _table = version.table();
}

/// The rows of the revisions that a change made of files that the asker may list, in the order of their paths, from
/// those that it made alone.
pub(crate) fn landed_rows<'a>(
    alloc: Global,
    tables: &'a Tables,
    asker: &Asker,
    change: u32,
) -> Result<Vec<&'a RevRecord>, AllocError>
    ensures { IfOk result (λ rows. (d : List Deed) (caller : Caller) → IsSound d → IsAsker d caller asker.now →
        HasRows (rows_of tables.now) d table_ids.Rev →
        map (λ row. seen row.now) rows.items ≡ map numbered_record (landed_files d caller change)) }
{
    rows_tell_made(tables);
    let mut rows = Vec::new(alloc);
    for row in tables.version(TableId::Rev).of_change(change) {
        if let Some(row) = listable(alloc, asker, row)? {
            rows.push(row)?;
        }
    }
    Ok(rows)
}

/// Whether the asker may list a file of which a change made a revision. It reads the revisions that the change made
/// until there is such a one.
pub(crate) fn may_list_change(
    alloc: Global,
    tables: &Tables,
    asker: &Asker,
    change: u32,
) -> Result<bool, AllocError>
    ensures { IfOk result (λ may. (d : List Deed) (caller : Caller) → IsSound d → IsAsker d caller asker.now →
        HasRows (rows_of tables.now) d table_ids.Rev →
        may ≡ is_listable d caller change) }
{
    rows_tell_made(tables);
    for row in tables.version(TableId::Rev).of_change(change) {
        if listable(alloc, asker, row)?.is_some() {
            return Ok(true);
        }
    }
    Ok(false)
}
