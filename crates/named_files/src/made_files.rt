//! The submitted files of which a change made a revision.

ghost use Rattle.std.specs.Prelude.{◌≡◌, ◌++◌, ℕ, Bool, List, true, IfOk, OnOk, filter, flat_map};
ghost use Rattle.depot_rows.specs.db_records.declared.table.TableId.TheVariants as table_ids;
ghost use Rattle.depot_rows.specs.depot_model.Deeds.{Deed};
ghost use Rattle.depot_rows.specs.depot_model.Rules.{IsSound};
ghost use Rattle.depot_rows.specs.depot_model.Steps.Changing.{files_of_change};
ghost use Rattle.depot_rows.specs.Standing.{HasRows};
ghost use Rattle.depot_rows.specs.table_changes.Changed.{rows_of};
ghost use Rattle.depot_rows.specs.table_store.Marks.{is_of_change};
ghost use Rattle.named_files.specs.Asked.{is_placed};
ghost use Rattle.named_files.specs.Beginnings.{in_turn};
ghost use Rattle.named_files.specs.Listed.{has_beginning, path_revised};

use crate::asker::Asker;
use crate::beginning::beginnings_of;
use crate::front::stands_in;
use crate::listing::{Listing, add_path};
use depot_rows::paths::{DepotPath, Pattern, Sequence, Text};
use depot_rows::records::{Record, TableId};
use depot_rows::tables::Tables;
use std::alloc::{AllocError, Global};

/// Adds the path of the row of a revision.
fn add_made(alloc: Global, paths: &mut Sequence<DepotPath>, row: &Record) -> Result<(), AllocError>
    ensures { OnOk result (paths.new ≡ paths.old ++ path_revised row.now) }
{
    if let Record::Rev(row) = row {
        add_path(alloc, paths, &row.path)?;
    }
    Ok(())
}

/// The rows of the revisions that a change made tell its files, each once, in the order of their paths.
fn rows_tell_made(tables: &Tables)
    ensures { (d : List Deed) (n : ℕ) → IsSound d → HasRows (rows_of tables.now) d table_ids.Rev →
        flat_map path_revised (filter (is_of_change n) (rows_of tables.now table_ids.Rev)) ≡ files_of_change d n }
{
    let version = tables.version(TableId::Rev);
    // the rows of a version are of its table, their keys rising
    let _table = version.table();
}

/// Adds the files of which a change made a revision and whose printed paths begin with a text. It walks over the rows
/// alone of these revisions.
fn add_made_below(
    alloc: Global,
    paths: &mut Sequence<DepotPath>,
    tables: &Tables,
    change: u32,
    beginning: &Text,
) -> Result<(), AllocError>
    ensures { OnOk result (paths.new ≡ paths.old ++
        filter (has_beginning beginning.now) (flat_map path_revised (filter (is_of_change change) (rows_of tables.now table_ids.Rev)))) }
{
    let version = tables.version(TableId::Rev);
    // the rows of a version are of its table, their keys rising
    let _in_order = version.table();
    let first = Listing::Submitted.first_key(alloc, beginning)?;
    for row in version.of_change_from(change, &first) {
        if !stands_in(&Listing::Submitted, beginning, row) {
            return Ok(());
        }
        add_made(alloc, paths, row)?;
    }
    Ok(())
}

/// The files of which a change made a revision and whose printed paths begin with one of some texts, those of each text
/// in turn.
fn made_below(
    alloc: Global,
    tables: &Tables,
    change: u32,
    beginnings: &[Text],
) -> Result<Sequence<DepotPath>, AllocError>
    ensures { IfOk result (λ paths. paths ≡
        in_turn beginnings.now (flat_map path_revised (filter (is_of_change change) (rows_of tables.now table_ids.Rev)))) }
{
    let mut paths = Sequence::new(alloc);
    let mut rest = beginnings;
    while let [beginning, after @ ..] = rest {
        add_made_below(alloc, &mut paths, tables, change, beginning)?;
        rest = after;
    }
    Ok(paths)
}

/// Among the submitted files of which a change made a revision, in the order of their paths, all that a pattern fits at
/// the places where the view puts them. It walks over the rows of these revisions alone whose paths begin with the
/// literal text of the pattern, or in client syntax with one of the texts with which the lines of the view put files
/// there; so what it gives may have further files of the change. The one error is want of memory.
pub(crate) fn files_made(
    alloc: Global,
    tables: &Tables,
    asker: &Asker,
    change: u32,
    pattern: &Pattern,
) -> Result<Sequence<DepotPath>, AllocError>
    ensures { IfOk result (λ paths. (d : List Deed) → IsSound d → HasRows (rows_of tables.now) d table_ids.Rev →
        (test : List ℕ → Bool) →
        ((path : List ℕ) → test path ≡ true → is_placed asker.now pattern.now path ≡ true) →
        filter test paths ≡ filter test (files_of_change d change)) }
{
    rows_tell_made(tables);
    let beginnings = beginnings_of(alloc, asker, pattern)?;
    let paths = made_below(alloc, tables, change, beginnings.as_slice())?;
    Ok(paths)
}
