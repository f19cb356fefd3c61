//! `changes` (Command-Line Reference, "p4 changes").

ghost use Rattle.std.specs.Prelude.{◌≡◌, ◌&&◌, ◌||◌, ◌++◌, Some, true, false, List, IfOk, OnOk, codes, flat_map, map};
ghost use Rattle.std.specs.Option.{option_to_list};
ghost use Rattle.depot_rows.specs.depot_path.Bytes.{same};
ghost use Rattle.depot_rows.specs.db_records.declared.table.TableId.TheVariants as table_ids;
ghost use Rattle.depot_rows.specs.table_changes.Changed.{rows_of};
ghost use Rattle.depot_rows.specs.depot_model.declared.request.Caller.{Caller as CallerValue};
ghost use Rattle.depot_rows.specs.depot_model.Deeds.{Deed};
ghost use Rattle.depot_rows.specs.depot_model.Rules.{IsSound};
ghost use Rattle.depot_rows.specs.depot_model.Steps.Changes as model;
ghost use Rattle.depot_rows.specs.Standing.{HasRows};
ghost use Rattle.reply_rows.specs.Made.{IsMade};
ghost use Rattle.named_files.specs.Asked.{IsAsker};
ghost use Rattle.named_files.specs.Sets.{ShownReads};
ghost use Rattle.named_files.specs.declared.listing.Listing.TheVariants.{Submitted};
ghost use Rattle.change_lists.specs.Listed.{asked_at, changes_listed, less, less_by, listed_at, record_asked, row_told, rows_asked};

use crate::files::may_list_change;
use crate::made::changes_made;
use crate::numbers::{in_falling_order, newest_number};
use depot_rows::model::{Caller, FileArgument, Row};
use depot_rows::paths::{Name, Sequence, Text};
use depot_rows::records::ChangeRecord;
use depot_rows::tables::Tables;
use named_files::Asker;
use reply_rows::{RowBuilder, Step};
use revision_reads::change_of;
use std::alloc::{AllocError, Global};

/// Which changes are listed: those of a status, of a user and of a client, where they are given.
#[derive(Drop)]
pub(crate) struct Filter<'a> {
    pub status: &'a Option<Text>,
    pub user: &'a Option<Name>,
    pub client: &'a Option<Name>,
}

/// Whether a text is the one that is asked for, if one is.
fn text_passes(wanted: &Option<Text>, text: &[u8]) -> bool
    ensures { result ≡ model.passes wanted.now text.now }
{
    match wanted {
        Some(wanted) => text == wanted.as_bytes(),
        None => true,
    }
}

/// Whether a text is the name that is asked for, if one is.
fn name_passes(wanted: &Option<Name>, text: &[u8]) -> bool
    ensures { result ≡ model.passes wanted.now text.now }
{
    match wanted {
        Some(wanted) => text == wanted.as_bytes(),
        None => true,
    }
}

/// Whether a change is of the status, the user and the client that are asked for.
fn passes(filter: &Filter, row: &ChangeRecord) -> bool
    ensures { result ≡ (model.passes filter.now.status.now row.now.status &&
        model.passes filter.now.user.now row.now.user && model.passes filter.now.client.now row.now.client) }
{
    text_passes(filter.status, row.status.as_bytes())
        && name_passes(filter.user, row.user.as_bytes())
        && name_passes(filter.client, row.client.as_bytes())
}

/// The row of a change, by its row in the table.
fn listed_row(alloc: Global, row: &ChangeRecord) -> Result<Row, AllocError>
    ensures { IfOk result (λ told. told ≡ row_told row.now) }
{
    let told = RowBuilder::new(alloc).number(b"change", u64::from(row.change))?;
    let told = told.number(b"time", row.moment)?;
    let told = told.text(b"user", row.user.as_bytes())?;
    let told = told.text(b"client", row.client.as_bytes())?;
    let told = told.text(b"status", row.status.as_bytes())?;
    let told = told.text(b"desc", row.text.as_bytes())?;
    Ok(told.row())
}

/// The row of a change by its row in the table, where the filter passes it.
fn tell_row(alloc: Global, filter: &Filter, row: &ChangeRecord) -> Result<Option<Row>, AllocError>
    ensures { IfOk result (λ told. told ≡
        record_asked filter.now.status.now filter.now.user.now filter.now.client.now row.now) }
{
    if !passes(filter, row) {
        return Ok(None);
    }
    let told = listed_row(alloc, row)?;
    Ok(Some(told))
}

/// The row of the change of a number, where it is there and the filter passes it.
fn tell_change(
    alloc: Global,
    tables: &Tables,
    filter: &Filter,
    change: &u32,
) -> Result<Option<Row>, AllocError>
    ensures { IfOk result (λ told. (d : List Deed) → HasRows (rows_of tables.now) d table_ids.Change →
        told ≡ asked_at d filter.now.status.now filter.now.user.now filter.now.client.now change.now) }
{
    let found = change_of(tables, *change);
    match found {
        Some(row) => {
            let told = tell_row(alloc, filter, row)?;
            Ok(told)
        }
        None => Ok(None),
    }
}

/// One row fewer.
fn one_less(left: Option<u32>) -> Option<u32>
    ensures { result ≡ less left }
{
    match left {
        Some(left) => Some(left.saturating_sub(1)),
        None => None,
    }
}

/// Whether no row may still come.
fn is_full(left: Option<u32>) -> bool
    ensures full { result ≡ true → left ≡ Some 0 }
    ensures not_full { result ≡ false → left ≡ Some 0 → ⊥ }
{
    match left {
        Some(left) => left == 0,
        None => false,
    }
}

/// Adds a row, if there is one, and says how many may still come.
fn push_told(
    rows: &mut Sequence<Row>,
    left: Option<u32>,
    told: Option<Row>,
) -> Result<Option<u32>, AllocError>
    ensures rows { OnOk result (rows.new ≡ rows.old ++ option_to_list told) }
    ensures left { IfOk result (λ after. after ≡ less_by told left) }
{
    match told {
        Some(row) => {
            rows.push(row)?;
            Ok(one_less(left))
        }
        None => Ok(left),
    }
}

/// Adds the rows of the changes of numbers that the filter passes, and at most so many.
fn tell_numbers(
    alloc: Global,
    tables: &Tables,
    filter: &Filter,
    rows: &mut Sequence<Row>,
    numbers: &[u32],
    most: Option<u32>,
) -> Result<(), AllocError>
    ensures { OnOk result ((d : List Deed) → HasRows (rows_of tables.now) d table_ids.Change →
        rows.new ≡ rows.old ++ model.at_most most (rows_asked d filter.now.status.now filter.now.user.now filter.now.client.now numbers.now)) }
{
    let mut rest = numbers;
    let mut left = most;
    while let [change, later @ ..] = rest {
        if is_full(left) {
            return Ok(());
        }
        let told = tell_change(alloc, tables, filter, change)?;
        left = push_told(rows, left, told)?;
        rest = later;
    }
    Ok(())
}

/// Whether a change is pending, or the asker may list one of its files.
fn is_listed(
    alloc: Global,
    tables: &Tables,
    asker: &Asker,
    change: u32,
    row: &ChangeRecord,
) -> Result<bool, AllocError>
    ensures { IfOk result (λ listed. (d : List Deed) (caller : CallerValue) → IsSound d → IsAsker d caller asker.now →
        HasRows (rows_of tables.now) d table_ids.Rev →
        listed ≡ (same row.now.status (codes "pending") || model.is_listable d caller change)) }
{
    if row.status.as_bytes() == b"pending".as_slice() {
        return Ok(true);
    }
    let listed = may_list_change(alloc, tables, asker, change)?;
    Ok(listed)
}

/// The row of the change of a number, where it is there and the filter passes it, and it is pending or the asker may
/// list one of its files.
fn tell_listed(
    alloc: Global,
    tables: &Tables,
    asker: &Asker,
    filter: &Filter,
    change: u32,
) -> Result<Option<Row>, AllocError>
    ensures { IfOk result (λ told. (d : List Deed) (caller : CallerValue) → IsSound d → IsAsker d caller asker.now →
        HasRows (rows_of tables.now) d table_ids.Change →
        HasRows (rows_of tables.now) d table_ids.Rev →
        option_to_list told ≡ listed_at d caller filter.now.status.now filter.now.user.now filter.now.client.now change) }
{
    let Some(row) = change_of(tables, change) else {
        return Ok(None);
    };
    if passes(filter, row) && is_listed(alloc, tables, asker, change, row)? {
        let told = listed_row(alloc, row)?;
        return Ok(Some(told));
    }
    Ok(None)
}

/// Adds the rows of the changes that the filter passes, of those that are pending or of which the asker may list a
/// file, the greatest number first, and at most so many. It looks up each number from the greatest down until there are
/// enough.
fn tell_newest(
    alloc: Global,
    tables: &Tables,
    asker: &Asker,
    filter: &Filter,
    rows: &mut Sequence<Row>,
    most: Option<u32>,
) -> Result<(), AllocError>
    ensures { OnOk result ((d : List Deed) (caller : CallerValue) → IsSound d → IsAsker d caller asker.now →
        HasRows (rows_of tables.now) d table_ids.Change →
        HasRows (rows_of tables.now) d table_ids.Rev →
        rows.new ≡ rows.old ++ model.at_most most (flat_map (listed_at d caller filter.now.status.now filter.now.user.now filter.now.client.now) (model.numbers d))) }
{
    let mut left = most;
    let mut next = Some(newest_number(tables));
    while let Some(change) = next {
        if is_full(left) {
            return Ok(());
        }
        let told = tell_listed(alloc, tables, asker, filter, change)?;
        left = push_told(rows, left, told)?;
        next = change.checked_sub(1);
    }
    Ok(())
}

/// The rows of `changes` of an asker.
fn changes_told(
    alloc: Global,
    tables: &Tables,
    caller: &Caller,
    asker: &Asker,
    most: Option<u32>,
    status: &Option<Text>,
    user: &Option<Name>,
    client: &Option<Name>,
    files: &[FileArgument],
) -> Result<Sequence<Row>, AllocError>
    ensures { IfOk result (λ rows. (d : List Deed) → ShownReads caller.now asker.now Submitted (rows_of tables.now) d →
        rows ≡ flat_map (model.missing d caller.now) files.now ++
        map model.change_row (changes_listed d caller.now most status.now user.now client.now files.now)) }
{
    let filter = Filter {
        status,
        user,
        client,
    };
    let mut rows = Sequence::new(alloc);
    if files.is_empty() {
        tell_newest(alloc, tables, asker, &filter, &mut rows, most)?;
        return Ok(rows);
    }
    let made = changes_made(alloc, tables, caller, asker, &mut rows, files)?;
    let numbers = in_falling_order(made);
    tell_numbers(alloc, tables, &filter, &mut rows, &numbers, most)?;
    Ok(rows)
}

/// `changes`: the changes of a status, a user and a client, where they are given, and of these those that made a
/// revision that an argument selects, if there are arguments; a submitted one where the caller may list one of its
/// files. The greatest number is the first, and there are at most `most`. An argument that names no file is refused. It
/// reads the tables of forms, have lists, labels, changes and revisions alone. With arguments it reads of the revisions
/// those of the files that they name, sorts the numbers of their changes, and looks these up from the greatest down,
/// until there are enough. Else it looks up each number from the greatest down, and of a submitted change that passes
/// the revisions that it made, until there is one of a file that the caller may list.
pub fn changes(
    alloc: Global,
    tables: &Tables,
    caller: &Caller,
    asker: &Asker,
    most: Option<u32>,
    status: &Option<Text>,
    user: &Option<Name>,
    client: &Option<Name>,
    files: &[FileArgument],
) -> Result<Step, AllocError>
    ensures { IfOk result (λ step. (d : List Deed) → IsSound d → IsAsker d caller.now asker.now →
        HasRows (rows_of tables.now) d table_ids.Domain →
        HasRows (rows_of tables.now) d table_ids.Have → HasRows (rows_of tables.now) d table_ids.Label →
        HasRows (rows_of tables.now) d table_ids.Change →
        HasRows (rows_of tables.now) d table_ids.Rev →
        IsMade (rows_of tables.now) d d (model.changes d caller.now most status.now user.now client.now files.now) step) }
{
    let rows = changes_told(
        alloc, tables, caller, asker, most, status, user, client, files,
    )?;
    let mut step = Step::new(alloc);
    step.rows = rows;
    Ok(step)
}
