//! `filelog` (Command-Line Reference, "p4 filelog").

ghost use Rattle.std.specs.Prelude.{◌≡◌, ◌∷◌, ◌++◌, [], List, IfOk, codes, decimal, map, option_map};
ghost use Rattle.std.specs.Option.{option_copied};
ghost use Rattle.depot_rows.specs.depot_path.Path.{printed};
ghost use Rattle.depot_rows.specs.db_records.declared.record.Record.TheVariants.{Change};
ghost use Rattle.depot_rows.specs.db_records.declared.table.TableId.TheVariants as table_ids;
ghost use Rattle.depot_rows.specs.table_changes.Changed.{rows_of};
ghost use Rattle.depot_rows.specs.depot_model.declared.request.Caller.{Caller as Asking};
ghost use Rattle.depot_rows.specs.depot_model.Deeds.{Deed};
ghost use Rattle.depot_rows.specs.depot_model.Rows.{number_field as field_of_number, text_field as field_of_text};
ghost use Rattle.depot_rows.specs.depot_model.Rules.{IsSound};
ghost use Rattle.depot_rows.specs.depot_model.Steps.History as model;
ghost use Rattle.depot_rows.specs.Standing.{HasRows};
ghost use Rattle.named_files.specs.Asked.{IsAsker};
ghost use Rattle.reply_rows.specs.Made.{IsMade, told as told_rows};
ghost use Rattle.revision_reads.specs.History.{numbered_record, seen};
ghost use Rattle.history_query.specs.Crediting.{credited};
ghost use Rattle.history_query.specs.Logging.{LogReads, credit_fields, credits_in, digest_fields, fields_by, fields_of, log_row, logged, logged_from, revision_fields, rows_logged, size_fields};

use crate::choosing::{ChoiceAct, over_chosen};
use crate::crediting::{Credits, credits_of, range_of, rows_are_records};
use depot_rows::model::{Caller, FileArgument, Row};
use depot_rows::paths::{DepotPath, Text};
use depot_rows::records::{ChangeRecord, IntegedRecord, RevRecord};
use depot_rows::tables::Tables;
use itoa::Buffer;
use named_files::Asker;
use reply_rows::{RowBuilder, Step};
use revision_reads::{change_of, revisions_up_to};
use row_ranges::KeyRange;
use std::alloc::{AllocError, Global};

/// What `filelog` tells of a file.
#[derive(Drop)]
struct Logged<'a> {
    asker: &'a Asker,
}

/// A name with an index behind it.
fn indexed(alloc: Global, name: &[u8], index: &[u8]) -> Result<Text, AllocError>
    ensures { IfOk result (λ text. text ≡ name.now ++ index.now) }
{
    let mut text = Text::from_bytes(alloc, name)?;
    text.append(index)?;
    Ok(text)
}

/// The index of a revision.
fn index_of(alloc: Global, index: usize) -> Result<Text, AllocError>
    ensures { IfOk result (λ text. text ≡ decimal index) }
{
    Text::from_bytes(alloc, Buffer::new().format(index).as_bytes())
}

/// The index of a revision's integration record.
fn record_index(alloc: Global, revision: &[u8], index: usize) -> Result<Text, AllocError>
    ensures { IfOk result (λ text. text ≡ revision.now ++ codes "," ++ decimal index) }
{
    let mut text = Text::from_bytes(alloc, revision)?;
    text.append(b",")?;
    text.append(Buffer::new().format(index).as_bytes())?;
    Ok(text)
}

/// With a field with these bytes, whose name has an index.
fn with_text(
    alloc: Global,
    made: RowBuilder,
    name: &[u8],
    index: &[u8],
    value: &[u8],
) -> Result<RowBuilder, AllocError>
    ensures { IfOk result (λ more. more ≡ made ++ field_of_text (name.now ++ index.now) value.now ∷ []) }
{
    let name = indexed(alloc, name, index)?;
    let more = made.text(name.as_bytes(), value)?;
    Ok(more)
}

/// With a field with this number, whose name has an index.
fn with_number(
    alloc: Global,
    made: RowBuilder,
    name: &[u8],
    index: &[u8],
    number: u64,
) -> Result<RowBuilder, AllocError>
    ensures { IfOk result (λ more. more ≡ made ++ field_of_number (name.now ++ index.now) number ∷ []) }
{
    let name = indexed(alloc, name, index)?;
    let more = made.number(name.as_bytes(), number)?;
    Ok(more)
}

/// With what a revision and its change say.
fn with_revision(
    alloc: Global,
    made: RowBuilder,
    index: &[u8],
    row: &RevRecord,
    change: &ChangeRecord,
) -> Result<RowBuilder, AllocError>
    ensures { IfOk result (λ more. more ≡ made ++ revision_fields index.now row.now change.now) }
{
    let rev = with_number(alloc, made, b"rev", index, u64::from(row.rev))?;
    let number = with_number(alloc, rev, b"change", index, u64::from(row.change))?;
    let action = with_text(alloc, number, b"action", index, row.action.as_bytes())?;
    let kind = with_text(alloc, action, b"type", index, row.file_type.as_bytes())?;
    let moment = with_number(alloc, kind, b"time", index, change.moment)?;
    let user = with_text(alloc, moment, b"user", index, change.user.as_bytes())?;
    let client = with_text(alloc, user, b"client", index, change.client.as_bytes())?;
    Ok(client)
}

/// With the length of a revision's content, if it has one.
fn with_size(
    alloc: Global,
    made: RowBuilder,
    index: &[u8],
    row: &RevRecord,
) -> Result<RowBuilder, AllocError>
    ensures { IfOk result (λ more. more ≡ made ++ size_fields index.now row.now.digest row.now.length) }
{
    match row.digest.as_bytes() {
        [] => Ok(made),
        [_, ..] => {
            let more = with_number(alloc, made, b"fileSize", index, row.length)?;
            Ok(more)
        }
    }
}

/// With the digest of a revision's content, if it has one.
fn with_digest(
    alloc: Global,
    made: RowBuilder,
    index: &[u8],
    row: &RevRecord,
) -> Result<RowBuilder, AllocError>
    ensures { IfOk result (λ more. more ≡ made ++ digest_fields index.now row.now.digest) }
{
    match row.digest.as_bytes() {
        [] => Ok(made),
        [_, ..] => {
            let more = with_text(alloc, made, b"digest", index, row.digest.as_bytes())?;
            Ok(more)
        }
    }
}

/// With an integration record of a revision.
fn with_record(
    alloc: Global,
    made: RowBuilder,
    revision: &[u8],
    index: usize,
    row: &IntegedRecord,
) -> Result<RowBuilder, AllocError>
    ensures { IfOk result (λ more. more ≡ made ++ model.record_fields revision.now (index, row.now)) }
{
    let index = record_index(alloc, revision, index)?;
    let how = with_text(alloc, made, b"how", index.as_bytes(), row.how.as_bytes())?;
    let file = with_text(
        alloc,
        how,
        b"file",
        index.as_bytes(),
        row.from_file.as_bytes(),
    )?;
    let first = with_number(
        alloc,
        file,
        b"srev",
        index.as_bytes(),
        u64::from(row.start_from),
    )?;
    let last = with_number(
        alloc,
        first,
        b"erev",
        index.as_bytes(),
        u64::from(row.end_from),
    )?;
    Ok(last)
}

/// With the integration records of a revision.
fn with_records(
    alloc: Global,
    made: RowBuilder,
    revision: &[u8],
    records: &[&IntegedRecord],
) -> Result<RowBuilder, AllocError>
    ensures { IfOk result (λ more. more ≡ made ++ credit_fields revision.now (map (λ r. r.now) records.now)) }
{
    let mut more = made;
    let mut rest = records;
    let mut index = 0;
    while let [first, after @ ..] = rest {
        more = with_record(alloc, more, revision, index, first)?;
        rest = after;
        index += 1;
    }
    Ok(more)
}

/// With the integration records that are into a revision.
fn with_credits(
    alloc: Global,
    made: RowBuilder,
    index: &[u8],
    credits: &Credits<'_>,
    rev: u32,
) -> Result<RowBuilder, AllocError>
    ensures { IfOk result (λ more. more ≡ made ++ credit_fields index.now (credited credits.now rev)) }
{
    match credits.by_revision.get(&rev) {
        None => Ok(made),
        Some(records) => {
            let more = with_records(alloc, made, index, records.as_slice())?;
            Ok(more)
        }
    }
}

/// With what is told of a revision.
fn with_log(
    alloc: Global,
    made: RowBuilder,
    index: &[u8],
    credits: &Credits<'_>,
    row: &RevRecord,
    change: &ChangeRecord,
) -> Result<RowBuilder, AllocError>
    ensures { IfOk result (λ more. more ≡ made ++ fields_of index.now (credited credits.now) row.now change.now) }
{
    let told = with_revision(alloc, made, index, row, change)?;
    let sized = with_size(alloc, told, index, row)?;
    let summed = with_digest(alloc, sized, index, row)?;
    let described = with_text(alloc, summed, b"desc", index, change.text.as_bytes())?;
    let more = with_credits(alloc, described, index, credits, row.rev)?;
    Ok(more)
}

/// With what is told of a revision, where its change is there.
fn with_logged(
    alloc: Global,
    made: RowBuilder,
    index: &[u8],
    credits: &Credits<'_>,
    row: &RevRecord,
    change: Option<&ChangeRecord>,
) -> Result<RowBuilder, AllocError>
    ensures { IfOk result (λ more. more ≡ made ++
        fields_by index.now (credited credits.now) row.now (option_map (λ c. Change c) (option_copied change.entry))) }
{
    match change {
        None => Ok(made),
        Some(change) => {
            let more = with_log(alloc, made, index, credits, row, change)?;
            Ok(more)
        }
    }
}

/// With what is told of a revision at an index.
fn with_next(
    alloc: Global,
    tables: &Tables,
    made: RowBuilder,
    index: usize,
    credits: &Credits<'_>,
    row: &RevRecord,
) -> Result<RowBuilder, AllocError>
    ensures { IfOk result (λ more. (d : List Deed) → HasRows (rows_of tables.now) d table_ids.Change →
        more ≡ made ++ logged d (decimal index) (credited credits.now) (seen row.now)) }
{
    let index = index_of(alloc, index)?;
    let change = change_of(tables, row.change);
    let more = with_logged(alloc, made, index.as_bytes(), credits, row, change)?;
    Ok(more)
}

/// With what is told of revisions one after another.
fn with_all(
    alloc: Global,
    tables: &Tables,
    made: RowBuilder,
    credits: &Credits<'_>,
    rows: &[&RevRecord],
) -> Result<RowBuilder, AllocError>
    ensures { IfOk result (λ more. (d : List Deed) → HasRows (rows_of tables.now) d table_ids.Change →
        more ≡ made ++ logged_from d 0 (credited credits.now) (map (λ r. seen r.now) rows.now)) }
{
    let mut more = made;
    let mut rest = rows;
    let mut index = 0;
    while let [row, after @ ..] = rest {
        more = with_next(alloc, tables, more, index, credits, row)?;
        rest = after;
        index += 1;
    }
    Ok(more)
}

/// The log of a file up to a revision.
fn log_of(
    alloc: Global,
    tables: &Tables,
    path: &DepotPath,
    credits: &Credits<'_>,
    last: u32,
) -> Result<Row, AllocError>
    ensures { IfOk result (λ row. (d : List Deed) → IsSound d → HasRows (rows_of tables.now) d table_ids.Change →
        HasRows (rows_of tables.now) d table_ids.Rev →
        row ≡ log_row d path.now (credited credits.now) (map numbered_record (model.up_to d path.now last))) }
{
    let rows = revisions_up_to(alloc, tables, path, last)?;
    let made = RowBuilder::new(alloc).path(b"depotFile", path)?;
    let made = with_all(alloc, tables, made, credits, rows.as_slice())?;
    Ok(made.row())
}

/// The log of a file up to a revision, with the integration records in a range.
fn log_in(
    alloc: Global,
    tables: &Tables,
    asker: &Asker,
    path: &DepotPath,
    range: &KeyRange,
    last: u32,
) -> Result<Row, AllocError>
    ensures { IfOk result (λ row. (d : List Deed) (caller : Asking) → LogReads caller asker.now (rows_of tables.now) d →
        range.now ≡ KeyRange.Integrations (printed path.now) →
        row ≡ log_row d path.now (credits_in d caller path.now) (map numbered_record (model.up_to d path.now last))) }
{
    rows_are_records(tables);
    let credits = credits_of(alloc, tables, asker, range)?;
    let row = log_of(alloc, tables, path, &credits, last)?;
    Ok(row)
}

/// What is told of a file up to a revision.
fn tell_log(
    alloc: Global,
    tables: &Tables,
    asker: &Asker,
    path: &DepotPath,
    last: u32,
) -> Result<Step, AllocError>
    ensures { IfOk result (λ step. (d : List Deed) (caller : Asking) →
        LogReads caller asker.now (rows_of tables.now) d →
        step ≡ told_rows (log_row d path.now (credits_in d caller path.now) (map numbered_record (model.up_to d path.now last)) ∷ [])) }
{
    let range = range_of(alloc, path)?;
    let done = log_in(alloc, tables, asker, path, &range, last);
    drop(range);
    let row = done?;
    let step = Step::tells(alloc, row)?;
    Ok(step)
}

/// What is told of a file up to a revision, if there is one.
fn tell_chosen(
    alloc: Global,
    tables: &Tables,
    asker: &Asker,
    path: &DepotPath,
    row: Option<&RevRecord>,
) -> Result<Step, AllocError>
    ensures { IfOk result (λ step. (d : List Deed) (caller : Asking) →
        LogReads caller asker.now (rows_of tables.now) d →
        step ≡ told_rows (rows_logged d caller path.now (option_map (λ r. r.rev) (option_copied row.entry)))) }
{
    match row {
        None => Ok(Step::new(alloc)),
        Some(row) => {
            let step = tell_log(alloc, tables, asker, path, row.rev)?;
            Ok(step)
        }
    }
}

impl<'a> ChoiceAct for Logged<'a> {
    ghost use Rattle.depot_rows.specs.depot_model.Steps.History.{log_file};
    ghost use Rattle.history_query.specs.Logging.{LogReads as Reads};

    ghost reads = { λ logged caller rows d. Reads caller logged.asker.now rows d };

    ghost acts = { λ logged d caller argument path. log_file d caller argument path };

    fn act(
        &self,
        alloc: Global,
        tables: &Tables,
        _caller: &Caller,
        path: &DepotPath,
        row: Option<&RevRecord>,
    ) -> Result<Step, AllocError> {
        // the bytes of a path are one
        let _bytes = path.as_bytes();
        let step = tell_chosen(alloc, tables, self.asker, path, row)?;
        Ok(step)
    }
}

/// `filelog FILE...`: the revisions of files up to those that arguments choose, the newest first, with their
/// integration records, from the tables of forms, have lists, labels, integration records, changes and revisions alone.
/// It goes over a file's integration records once. The one error is want of memory.
pub fn filelog(
    alloc: Global,
    tables: &Tables,
    caller: &Caller,
    asker: &Asker,
    arguments: &[FileArgument],
) -> Result<Step, AllocError>
    ensures { IfOk result (λ step. (d : List Deed) → IsSound d → IsAsker d caller.now asker.now →
        HasRows (rows_of tables.now) d table_ids.Domain → HasRows (rows_of tables.now) d table_ids.Have →
        HasRows (rows_of tables.now) d table_ids.Label → HasRows (rows_of tables.now) d table_ids.Integed →
        HasRows (rows_of tables.now) d table_ids.Change →
        HasRows (rows_of tables.now) d table_ids.Rev →
        IsMade (rows_of tables.now) d d (model.filelog d caller.now arguments.now) step) }
{
    let act = Logged { asker };
    let step = over_chosen(alloc, tables, caller, asker, &act, arguments)?;
    Ok(step)
}
