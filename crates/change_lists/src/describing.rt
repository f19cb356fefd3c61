//! `describe` (Command-Line Reference, "p4 describe", option -s).

ghost use Rattle.std.specs.Prelude.{◌≡◌, ◌++◌, ◌∷◌, [], List, IfOk, OnOk, flat_map, map};
ghost use Rattle.std.specs.List.{enumerate_from};
ghost use Rattle.std.specs.Option.{option_copied};
ghost use Rattle.depot_rows.specs.db_records.declared.table.TableId.TheVariants as table_ids;
ghost use Rattle.depot_rows.specs.table_changes.Changed.{rows_of};
ghost use Rattle.depot_rows.specs.depot_model.declared.request.Caller.{Caller as CallerValue};
ghost use Rattle.depot_rows.specs.depot_model.Deeds.{Deed};
ghost use Rattle.depot_rows.specs.depot_model.Rows.{number_field as field_of_number, row as row_with, text_field as field_of_text};
ghost use Rattle.depot_rows.specs.depot_model.Rules.{IsSound};
ghost use Rattle.depot_rows.specs.depot_model.Steps.History as model;
ghost use Rattle.depot_rows.specs.Standing.{HasRows};
ghost use Rattle.reply_rows.specs.Made.{IsMade, told};
ghost use Rattle.named_files.specs.Asked.{IsAsker};
ghost use Rattle.change_lists.specs.Describing.{content_fields, described_told, fields_at, landed_by, landed_told, numbered_name as name_numbered, record_fields as fields_of_record, revision_fields};

use crate::files::landed_rows;
use depot_rows::model::{Field, Row};
use depot_rows::paths::{Sequence, Text};
use depot_rows::records::{ChangeRecord, RevRecord};
use depot_rows::tables::Tables;
use itoa::Buffer;
use named_files::Asker;
use reply_rows::{Step, no_such_change_row, number_field, row_of, text_field};
use revision_reads::change_of;
use std::alloc::{AllocError, Global};

/// The fields of a change, by its row.
fn record_fields(alloc: Global, row: &ChangeRecord) -> Result<Sequence<Field>, AllocError>
    ensures { IfOk result (λ fields. fields ≡ fields_of_record row.now) }
{
    let mut fields = Sequence::new(alloc);
    fields.push(number_field(alloc, b"change", u64::from(row.change))?)?;
    fields.push(text_field(alloc, b"user", row.user.as_bytes())?)?;
    fields.push(text_field(alloc, b"client", row.client.as_bytes())?)?;
    fields.push(number_field(alloc, b"time", row.moment)?)?;
    fields.push(text_field(alloc, b"status", row.status.as_bytes())?)?;
    fields.push(text_field(alloc, b"desc", row.text.as_bytes())?)?;
    Ok(fields)
}

/// A name with a number behind it.
fn numbered_name(alloc: Global, name: &[u8], index: usize) -> Result<Text, AllocError>
    ensures { IfOk result (λ text. text ≡ name_numbered name.now index) }
{
    let mut numbered = Text::from_bytes(alloc, name)?;
    numbered.append(Buffer::new().format(index).as_bytes())?;
    Ok(numbered)
}

/// Adds a field with these bytes, of a name with a number behind it.
fn push_text(
    alloc: Global,
    fields: &mut Sequence<Field>,
    name: &[u8],
    index: usize,
    value: &[u8],
) -> Result<(), AllocError>
    ensures { OnOk result (fields.new ≡ fields.old ++ field_of_text (name_numbered name.now index) value.now ∷ []) }
{
    let name = numbered_name(alloc, name, index)?;
    fields.push(text_field(alloc, name.as_bytes(), value)?)?;
    Ok(())
}

/// Adds a field with this number, of a name with a number behind it.
fn push_number(
    alloc: Global,
    fields: &mut Sequence<Field>,
    name: &[u8],
    index: usize,
    value: u64,
) -> Result<(), AllocError>
    ensures { OnOk result (fields.new ≡ fields.old ++ field_of_number (name_numbered name.now index) value ∷ []) }
{
    let name = numbered_name(alloc, name, index)?;
    fields.push(number_field(alloc, name.as_bytes(), value)?)?;
    Ok(())
}

/// Adds the fields of the content of a revision, where its row has the digest of one.
fn push_content(
    alloc: Global,
    fields: &mut Sequence<Field>,
    index: usize,
    row: &RevRecord,
) -> Result<(), AllocError>
    ensures { OnOk result (fields.new ≡ fields.old ++ content_fields index row.now.digest row.now.length) }
{
    match row.digest.as_bytes() {
        [] => Ok(()),
        [_, ..] => {
            push_number(alloc, fields, b"fileSize", index, row.length)?;
            push_text(alloc, fields, b"digest", index, row.digest.as_bytes())?;
            Ok(())
        }
    }
}

/// Adds the fields of a revision, by its row.
fn push_revision(
    alloc: Global,
    fields: &mut Sequence<Field>,
    index: usize,
    row: &RevRecord,
) -> Result<(), AllocError>
    ensures { OnOk result (fields.new ≡ fields.old ++ revision_fields index row.now) }
{
    push_text(alloc, fields, b"depotFile", index, row.path.as_bytes())?;
    push_text(alloc, fields, b"action", index, row.action.as_bytes())?;
    push_text(alloc, fields, b"type", index, row.file_type.as_bytes())?;
    push_number(alloc, fields, b"rev", index, u64::from(row.rev))?;
    push_content(alloc, fields, index, row)?;
    Ok(())
}

/// Adds the fields of revisions, by their rows.
fn push_revisions(
    alloc: Global,
    fields: &mut Sequence<Field>,
    rows: &[&RevRecord],
) -> Result<(), AllocError>
    ensures { OnOk result (fields.new ≡ fields.old ++
        flat_map fields_at (enumerate_from 0 (map (λ row. row.now) rows.now))) }
{
    let mut rest = rows;
    let mut index = 0;
    while let [row, later @ ..] = rest {
        push_revision(alloc, fields, index, row)?;
        rest = later;
        index += 1;
    }
    Ok(())
}

/// The row of a submitted change, by its row in the table, with the revisions of these rows.
fn landed_row(alloc: Global, row: &ChangeRecord, rows: &[&RevRecord]) -> Result<Row, AllocError>
    ensures { IfOk result (λ told. told ≡
        row_with (fields_of_record row.now ++ flat_map fields_at (enumerate_from 0 (map (λ row. row.now) rows.now)))) }
{
    let mut fields = record_fields(alloc, row)?;
    push_revisions(alloc, &mut fields, rows)?;
    Ok(row_of(fields))
}

/// What is told of a submitted change: without revisions it is as one that isn't there.
fn landed_or_missing(
    alloc: Global,
    row: &ChangeRecord,
    rows: &[&RevRecord],
) -> Result<Row, AllocError>
    ensures { IfOk result (λ told. told ≡ landed_by row.now (map (λ row. row.now) rows.now)) }
{
    match rows {
        [] => {
            let told = no_such_change_row(alloc, row.change)?;
            Ok(told)
        }
        [_, ..] => {
            let told = landed_row(alloc, row, rows)?;
            Ok(told)
        }
    }
}

/// `describe -s N` of an asker, for a submitted change by its row.
fn describe_landed(
    alloc: Global,
    tables: &Tables,
    asker: &Asker,
    row: &ChangeRecord,
) -> Result<Step, AllocError>
    ensures { IfOk result (λ step. (d : List Deed) (caller : CallerValue) → IsSound d → IsAsker d caller asker.now →
        HasRows (rows_of tables.now) d table_ids.Rev →
        step ≡ told (landed_told d caller row.now ∷ [])) }
{
    let rows = landed_rows(alloc, tables, asker, row.change)?;
    let told = landed_or_missing(alloc, row, &rows)?;
    let step = Step::tells(alloc, told)?;
    Ok(step)
}

/// `describe -s N` of an asker, for a pending change by its row.
fn describe_pending(alloc: Global, row: &ChangeRecord) -> Result<Step, AllocError>
    ensures { IfOk result (λ step. step ≡ told (row_with (fields_of_record row.now) ∷ [])) }
{
    let row = row_of(record_fields(alloc, row)?);
    let step = Step::tells(alloc, row)?;
    Ok(step)
}

/// `describe -s N` of an asker, by the row of the change.
fn describe_found(
    alloc: Global,
    tables: &Tables,
    asker: &Asker,
    change: u32,
    row: Option<&ChangeRecord>,
) -> Result<Step, AllocError>
    ensures { IfOk result (λ step. (d : List Deed) (caller : CallerValue) → IsSound d → IsAsker d caller asker.now →
        HasRows (rows_of tables.now) d table_ids.Rev →
        step ≡ told (described_told d caller change (option_copied row.entry) ∷ [])) }
{
    match row {
        Some(row) => {
            if row.status.as_bytes() == b"pending".as_slice() {
                let step = describe_pending(alloc, row)?;
                Ok(step)
            } else {
                let step = describe_landed(alloc, tables, asker, row)?;
                Ok(step)
            }
        }
        None => {
            let row = no_such_change_row(alloc, change)?;
            let step = Step::tells(alloc, row)?;
            Ok(step)
        }
    }
}

/// `describe -s N`: a change, and of a submitted one the revisions that it made of files that the caller may list; one
/// without such is as one that isn't there. It reads the tables of changes and revisions alone, and of the revisions
/// those that the change made.
pub fn describe(
    alloc: Global,
    tables: &Tables,
    asker: &Asker,
    change: u32,
) -> Result<Step, AllocError>
    ensures { IfOk result (λ step. (d : List Deed) (caller : CallerValue) → IsSound d → IsAsker d caller asker.now →
        HasRows (rows_of tables.now) d table_ids.Change →
        HasRows (rows_of tables.now) d table_ids.Rev →
        IsMade (rows_of tables.now) d d (model.describe d caller change) step) }
{
    let found = change_of(tables, change);
    let step = describe_found(alloc, tables, asker, change, found)?;
    Ok(step)
}
