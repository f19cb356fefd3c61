//! `describe -S` (Command-Line Reference, "p4 describe", option -S).

ghost use Rattle.std.specs.Prelude.{◌≡◌, ◌++◌, ◌∷◌, [], List, decimal, flat_map, IfOk, OnOk};
ghost use Rattle.std.specs.List.{enumerate_from};
ghost use Rattle.std.specs.Option.{option_copied};
ghost use Rattle.depot_rows.specs.db_records.declared.table.TableId.TheVariants as table_ids;
ghost use Rattle.depot_rows.specs.table_changes.Changed.{rows_of};
ghost use Rattle.depot_rows.specs.depot_model.declared.request.Caller.{Caller as AnyCaller};
ghost use Rattle.depot_rows.specs.depot_model.Deeds.{Deed};
ghost use Rattle.depot_rows.specs.depot_model.Rows.{action_word, path_field as field_of_path, text_field as field_of_text};
ghost use Rattle.depot_rows.specs.depot_model.Rules.{IsSound};
ghost use Rattle.depot_rows.specs.depot_model.Shelves.{kept_action};
ghost use Rattle.depot_rows.specs.depot_model.Steps.Shelving as model;
ghost use Rattle.depot_rows.specs.Standing.{HasRows};
ghost use Rattle.named_files.specs.Asked.{IsAsker};
ghost use Rattle.reply_rows.specs.Made.{IsMade, told};
ghost use Rattle.shelf_ops.specs.Described.{change_fields as fields_of_change, change_told, form_fields, kept_word as word_kept, pending_told};

use crate::keeping::{kept_form, listable_files};
use depot_rows::forms::Form;
use depot_rows::model::{Field, Row};
use depot_rows::paths::{DepotPath, Sequence, Text};
use depot_rows::records::ChangeRecord;
use depot_rows::tables::Tables;
use itoa::Buffer;
use named_files::Asker;
use reply_rows::{Step, no_shelf_row, number_field, path_field, row_of, text_field};
use revision_reads::change_of;
use row_reads::form_value;
use std::alloc::{AllocError, Global};

/// A name with a number behind it.
fn numbered_name(alloc: Global, name: &[u8], index: usize) -> Result<Text, AllocError>
    ensures { IfOk result (λ text. text ≡ name.now ++ decimal index) }
{
    let mut numbered = Text::from_bytes(alloc, name)?;
    numbered.append(Buffer::new().format(index).as_bytes())?;
    Ok(numbered)
}

/// Adds a field with these bytes, of a name with a number behind it.
fn push_text(
    alloc: Global,
    fields: &mut Sequence<Field>,
    name: &[u8],
    index: usize,
    value: &[u8],
) -> Result<(), AllocError>
    ensures { OnOk result (fields.new ≡ fields.old ++ field_of_text (name.now ++ decimal index) value.now ∷ []) }
{
    let name = numbered_name(alloc, name, index)?;
    fields.push(text_field(alloc, name.as_bytes(), value)?)?;
    Ok(())
}

/// Adds a field with this path, of a name with a number behind it.
fn push_path(
    alloc: Global,
    fields: &mut Sequence<Field>,
    name: &[u8],
    index: usize,
    path: &DepotPath,
) -> Result<(), AllocError>
    ensures { OnOk result (fields.new ≡ fields.old ++ field_of_path (name.now ++ decimal index) path.now ∷ []) }
{
    let name = numbered_name(alloc, name, index)?;
    fields.push(path_field(alloc, name.as_bytes(), path)?)?;
    Ok(())
}

/// The word of an action in the form of a file that is kept.
fn word_of(word: &[u8]) -> &'static [u8]
    ensures { result.now ≡ word_kept word.now }
{
    if b"add".as_slice() == word {
        b"add"
    } else if b"edit".as_slice() == word {
        b"edit"
    } else if b"delete".as_slice() == word {
        b"delete"
    } else {
        b"add"
    }
}

/// The word of the action in the form of a file that is kept.
fn kept_word(form: &Form) -> &'static [u8]
    ensures { result.now ≡ action_word (kept_action form.now) }
{
    let word = form_value(form, "Action");
    let known = word_of(word);
    known
}

/// Adds the fields of a file, by its form where it has one.
fn push_form(
    alloc: Global,
    fields: &mut Sequence<Field>,
    index: usize,
    path: &DepotPath,
    form: Option<&Form>,
) -> Result<(), AllocError>
    ensures { OnOk result (fields.new ≡ fields.old ++ form_fields index path.now (option_copied form.entry)) }
{
    match form {
        Some(form) => {
            push_path(alloc, fields, b"depotFile", index, path)?;
            push_text(alloc, fields, b"action", index, kept_word(form))?;
            push_text(alloc, fields, b"rev", index, form_value(form, "Base"))?;
            Ok(())
        }
        None => Ok(()),
    }
}

/// Adds the fields of a file that may be kept in a change.
fn push_file(
    alloc: Global,
    tables: &Tables,
    fields: &mut Sequence<Field>,
    change: u32,
    index: usize,
    path: &DepotPath,
) -> Result<(), AllocError>
    ensures { OnOk result ((d : List Deed) → IsSound d → HasRows (rows_of tables.now) d table_ids.Domain →
        fields.new ≡ fields.old ++ model.shelved_fields d change (index, path.now)) }
{
    let found = kept_form(alloc, tables, change, path)?;
    push_form(alloc, fields, index, path, found.as_ref())?;
    Ok(())
}

/// Adds the fields of files that may be kept in a change.
fn push_files(
    alloc: Global,
    tables: &Tables,
    fields: &mut Sequence<Field>,
    change: u32,
    paths: &[DepotPath],
) -> Result<(), AllocError>
    ensures { OnOk result ((d : List Deed) → IsSound d → HasRows (rows_of tables.now) d table_ids.Domain →
        fields.new ≡ fields.old ++ flat_map (model.shelved_fields d change) (enumerate_from 0 paths.now)) }
{
    let mut rest = paths;
    let mut index = 0;
    while let [path, later @ ..] = rest {
        push_file(alloc, tables, fields, change, index, path)?;
        rest = later;
        index += 1;
    }
    Ok(())
}

/// The fields of a change, by its row.
fn change_fields(alloc: Global, row: &ChangeRecord) -> Result<Sequence<Field>, AllocError>
    ensures { IfOk result (λ fields. fields ≡ fields_of_change row.now) }
{
    let mut fields = Sequence::new(alloc);
    fields.push(number_field(alloc, b"change", u64::from(row.change))?)?;
    fields.push(text_field(alloc, b"user", row.user.as_bytes())?)?;
    fields.push(text_field(alloc, b"client", row.client.as_bytes())?)?;
    Ok(fields)
}

/// The row of a pending change with these files, by its row in the table.
fn pending_row(
    alloc: Global,
    tables: &Tables,
    row: &ChangeRecord,
    paths: &[DepotPath],
) -> Result<Row, AllocError>
    ensures { IfOk result (λ told. (d : List Deed) → IsSound d → HasRows (rows_of tables.now) d table_ids.Domain →
        told ≡ pending_told d row.now paths.now) }
{
    let mut fields = change_fields(alloc, row)?;
    push_files(alloc, tables, &mut fields, row.change, paths)?;
    Ok(row_of(fields))
}

/// The row of a change with these files, by its row in the table, where it is pending.
fn change_row(
    alloc: Global,
    tables: &Tables,
    change: u32,
    row: Option<&ChangeRecord>,
    paths: &[DepotPath],
) -> Result<Row, AllocError>
    ensures { IfOk result (λ told. (d : List Deed) → IsSound d → HasRows (rows_of tables.now) d table_ids.Domain →
        told ≡ change_told d change paths.now (option_copied row.entry)) }
{
    if let Some(row) = row
        && row.status.as_bytes() == b"pending".as_slice()
    {
        let told = pending_row(alloc, tables, row, paths)?;
        return Ok(told);
    }
    let told = no_shelf_row(alloc, change)?;
    Ok(told)
}

/// `describe -S N`: a change with the files that are kept in it, of those that the caller may list; a change without
/// such is refused. It reads the tables of forms and changes alone, and of the forms of shelved files those of the
/// change alone.
pub fn describe_shelved(
    alloc: Global,
    tables: &Tables,
    asker: &Asker,
    change: u32,
) -> Result<Step, AllocError>
    ensures { IfOk result (λ step. (d : List Deed) (caller : AnyCaller) → IsSound d → IsAsker d caller asker.now →
        HasRows (rows_of tables.now) d table_ids.Domain →
        HasRows (rows_of tables.now) d table_ids.Change →
        IsMade (rows_of tables.now) d d (model.describe_shelved d caller change) step) }
{
    let files = listable_files(alloc, tables, asker, change)?;
    if files.is_empty() {
        let row = no_shelf_row(alloc, change)?;
        return Step::tells(alloc, row);
    }
    let found = change_of(tables, change);
    let row = change_row(alloc, tables, change, found, files.as_slice())?;
    Step::tells(alloc, row)
}
