//! Saved forms, and the names under which they are saved.

ghost use Rattle.std.specs.Prelude.{◌≡◌, ◌++◌, List, false, filter, codes, IfOk, OnOk};
ghost use Rattle.std.specs.List.{list_any};
ghost use Rattle.std.specs.Option.{option_copied, option_map_or};
ghost use Rattle.std.specs.Result.{result_ok};
ghost use Rattle.depot_rows.specs.db_records.declared.table.TableId.TheVariants as table_ids;
ghost use Rattle.depot_rows.specs.table_changes.Changed.{rows_of};
ghost use Rattle.row_ranges.specs.Ranges.{has_row, range_table};
ghost use Rattle.depot_rows.specs.depot_path.Bytes.{same};
ghost use Rattle.row_ranges.specs.declared.range.KeyRange.TheVariants as ranges;
ghost use Rattle.depot_rows.specs.spec_form.Reading.{form_of};
ghost use Rattle.depot_rows.specs.depot_model.Deeds.{Deed};
ghost use Rattle.depot_rows.specs.depot_model.Latest.{keys_of, kind_word as word_of_kind, spec, spec_name};
ghost use Rattle.depot_rows.specs.depot_model.Records.{shape_of as shape_of_kind};
ghost use Rattle.depot_rows.specs.depot_model.Rules.{IsSound};
ghost use Rattle.depot_rows.specs.depot_model.Steps.Labels.{is_locked, is_locked_form as form_is_locked, words};
ghost use Rattle.depot_rows.specs.depot_model.Values.{first_or_empty, value_of};
ghost use Rattle.depot_rows.specs.Deed.{kind_of};
ghost use Rattle.depot_rows.specs.Standing.{HasRows};
ghost use Rattle.row_reads.specs.Forms.{form_in, name_in, names_in};

use crate::saved::form_key;
use depot_rows::SpecKind;
use depot_rows::forms::{Form, FormFaultKind, Shape};
use depot_rows::paths::{Name, Sequence, Text};
use depot_rows::records::{Record, TableId};
use depot_rows::tables::Tables;
use row_ranges::{KeyRange, rows_in};
use std::alloc::{AllocError, Global};

/// The word of what a form is of.
fn kind_word(kind: SpecKind) -> &'static [u8]
    ensures { result.now ≡ word_of_kind (kind_of kind) }
{
    match kind {
        SpecKind::Client => b"client",
        SpecKind::Label => b"label",
        SpecKind::Shelf => b"shelf",
        SpecKind::Job => b"job",
        SpecKind::Fix => b"fix",
    }
}

/// The shape of what a form is of.
fn shape_of(kind: SpecKind) -> Shape
    ensures { result ≡ shape_of_kind (kind_of kind) }
{
    match kind {
        SpecKind::Client => Shape::Client,
        SpecKind::Label => Shape::Label,
        SpecKind::Shelf => Shape::Shelf,
        SpecKind::Job => Shape::Job,
        SpecKind::Fix => Shape::Fix,
    }
}

/// The form that a text spells, None where it spells none.
fn read_form(alloc: Global, shape: Shape, text: &[u8]) -> Result<Option<Form>, AllocError>
    ensures { IfOk result (λ found. found ≡ result_ok (form_of shape text.now)) }
{
    match Form::read(alloc, text, shape) {
        Ok(form) => Ok(Some(form)),
        Err(fault) => match fault.what {
            FormFaultKind::Memory => Err(AllocError),
            _ => Ok(None),
        },
    }
}

/// The form in a row, None where there is none.
fn form_in_row(
    alloc: Global,
    shape: Shape,
    row: Option<&Record>,
) -> Result<Option<Form>, AllocError>
    ensures { IfOk result (λ found. found ≡ form_in shape (option_copied row.entry)) }
{
    match row {
        Some(Record::Domain(domain)) => read_form(alloc, shape, domain.form.as_bytes()),
        _ => Ok(None),
    }
}

/// A saved form, None exactly where none is saved under the name (Command-Line Reference, "p4 client", "p4 label"),
/// from the table of forms alone.
pub fn saved_form(
    alloc: Global,
    tables: &Tables,
    kind: SpecKind,
    name: &[u8],
) -> Result<Option<Form>, AllocError>
    ensures { IfOk result (λ found. (d : List Deed) → IsSound d → HasRows (rows_of tables.now) d table_ids.Domain →
        found ≡ spec d (kind_of kind) name.now) }
{
    let key = form_key(alloc, kind_word(kind), name)?;
    let version = tables.version(TableId::Domain);
    let row = version.get(&key);
    let form = form_in_row(alloc, shape_of(kind), row)?;
    Ok(form)
}

/// Adds the name of a row, if it is one of a form.
fn push_name(alloc: Global, names: &mut Sequence<Text>, row: &Record) -> Result<(), AllocError>
    ensures { OnOk result (names.new ≡ names.old ++ name_in row.now) }
{
    if let Record::Domain(row) = row {
        names.push(Text::from_bytes(alloc, row.name.as_bytes())?)?;
    }
    Ok(())
}

/// The names in the rows of a range.
fn names_of_rows(
    alloc: Global,
    tables: &Tables,
    range: &KeyRange,
) -> Result<Sequence<Text>, AllocError>
    ensures { IfOk result (λ names. names ≡
        names_in (filter (has_row range.now) (rows_of tables.now (range_table range.now)))) }
{
    let mut names = Sequence::new(alloc);
    for row in rows_in(alloc, tables, range)? {
        push_name(alloc, &mut names, row)?;
    }
    Ok(names)
}

/// The rows of a depot have the names of its forms.
fn rows_name_forms(tables: &Tables, kind: SpecKind)
    ensures { (d : List Deed) → HasRows (rows_of tables.now) d table_ids.Domain →
        names_in (filter (has_row (ranges.Forms (word_of_kind (kind_of kind)))) (rows_of tables.now table_ids.Domain)) ≡
        keys_of (spec_name (kind_of kind)) d }
{
    // the word of a kind is the model's
    let _kind = kind_word(kind);
    let version = tables.version(TableId::Domain);
    // the rows of a version are of its table, their keys rising
    let _table = version.table();
}

/// The names under which forms of a kind are saved, in the order of bytes, from the table of forms alone.
pub fn form_names(
    alloc: Global,
    tables: &Tables,
    kind: SpecKind,
) -> Result<Sequence<Text>, AllocError>
    ensures { IfOk result (λ names. (d : List Deed) → HasRows (rows_of tables.now) d table_ids.Domain →
        names ≡ keys_of (spec_name (kind_of kind)) d) }
{
    rows_name_forms(tables, kind);
    let range = KeyRange::Forms {
        kind: Text::from_bytes(alloc, kind_word(kind))?,
    };
    let names = names_of_rows(alloc, tables, &range)?;
    Ok(names)
}

/// The first line, or the empty one.
fn first_line(lines: &[Text]) -> &[u8]
    ensures { result.now ≡ first_or_empty lines.now }
{
    match lines {
        [] => b"",
        [line, ..] => line.as_bytes(),
    }
}

/// The value of a single field, empty where it has none.
pub fn form_value<'a>(form: &'a Form, field: &str) -> &'a [u8]
    ensures { result.now ≡ value_of form.now field.now }
{
    first_line(form.lines(field))
}

/// Whether one of the words of a text, parted by spaces and tabs, is `locked`.
fn has_locked(text: &[u8]) -> bool
    ensures { result ≡ list_any (same (codes "locked")) (words text.now) }
{
    text.split(|byte| *byte == b' ' || *byte == b'\t')
        .any(|word| b"locked".as_slice() == word)
}

/// Whether the form of a label locks it: its options hold the word `locked` (Command-Line Reference, "p4 label").
pub fn is_locked_form(form: &Form) -> bool
    ensures { result ≡ form_is_locked form.now }
{
    has_locked(form_value(form, "Options"))
}

/// Whether the form of a label locks it, where there is one.
fn locks(form: Option<&Form>) -> bool
    ensures { result ≡ option_map_or form_is_locked (option_copied form.entry) false }
{
    match form {
        Some(form) => is_locked_form(form),
        None => false,
    }
}

/// Whether a label is locked, from the table of forms alone.
pub fn is_locked_label(alloc: Global, tables: &Tables, name: &Name) -> Result<bool, AllocError>
    ensures { IfOk result (λ locked. (d : List Deed) → IsSound d → HasRows (rows_of tables.now) d table_ids.Domain →
        locked ≡ is_locked d name.now) }
{
    let form = saved_form(alloc, tables, SpecKind::Label, name.as_bytes())?;
    let locked = locks(form.as_ref());
    Ok(locked)
}
