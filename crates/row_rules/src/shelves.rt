//! Rows of shelved files.

ghost use Rattle.std.specs.Prelude.{◌≡◌, ◌≤◌, ◌==◌, ◌||◌, IfOk, nat_le, codes, if◌then◌else◌, Some, None};
ghost use Rattle.std.specs.Option.{option_copied};
ghost use Rattle.depot_rows.specs.db_records.declared.key.Key.TheVariants as keys;
ghost use Rattle.depot_rows.specs.depot_model.Rules.{top_in, is_one_of, is_content_text as content_test};
ghost use Rattle.depot_rows.specs.depot_model.Values.{value_of as value_in};
ghost use Rattle.row_rules.specs.Stored.{seen, stored};
ghost use Rattle.row_rules.specs.Tests.{is_shelf_text as shelf_text, field_number, has_small_rev as small_rev_test, is_live_row as live_test, has_field as field_test, is_number_field as number_field_test, shelf_words, shelf_action_words, has_its_source as source_test, has_its_fields as fields_test, has_its_numbers as numbers_test, has_its_content as its_content_test, is_kept_form as kept_test, is_shelf_form as shelf_test};

use crate::forms::{read_form, spaced, value};
use crate::lookups::{found, is_pending, rev_key};
use crate::numerals::{is_numeral, numeral_up_to, small_value};
use crate::texts::is_path;
use depot_rows::forms::{Form, Shape};
use depot_rows::model::is_printed_type;
use depot_rows::paths::{Text, is_name};
use depot_rows::records::Record;
use depot_rows::tables::Tables;
use hex::FromHexError;
use std::alloc::{AllocError, Global};

/// Whether a form has a field with a value.
fn has_field(form: &Form, field: &str) -> bool
    ensures { result ≡ field_test form.now field.now }
{
    !form.lines(field).is_empty()
}

/// Whether a field is a number without leading zeros, where it is there.
fn is_number_field(form: &Form, field: &str) -> bool
    ensures { result ≡ number_field_test form.now field.now }
{
    !has_field(form, field) || is_numeral(value(form, field))
}

/// Whether the fields of numbers are numbers.
fn has_its_numbers(form: &Form) -> bool
    ensures { result ≡ numbers_test form.now }
{
    is_number_field(form, "Change")
        && is_number_field(form, "Base")
        && is_number_field(form, "FromRev")
}

/// Whether the form of a kept file has all its fields.
fn has_its_fields(form: &Form) -> bool
    ensures { result ≡ fields_test form.now }
{
    has_field(form, "Client")
        && has_field(form, "User")
        && has_field(form, "Action")
        && has_field(form, "Type")
        && has_field(form, "Base")
}

/// Whether a word is the state of a shelved file.
fn is_shelf_word(word: &[u8]) -> bool
    ensures { result ≡ is_one_of shelf_words word.now }
{
    word == b"kept".as_slice() || word == b"gone".as_slice()
}

/// Whether a word is the action of a shelved file.
fn is_shelf_action(word: &[u8]) -> bool
    ensures { result ≡ is_one_of shelf_action_words word.now }
{
    word == b"add".as_slice() || word == b"edit".as_slice() || word == b"delete".as_slice()
}

/// Whether a text is the digits of a block behind an `x`.
fn is_content_text(alloc: Global, text: &[u8]) -> Result<bool, AllocError>
    ensures { IfOk result (λ is. is ≡ content_test text.now) }
{
    if !text.starts_with(b"x") {
        return Ok(false);
    }
    let digits = text.get(1..).unwrap_or(&[]);
    match hex::decode(alloc, digits) {
        Ok(block) => {
            let printed = hex::encode(alloc, block.as_slice())?;
            Ok(printed.as_bytes() == digits && block.len() <= 8_388_608)
        }
        Err(FromHexError::OutOfMemory) => Err(AllocError),
        Err(_) => Ok(false),
    }
}

/// Whether the content of a shelved file is digits of a block, where it is there.
fn has_its_content(alloc: Global, form: &Form) -> Result<bool, AllocError>
    ensures { IfOk result (λ has. has ≡ its_content_test form.now) }
{
    if has_field(form, "Content") {
        is_content_text(alloc, value(form, "Content"))
    } else {
        Ok(true)
    }
}

/// Whether a row is of a live revision.
fn is_live(row: Option<&Record>) -> bool
    ensures { result ≡ live_test (seen (option_copied row.entry)) }
{
    match row {
        Some(row) => row.live(),
        None => false,
    }
}

/// The revision of a path that a field gives.
fn row_in_field<'a>(
    tables: &'a Tables,
    path: &Text,
    form: &Form,
    field: &str,
) -> Result<Option<&'a Record>, AllocError>
    ensures { IfOk result (λ row. seen (option_copied row) ≡ (if nat_le (field_number form.now field.now) 4294967295 then stored tables.now (keys.Rev path.now (field_number form.now field.now)) else None)) }
{
    match small_value(value(form, field)) {
        Some(rev) => {
            let key = rev_key(path, rev)?;
            Ok(found(tables, &key))
        }
        None => Ok(None),
    }
}

/// Whether a path has the revision that the base gives, or the base gives 0.
fn has_its_base(alloc: Global, tables: &Tables, form: &Form) -> Result<bool, AllocError>
    ensures { IfOk result (λ has. has ≡
        ((field_number form.now (codes "Base") == 0) || small_rev_test (stored tables.now) (value_in form.now (codes "Path")) (field_number form.now (codes "Base")))) }
{
    let path = Text::from_bytes(alloc, value(form, "Path"))?;
    let row = row_in_field(tables, &path, form, "Base")?;
    Ok(small_value(value(form, "Base")) == Some(0) || row.is_some())
}

/// Whether the source is there whole or not at all, and no content stands beside a live one.
fn has_its_source(alloc: Global, tables: &Tables, form: &Form) -> Result<bool, AllocError>
    ensures { IfOk result (λ has. has ≡ source_test (stored tables.now) form.now) }
{
    let path = Text::from_bytes(alloc, value(form, "From"))?;
    let row = row_in_field(tables, &path, form, "FromRev")?;
    let has_from = has_field(form, "From");
    let has_rev = has_field(form, "FromRev");
    let has_content = has_field(form, "Content");
    Ok(
        (!has_from && !has_rev)
            || (has_from && has_rev && row.is_some() && (!is_live(row) || !has_content)),
    )
}

/// Whether the form of a kept file keeps its rules.
fn is_kept_form(
    alloc: Global,
    tables: &Tables,
    change: u32,
    form: &Form,
) -> Result<bool, AllocError>
    requires change { change ≡ field_number form.now (codes "Change") }
    ensures { IfOk result (λ is. is ≡ kept_test (stored tables.now) form.now) }
{
    let file_type = is_printed_type(alloc, value(form, "Type"))?;
    let base = has_its_base(alloc, tables, form)?;
    let source = has_its_source(alloc, tables, form)?;
    let content = has_its_content(alloc, form)?;
    Ok(
        is_pending(tables, change)
            && has_its_fields(form)
            && is_name(value(form, "Client"))
            && is_name(value(form, "User"))
            && is_shelf_action(value(form, "Action"))
            && file_type
            && base
            && source
            && content,
    )
}

/// Whether a form is one of a shelved file of the name.
fn is_shelf_form(
    alloc: Global,
    tables: &Tables,
    top: u32,
    name: &[u8],
    form: &Form,
) -> Result<bool, AllocError>
    requires small { top ≤ 2147483647 }
    requires top { top ≡ top_in (stored tables.now) }
    ensures { IfOk result (λ is. is ≡ shelf_test (stored tables.now) name.now form.now) }
{
    let path = is_path(alloc, value(form, "Path"))?;
    let named = spaced(alloc, value(form, "Change"), value(form, "Path"))?;
    let digits = value(form, "Change");
    let number = numeral_up_to(alloc, top, digits)?;
    let change = match number {
        Some(change) => change,
        None => return Ok(false),
    };
    let state = value(form, "State");
    let kept = is_kept_form(alloc, tables, change, form)?;
    Ok(
        name == named.as_bytes()
            && path
            && has_its_numbers(form)
            && is_shelf_word(state)
            && (state != b"kept".as_slice() || kept),
    )
}

/// Whether the text of a shelved file's form keeps the rules.
#[tactic(auto, unfolding(crate::specs::Tests::is_shelf_text))]
pub(crate) fn is_shelf(
    alloc: Global,
    tables: &Tables,
    top: u32,
    name: &[u8],
    text: &[u8],
) -> Result<bool, AllocError>
    requires small { top ≤ 2147483647 }
    requires top { top ≡ top_in (stored tables.now) }
    ensures { IfOk result (λ is. is ≡ shelf_text (stored tables.now) name.now text.now) }
{
    match read_form(alloc, text, Shape::Shelf)? {
        Some(form) => is_shelf_form(alloc, tables, top, name, &form),
        None => Ok(false),
    }
}
