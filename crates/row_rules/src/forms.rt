//! Rows of forms.

ghost use Rattle.std.specs.Prelude.{◌≡◌, ◌≤◌, IfOk, is_ok, is_some, codes, true};
ghost use Rattle.depot_rows.specs.db_records.declared.key.Key.TheVariants as keys;
ghost use Rattle.depot_rows.specs.depot_path.Bytes.{same};
ghost use Rattle.depot_rows.specs.depot_path.Name.{is_name as name_test};
ghost use Rattle.depot_rows.specs.view_map.Reading.{view_of};
ghost use Rattle.depot_rows.specs.depot_model.Rules.{top_in, is_one_of, is_job_name as job_name_test};
ghost use Rattle.depot_rows.specs.depot_model.Values.{value_of as value_in};
ghost use Rattle.row_rules.specs.Stored.{stored};
ghost use Rattle.row_rules.specs.Tests.{form_read, is_client_text as client_text, is_label_text as label_text, is_job_text as job_text, is_fix_text as fix_text, spaced as spaced_words, job_words, fix_words, is_client_form as client_test, is_fix_form as fix_test, is_form as form_test};

use crate::lookups::{has_change, has_form};
use crate::numerals::{is_positive, numeral_up_to};
use crate::shelves::is_shelf;
use depot_rows::forms::{Form, FormFaultKind, Shape};
use depot_rows::paths::{Name, Text, are_digits, is_name};
use depot_rows::records::DomainRecord;
use depot_rows::tables::Tables;
use depot_rows::views::{View, ViewCause};
use std::alloc::{AllocError, Global};

/// The form that a text is as it is printed.
pub(crate) fn read_form(
    alloc: Global,
    text: &[u8],
    shape: Shape,
) -> Result<Option<Form>, AllocError>
    ensures { IfOk result (λ form. form ≡ form_read shape text.now) }
{
    match Form::read(alloc, text, shape) {
        Ok(form) => {
            let printed = form.print(alloc)?;
            if printed.as_bytes() == text {
                Ok(Some(form))
            } else {
                Ok(None)
            }
        }
        Err(fault) => match fault.what {
            FormFaultKind::Memory => Err(AllocError),
            _ => Ok(None),
        },
    }
}

/// The value of a single field, empty where it has none.
pub(crate) fn value<'a>(form: &'a Form, field: &str) -> &'a [u8]
    ensures { result.now ≡ value_in form.now field.now }
{
    match form.lines(field) {
        [line, ..] => line.as_bytes(),
        [] => &[],
    }
}

/// Whether lines are a view of the client.
fn is_view(alloc: Global, client: &Name, lines: &[Text]) -> Result<bool, AllocError>
    ensures { IfOk result (λ is. is ≡ is_ok (view_of client.now lines.now)) }
{
    match View::from_lines(alloc, client, lines) {
        Ok(_) => Ok(true),
        Err(fault) => match fault.what {
            ViewCause::Memory => Err(AllocError),
            _ => Ok(false),
        },
    }
}

/// The name that a text is.
fn read_name(alloc: Global, text: &[u8]) -> Result<Name, AllocError>
    requires { name_test text.now ≡ true }
    ensures { IfOk result (λ name. name ≡ text.now) }
{
    match Name::read(alloc, text) {
        Ok(name) => Ok(name),
        Err(_) => Err(AllocError),
    }
}

/// Whether a form is one of a client of the name.
fn is_client_form(alloc: Global, name: &[u8], form: &Form) -> Result<bool, AllocError>
    ensures { IfOk result (λ is. is ≡ client_test name.now form.now) }
{
    if !is_name(name) {
        return Ok(false);
    }
    let client = read_name(alloc, name)?;
    is_view(alloc, &client, form.lines("View"))
}

/// Whether the text of a client's form keeps the rules.
#[tactic(auto, unfolding(crate::specs::Tests::is_client_text))]
fn is_client(alloc: Global, name: &[u8], text: &[u8]) -> Result<bool, AllocError>
    ensures { IfOk result (λ is. is ≡ client_text name.now text.now) }
{
    match read_form(alloc, text, Shape::Client)? {
        Some(form) => is_client_form(alloc, name, &form),
        None => Ok(false),
    }
}

/// Whether the text of a label's form keeps the rules.
#[tactic(auto, unfolding(crate::specs::Tests::is_label_text))]
fn is_label(alloc: Global, name: &[u8], text: &[u8]) -> Result<bool, AllocError>
    ensures { IfOk result (λ is. is ≡ label_text name.now text.now) }
{
    match read_form(alloc, text, Shape::Label)? {
        Some(_) => Ok(is_name(name)),
        None => Ok(false),
    }
}

/// Whether a name is a job's: `job` and six digits, from `job000001`.
fn is_job_name(name: &[u8]) -> bool
    ensures { result ≡ job_name_test name.now }
{
    let digits = name.get(3..).unwrap_or(&[]);
    name.starts_with(b"job") && name.len() == 9 && are_digits(digits) && is_positive(digits)
}

/// Whether a word is the status of a job.
fn is_job_word(word: &[u8]) -> bool
    ensures { result ≡ is_one_of job_words word.now }
{
    word == b"open".as_slice() || word == b"suspended".as_slice() || word == b"closed".as_slice()
}

/// Whether the text of a job's form keeps the rules.
#[tactic(auto, unfolding(crate::specs::Tests::is_job_text))]
fn is_job(alloc: Global, name: &[u8], text: &[u8]) -> Result<bool, AllocError>
    ensures { IfOk result (λ is. is ≡ job_text name.now text.now) }
{
    match read_form(alloc, text, Shape::Job)? {
        Some(form) => Ok(
            name == value(&form, "Job") && is_job_name(name) && is_job_word(value(&form, "Status")),
        ),
        None => Ok(false),
    }
}

/// Two words with a space between.
pub(crate) fn spaced(alloc: Global, first: &[u8], second: &[u8]) -> Result<Text, AllocError>
    ensures { IfOk result (λ text. text ≡ spaced_words first.now second.now) }
{
    let mut text = Text::from_bytes(alloc, first)?;
    text.append(b" ")?;
    text.append(second)?;
    Ok(text)
}

/// Whether a word is the state of a fix.
fn is_fix_word(word: &[u8]) -> bool
    ensures { result ≡ is_one_of fix_words word.now }
{
    word == b"on".as_slice() || word == b"off".as_slice()
}

/// Whether a name is these two words with a space between.
fn is_spaced(alloc: Global, name: &[u8], first: &[u8], second: &[u8]) -> Result<bool, AllocError>
    ensures { IfOk result (λ is. is ≡ same name.now (spaced_words first.now second.now)) }
{
    let text = spaced(alloc, first, second)?;
    Ok(name == text.as_bytes())
}

/// Whether there is a job of the name.
fn has_job(alloc: Global, tables: &Tables, name: &[u8]) -> Result<bool, AllocError>
    ensures { IfOk result (λ has. has ≡ is_some (stored tables.now (keys.Domain (codes "job") name.now))) }
{
    let name = Text::from_bytes(alloc, name)?;
    has_form(alloc, tables, b"job", &name)
}

/// Whether a form is one of a fix of the name.
#[tactic(auto, using(crate::proofs::UpTo::some_is))]
fn is_fix_form(
    alloc: Global,
    tables: &Tables,
    top: u32,
    name: &[u8],
    form: &Form,
) -> Result<bool, AllocError>
    requires small { top ≤ 2147483647 }
    requires top { top ≡ top_in (stored tables.now) }
    ensures { IfOk result (λ is. is ≡ fix_test (stored tables.now) name.now form.now) }
{
    let job = value(form, "Job");
    let number = value(form, "Change");
    let is_named = is_spaced(alloc, name, job, number)?;
    let has_job = has_job(alloc, tables, job)?;
    let Some(change) = numeral_up_to(alloc, top, number)? else {
        return Ok(false);
    };
    let state = value(form, "State");
    Ok(
        is_named
            && has_job
            && is_fix_word(state)
            && (state != b"on".as_slice() || has_change(tables, change)),
    )
}

/// Whether the text of a fix's form keeps the rules.
#[tactic(auto, unfolding(crate::specs::Tests::is_fix_text))]
fn is_fix(
    alloc: Global,
    tables: &Tables,
    top: u32,
    name: &[u8],
    text: &[u8],
) -> Result<bool, AllocError>
    requires small { top ≤ 2147483647 }
    requires top { top ≡ top_in (stored tables.now) }
    ensures { IfOk result (λ is. is ≡ fix_text (stored tables.now) name.now text.now) }
{
    match read_form(alloc, text, Shape::Fix)? {
        Some(form) => is_fix_form(alloc, tables, top, name, &form),
        None => Ok(false),
    }
}

/// Whether the row of a form keeps its rules, where `top` is the greatest number ever used.
#[tactic(auto, unfolding(crate::specs::Tests::is_form))]
pub(crate) fn is_form(
    alloc: Global,
    tables: &Tables,
    top: u32,
    row: &DomainRecord,
) -> Result<bool, AllocError>
    requires small { top ≤ 2147483647 }
    requires top { top ≡ top_in (stored tables.now) }
    ensures { IfOk result (λ is. is ≡ form_test (stored tables.now) row.now) }
{
    let kind = row.kind.as_bytes();
    let name = row.name.as_bytes();
    let text = row.form.as_bytes();
    if kind == b"client".as_slice() {
        is_client(alloc, name, text)
    } else if kind == b"label".as_slice() {
        is_label(alloc, name, text)
    } else if kind == b"shelf".as_slice() {
        is_shelf(alloc, tables, top, name, text)
    } else if kind == b"job".as_slice() {
        is_job(alloc, name, text)
    } else if kind == b"fix".as_slice() {
        is_fix(alloc, tables, top, name, text)
    } else {
        Ok(false)
    }
}
