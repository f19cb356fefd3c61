//! `job -i` (Command-Line Reference, "p4 job").

ghost use Rattle.std.specs.Prelude.{◌≡◌, ◌&&◌, List, IfOk, codes, drop, fold, is_none, map, max, min, not};
ghost use Rattle.depot_rows.specs.db_records.declared.table.TableId.TheVariants as table_ids;
ghost use Rattle.depot_rows.specs.table_changes.Changed.{AllRows, rows_of};
ghost use Rattle.depot_rows.specs.depot_model.Deeds.{Deed};
ghost use Rattle.depot_rows.specs.depot_model.Fixes as jobs;
ghost use Rattle.depot_rows.specs.depot_model.Rules.{IsSound};
ghost use Rattle.depot_rows.specs.depot_model.Steps.Jobs as model;
ghost use Rattle.depot_rows.specs.Standing.{HasRows};
ghost use Rattle.reply_rows.specs.Made.{IsMade};

use command_parts::unread;
use depot_rows::SpecKind;
use depot_rows::forms::{Form, Shape, field_place};
use depot_rows::model::Limit;
use depot_rows::paths::{Text, value_up_to};
use depot_rows::tables::Tables;
use itoa::Buffer;
use job_fixes::with;
use reply_rows::{RowBuilder, Step, bad_form_row, limit_row, no_such_job_row};
use row_reads::{form_names, form_value, saved_form};
use std::alloc::{AllocError, Global};

/// Whether a job's name asks for the next number.
fn is_new(name: &[u8]) -> bool
    ensures { result ≡ model.is_new name.now }
{
    name == b"new".as_slice()
}

/// Whether a word is a job's status.
fn is_status(word: &[u8]) -> bool
    ensures { result ≡ model.is_status word.now }
{
    word == b"open".as_slice() || word == b"suspended".as_slice() || word == b"closed".as_slice()
}

/// What stands behind the word `job` in a job's name.
fn digits_in(name: &[u8]) -> &[u8]
    ensures { result.now ≡ drop 3 name.now }
{
    match name {
        [_, _, _, digits @ ..] => digits,
        _ => &[],
    }
}

/// The number in a job's name, or 999,999 where it is above that.
fn job_number(name: &[u8]) -> u64
    ensures { result ≡ min 999999 (jobs.job_number name.now) }
{
    value_up_to(999_999, digits_in(name)).unwrap_or(999_999)
}

/// The greatest number in jobs' names, or 999,999 where it is above that; 0 where there is no name.
fn greatest_number(names: &[Text]) -> u64
    ensures { result ≡ min 999999 (fold max 0 (map jobs.job_number names.now)) }
{
    let mut greatest = 0;
    for name in names {
        let number = job_number(name.as_bytes());
        greatest = number.max(greatest);
    }
    greatest
}

/// The zeros that stand before some digits in a job's name.
fn zeros(digits: usize) -> &'static [u8]
    ensures { result.now ≡ drop digits (codes "000000") }
{
    let zeros: &'static [u8] = b"000000";
    if digits < 6 { &zeros[digits..] } else { &[] }
}

/// The name of the job with a number.
fn job_name(alloc: Global, number: u64) -> Result<Text, AllocError>
    ensures { IfOk result (λ name. name ≡ jobs.job_name number) }
{
    let digits = Text::from_bytes(alloc, Buffer::new().format(number).as_bytes())?;
    let mut name = Text::from_bytes(alloc, b"job")?;
    name.append(zeros(digits.len()))?;
    name.append(digits.as_bytes())?;
    Ok(name)
}

/// Whether a job's name neither asks for the next number nor is that of a job that is saved, from the table of forms
/// alone.
fn is_unknown(alloc: Global, tables: &Tables, name: &[u8]) -> Result<bool, AllocError>
    ensures { IfOk result (λ unknown. (d : List Deed) → IsSound d → HasRows (rows_of tables.now) d table_ids.Domain →
        unknown ≡ (not (model.is_new name.now) && is_none (jobs.job d name.now))) }
{
    if is_new(name) {
        return Ok(false);
    }
    let job = saved_form(alloc, tables, SpecKind::Job, name)?;
    Ok(job.is_none())
}

/// The step that saves a form under a name.
fn keep(alloc: Global, name: Text, form: &Form) -> Result<Step, AllocError>
    ensures { IfOk result (λ step. (all : AllRows) (d : List Deed) → IsMade all d d (model.saved name form.now) step) }
{
    let row = RowBuilder::new(alloc).text(b"Job", name.as_bytes())?;
    let row = row.text(b"action", b"saved")?;
    let form = with(alloc, form, "Job", name.as_bytes())?;
    let mut step = Step::tells(alloc, row.row())?;
    step.deeds.spec(SpecKind::Job, name, form)?;
    Ok(step)
}

/// The step of a form that could be read.
fn save_form(alloc: Global, tables: &Tables, input: &[u8], form: &Form) -> Result<Step, AllocError>
    ensures { IfOk result (λ step. (d : List Deed) → IsSound d → HasRows (rows_of tables.now) d table_ids.Domain →
        IsMade (rows_of tables.now) d d (model.save_form d input.now form.now) step) }
{
    if !is_status(form_value(form, "Status")) {
        let row = bad_form_row(alloc, field_place(input, "Status"))?;
        return Step::tells(alloc, row);
    }
    let name = form_value(form, "Job");
    if is_unknown(alloc, tables, name)? {
        let row = no_such_job_row(alloc, name)?;
        return Step::tells(alloc, row);
    }
    if form.print(alloc)?.len() > 65_536 {
        let row = limit_row(alloc, Limit::Text)?;
        return Step::tells(alloc, row);
    }
    if !is_new(name) {
        let name = Text::from_bytes(alloc, name)?;
        return keep(alloc, name, form);
    }
    let names = form_names(alloc, tables, SpecKind::Job)?;
    let last = greatest_number(names.as_slice());
    if last >= 999_999 {
        let row = limit_row(alloc, Limit::Jobs)?;
        return Step::tells(alloc, row);
    }
    let name = job_name(alloc, last + 1)?;
    keep(alloc, name, form)
}

/// `job -i`: the form that the input spells is saved, a new job under the next number. It is refused first where it
/// can't be read, then that its status is none, that its job is neither new nor saved, that its text is too long, and
/// that no number is left for a new job. Of the tables it reads that of forms alone.
pub fn job_save(alloc: Global, tables: &Tables, input: &[u8]) -> Result<Step, AllocError>
    ensures { IfOk result (λ step. (d : List Deed) → IsSound d → HasRows (rows_of tables.now) d table_ids.Domain →
        IsMade (rows_of tables.now) d d (model.job_save d input.now) step) }
{
    match Form::read(alloc, input, Shape::Job) {
        Ok(form) => save_form(alloc, tables, input, &form),
        Err(fault) => unread(alloc, fault),
    }
}
