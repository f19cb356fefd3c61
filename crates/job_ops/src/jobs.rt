//! `job -o`, `jobs` (Command-Line Reference, "p4 job", "p4 jobs").

ghost use Rattle.std.specs.List.{join_with_byte};
ghost use Rattle.std.specs.Prelude.{◌≡◌, ◌++◌, List, IfOk, OnOk, option_map};
ghost use Rattle.std.specs.Option.{option_to_list};
ghost use Rattle.depot_rows.specs.db_records.declared.table.TableId.TheVariants as table_ids;
ghost use Rattle.depot_rows.specs.depot_model.Deeds.{Deed};
ghost use Rattle.depot_rows.specs.depot_model.Fixes.{job};
ghost use Rattle.depot_rows.specs.depot_model.Rules.{IsSound};
ghost use Rattle.depot_rows.specs.depot_model.Steps.Jobs as model;
ghost use Rattle.depot_rows.specs.Standing.{HasRows};
ghost use Rattle.reply_rows.specs.Made.{IsMade};
ghost use Rattle.depot_rows.specs.table_changes.Changed.{rows_of};

use depot_rows::SpecKind;
use depot_rows::forms::Form;
use depot_rows::model::{Caller, Row};
use depot_rows::paths::{Sequence, Text};
use depot_rows::tables::Tables;
use reply_rows::{RowBuilder, Step, form_fields, no_such_job_row, push_values, row_of, text_field};
use row_reads::{form_names, saved_form};
use std::alloc::{AllocError, Global};

/// The row of a job that is to be saved.
fn new_row(alloc: Global, caller: &Caller) -> Result<Row, AllocError>
    ensures { IfOk result (λ row. row ≡ model.new_job caller.now) }
{
    let job = RowBuilder::new(alloc).text(b"Job", b"new")?;
    let status = job.text(b"Status", b"open")?;
    let user = status.text(b"User", caller.user.as_bytes())?;
    let text = user.text(b"Description0", b"<enter description here>")?;
    Ok(text.row())
}

/// `job -o [JOB]`, from the table of forms alone: the form of a job, or without a name that of one that is to be saved.
pub fn job_show(
    alloc: Global,
    tables: &Tables,
    caller: &Caller,
    name: &Option<Text>,
) -> Result<Step, AllocError>
    ensures { IfOk result (λ step. (d : List Deed) → IsSound d → HasRows (rows_of tables.now) d table_ids.Domain →
        IsMade (rows_of tables.now) d d (model.job_show d caller.now name.now) step) }
{
    let Some(name) = name else {
        let row = new_row(alloc, caller)?;
        return Step::tells(alloc, row);
    };
    let Some(form) = saved_form(alloc, tables, SpecKind::Job, name.as_bytes())? else {
        let row = no_such_job_row(alloc, name.as_bytes())?;
        return Step::tells(alloc, row);
    };
    let fields = form_fields(alloc, &form)?;
    Step::tells(alloc, row_of(fields))
}

/// Lines as one text.
fn joined(alloc: Global, lines: &[Text]) -> Result<Text, AllocError>
    ensures { IfOk result (λ text. text ≡ join_with_byte 0x0A lines.now) }
{
    let [first, rest @ ..] = lines else {
        return Ok(Text::new(alloc));
    };
    let mut text = Text::from_bytes(alloc, first.as_bytes())?;
    let mut rest = rest;
    while let [line, later @ ..] = rest {
        text.append(b"\n")?;
        text.append(line.as_bytes())?;
        rest = later;
    }
    Ok(text)
}

/// The row of a job.
fn job_row(alloc: Global, form: &Form) -> Result<Row, AllocError>
    ensures { IfOk result (λ row. row ≡ model.job_row form.now) }
{
    let mut fields = Sequence::new(alloc);
    push_values(alloc, &mut fields, b"Job", form.lines("Job"))?;
    push_values(alloc, &mut fields, b"Status", form.lines("Status"))?;
    push_values(alloc, &mut fields, b"User", form.lines("User"))?;
    let text = joined(alloc, form.lines("Description"))?;
    fields.push(text_field(alloc, b"Description", text.as_bytes())?)?;
    Ok(row_of(fields))
}

/// Adds the row of a job, if it is saved, from the table of forms alone.
fn push_job(
    alloc: Global,
    tables: &Tables,
    rows: &mut Sequence<Row>,
    name: &[u8],
) -> Result<(), AllocError>
    ensures { OnOk result ((d : List Deed) → IsSound d → HasRows (rows_of tables.now) d table_ids.Domain →
        rows.new ≡ rows.old ++ option_to_list (option_map model.job_row (job d name.now))) }
{
    if let Some(form) = saved_form(alloc, tables, SpecKind::Job, name)? {
        rows.push(job_row(alloc, &form)?)?;
    }
    Ok(())
}

/// `jobs`, from the table of forms alone.
pub fn job_list(alloc: Global, tables: &Tables) -> Result<Step, AllocError>
    ensures { IfOk result (λ step. (d : List Deed) → IsSound d → HasRows (rows_of tables.now) d table_ids.Domain →
        IsMade (rows_of tables.now) d d (model.jobs d) step) }
{
    let jobs = form_names(alloc, tables, SpecKind::Job)?;
    let names = jobs.as_slice();
    let mut rows = Sequence::new(alloc);
    for name in names {
        push_job(alloc, tables, &mut rows, name.as_bytes())?;
    }
    Ok(Step {
        rows,
        ..Step::new(alloc)
    })
}
