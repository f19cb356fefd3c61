//! `fix -c`, `fix -d -c` (Command-Line Reference, "p4 fix").

ghost use Rattle.std.specs.Prelude.{◌≡◌, List, IfOk, codes, is_some};
ghost use Rattle.depot_rows.specs.db_records.declared.table.TableId.TheVariants as table_ids;
ghost use Rattle.depot_rows.specs.table_changes.Changed.{rows_of};
ghost use Rattle.depot_rows.specs.depot_model.Deeds.{Deed};
ghost use Rattle.depot_rows.specs.depot_model.Fixes.{fix_form as form_of_fix};
ghost use Rattle.depot_rows.specs.depot_model.Numbers.{landing};
ghost use Rattle.depot_rows.specs.depot_model.Rules.{IsSound};
ghost use Rattle.depot_rows.specs.depot_model.Steps.Jobs as model;
ghost use Rattle.depot_rows.specs.Standing.{HasRows};
ghost use Rattle.reply_rows.specs.Made.{IsMade};

use crate::refusals::{count_new, distinct, is_landed, named_refusal};
use depot_rows::SpecKind;
use depot_rows::forms::{Form, Shape};
use depot_rows::model::{Caller, Limit, Row};
use depot_rows::paths::Text;
use depot_rows::tables::Tables;
use job_fixes::{close, digits, fix_name, fixes_of, is_on, save, with};
use reply_rows::{RowBuilder, Step, limit_row};
use row_reads::saved_form;
use std::alloc::{AllocError, Global};

/// The form of a fix that is on.
fn fix_form(alloc: Global, job: &[u8], change: u32, user: &[u8]) -> Result<Form, AllocError>
    ensures { IfOk result (λ form. form ≡ form_of_fix job.now change user.now (codes "on")) }
{
    let text = b"Job: job\nChange: 1\nUser: user\nState: on\n";
    let Ok(blank) = Form::read(alloc, text, Shape::Fix) else {
        return Err(AllocError);
    };
    let of_job = with(alloc, &blank, "Job", job)?;
    let number = digits(alloc, change)?;
    let of_change = with(alloc, &of_job, "Change", number.as_bytes())?;
    let form = with(alloc, &of_change, "User", user)?;
    Ok(form)
}

/// The row of a fix that is put on or taken off.
fn fixed_row(alloc: Global, name: &[u8], change: u32, word: &[u8]) -> Result<Row, AllocError>
    ensures { IfOk result (λ row. row ≡ model.fixed_row name.now change word.now) }
{
    let row = RowBuilder::new(alloc).text(b"Job", name)?;
    let row = row.number(b"Change", u64::from(change))?;
    let row = row.text(b"action", word)?;
    Ok(row.row())
}

/// The step of one job that a change fixes.
fn fix_job(
    alloc: Global,
    tables: &Tables,
    caller: &Caller,
    change: u32,
    landed: bool,
    name: &[u8],
) -> Result<Step, AllocError>
    ensures { IfOk result (λ step. (d e : List Deed) → IsSound d → HasRows (rows_of tables.now) d table_ids.Domain →
        landed ≡ is_some (landing d change) →
        IsMade (rows_of tables.now) d e (model.fix_job d caller.now change name.now) step) }
{
    let row = fixed_row(alloc, name, change, b"fixed")?;
    let form = fix_form(alloc, name, change, caller.user.as_bytes())?;
    let key = fix_name(alloc, name, change)?;
    let mut step = Step::tells(alloc, row)?;
    step.deeds.spec(SpecKind::Fix, key, form)?;
    if landed {
        close(alloc, tables, &mut step.deeds, name)?;
    }
    Ok(step)
}

/// `fix -c N JOB...`, from the tables of forms and changes: each job is one that the change fixes, and is closed where
/// the change is submitted. It is refused first where there is no such change, then the first job that isn't saved, and
/// that the change would have more than 100 fixes. It reads the fixes by the change.
pub fn fix(
    alloc: Global,
    tables: &Tables,
    caller: &Caller,
    change: u32,
    names: &[Text],
) -> Result<Step, AllocError>
    ensures { IfOk result (λ step. (d : List Deed) → IsSound d → HasRows (rows_of tables.now) d table_ids.Domain →
        HasRows (rows_of tables.now) d table_ids.Change →
        IsMade (rows_of tables.now) d d (model.fix d caller.now change names.now) step) }
{
    if let Some(row) = named_refusal(alloc, tables, change, names)? {
        return Step::tells(alloc, row);
    }
    let jobs = distinct(alloc, names)?;
    let each = jobs.as_slice();
    let there = fixes_of(alloc, tables, change)?.len();
    let new = count_new(alloc, tables, change, each)?;
    let all = there.saturating_add(new);
    if all > 100 {
        let row = limit_row(alloc, Limit::Fixes)?;
        return Step::tells(alloc, row);
    }
    let landed = is_landed(tables, change);
    let mut step = Step::new(alloc);
    for name in each {
        let more = fix_job(alloc, tables, caller, change, landed, name.as_bytes())?;
        step.add(more)?;
    }
    Ok(step)
}

/// The step of one job that a change fixes no more: nothing, where it doesn't fix it.
fn unfix_job(alloc: Global, tables: &Tables, change: u32, name: &[u8]) -> Result<Step, AllocError>
    ensures { IfOk result (λ step. (d e : List Deed) → IsSound d → HasRows (rows_of tables.now) d table_ids.Domain →
        IsMade (rows_of tables.now) d e (model.unfix_job d change name.now) step) }
{
    let key = fix_name(alloc, name, change)?;
    let Some(form) = saved_form(alloc, tables, SpecKind::Fix, key.as_bytes())? else {
        return Ok(Step::new(alloc));
    };
    if !is_on(&form) {
        return Ok(Step::new(alloc));
    }
    let row = fixed_row(alloc, name, change, b"deleted")?;
    let mut step = Step::tells(alloc, row)?;
    save(
        alloc,
        &mut step.deeds,
        SpecKind::Fix,
        key,
        &form,
        "State",
        b"off",
    )?;
    Ok(step)
}

/// `fix -d -c N JOB...`, from the tables of forms and changes: the change fixes the jobs no more. It is refused first
/// where there is no such change, and then the first job that isn't saved.
pub fn fix_delete(
    alloc: Global,
    tables: &Tables,
    change: u32,
    names: &[Text],
) -> Result<Step, AllocError>
    ensures { IfOk result (λ step. (d : List Deed) → IsSound d → HasRows (rows_of tables.now) d table_ids.Domain →
        HasRows (rows_of tables.now) d table_ids.Change →
        IsMade (rows_of tables.now) d d (model.fix_delete d change names.now) step) }
{
    if let Some(row) = named_refusal(alloc, tables, change, names)? {
        return Step::tells(alloc, row);
    }
    let jobs = distinct(alloc, names)?;
    let each = jobs.as_slice();
    let mut step = Step::new(alloc);
    for name in each {
        let more = unfix_job(alloc, tables, change, name.as_bytes())?;
        step.add(more)?;
    }
    Ok(step)
}
