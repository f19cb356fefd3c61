//! Forms of jobs and fixes with another value, and jobs that are closed.

ghost use Rattle.std.specs.Prelude.{◌≡◌, ◌++◌, ◌∷◌, [], List, IfOk, OnOk, decimal};
ghost use Rattle.depot_rows.specs.db_records.declared.table.TableId.TheVariants as table_ids;
ghost use Rattle.depot_rows.specs.depot_model.Deeds.{Deed};
ghost use Rattle.depot_rows.specs.depot_model.Fixes as model;
ghost use Rattle.depot_rows.specs.depot_model.Rules.{IsSound};
ghost use Rattle.depot_rows.specs.Standing.{HasRows};
ghost use Rattle.depot_rows.specs.declared.deed.Deed.TheVariants as dones;
ghost use Rattle.depot_rows.specs.spec_form.Form.{with_field};
ghost use Rattle.job_fixes.specs.Telling.{Tells};
ghost use Rattle.depot_rows.specs.table_changes.Changed.{rows_of};

use deed_list::Deeds;
use depot_rows::SpecKind;
use depot_rows::forms::Form;
use depot_rows::paths::Text;
use depot_rows::tables::Tables;
use itoa::Buffer;
use row_reads::saved_form;
use std::alloc::{AllocError, Global};

/// A number in decimal digits. The one error, here and below, is want of memory.
pub fn digits(alloc: Global, number: u32) -> Result<Text, AllocError>
    ensures { IfOk result (λ text. text ≡ decimal number) }
{
    Text::from_bytes(alloc, Buffer::new().format(number).as_bytes())
}

/// The form with a value in a field. A form of a fix or a job has each of the fields that are given so, and each value
/// is one of a field.
pub fn with(alloc: Global, form: &Form, field: &str, value: &[u8]) -> Result<Form, AllocError>
    ensures { IfOk result (λ more. more ≡ with_field field.now value.now form.now) }
{
    match form.with(alloc, field, value) {
        Ok(more) => Ok(more),
        Err(_) => Err(AllocError),
    }
}

/// The name of a fix of a job by a change.
pub fn fix_name(alloc: Global, job: &[u8], change: u32) -> Result<Text, AllocError>
    ensures { IfOk result (λ name. name ≡ model.fix_name job.now change) }
{
    let mut name = Text::from_bytes(alloc, job)?;
    name.append(b" ")?;
    let digits = digits(alloc, change)?;
    name.append(digits.as_bytes())?;
    Ok(name)
}

/// Saves a form with a value in a field.
pub fn save(
    alloc: Global,
    deeds: &mut Deeds,
    kind: SpecKind,
    name: Text,
    form: &Form,
    field: &str,
    value: &[u8],
) -> Result<(), AllocError>
    ensures { OnOk result (deeds.new ≡ deeds.old ++ dones.Spec kind name (with_field field.now value.now form.now) ∷ []) }
{
    let form = with(alloc, form, field, value)?;
    deeds.spec(kind, name, form)
}

/// Closes a job, where it is saved (Command-Line Reference, "p4 fix"), from the table of forms alone.
pub fn close(
    alloc: Global,
    tables: &Tables,
    deeds: &mut Deeds,
    name: &[u8],
) -> Result<(), AllocError>
    ensures { OnOk result ((d : List Deed) → IsSound d → HasRows (rows_of tables.now) d table_ids.Domain →
        Tells deeds.old deeds.new (model.closes d name.now)) }
{
    let found = saved_form(alloc, tables, SpecKind::Job, name)?;
    let Some(form) = found else {
        return Ok(());
    };
    let name = Text::from_bytes(alloc, name)?;
    save(
        alloc,
        deeds,
        SpecKind::Job,
        name,
        &form,
        "Status",
        b"closed",
    )?;
    Ok(())
}
