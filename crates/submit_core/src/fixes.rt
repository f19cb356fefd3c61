//! The jobs that a submitted change closes.

ghost use Rattle.std.specs.Prelude.{◌==◌, List, OnOk, flat_map};
ghost use Rattle.depot_rows.specs.db_records.declared.table.TableId.TheVariants as table_ids;
ghost use Rattle.depot_rows.specs.depot_model.Deeds.{Deed};
ghost use Rattle.depot_rows.specs.depot_model.Fixes as model;
ghost use Rattle.depot_rows.specs.depot_model.Rules.{IsSound};
ghost use Rattle.depot_rows.specs.Standing.{HasRows};
ghost use Rattle.job_fixes.specs.Telling.{Tells};
ghost use Rattle.depot_rows.specs.table_changes.Changed.{rows_of};

use deed_list::Deeds;
use depot_rows::SpecKind;
use depot_rows::forms::Form;
use depot_rows::tables::Tables;
use job_fixes::{close, digits, fix_name, fixes_of, save};
use row_reads::form_value;
use std::alloc::{AllocError, Global};

/// A fix of a change that is submitted under another number becomes one of that number.
fn renumber(
    alloc: Global,
    deeds: &mut Deeds,
    change: u32,
    number: u32,
    form: &Form,
) -> Result<(), AllocError>
    ensures { OnOk result (Tells deeds.old deeds.new (model.renumbers change number form.now)) }
{
    let job = form_value(form, "Job");
    let name = fix_name(alloc, job, change)?;
    save(alloc, deeds, SpecKind::Fix, name, form, "State", b"off")?;
    let name = fix_name(alloc, job, number)?;
    let digits = digits(alloc, number)?;
    save(
        alloc,
        deeds,
        SpecKind::Fix,
        name,
        form,
        "Change",
        digits.as_bytes(),
    )?;
    Ok(())
}

/// The same, where the number is another one.
fn renumber_where(
    alloc: Global,
    deeds: &mut Deeds,
    change: u32,
    number: u32,
    form: &Form,
) -> Result<(), AllocError>
    ensures { OnOk result (Tells deeds.old deeds.new (model.renumbers_where (change == number) change number form.now)) }
{
    if change == number {
        return Ok(());
    }
    renumber(alloc, deeds, change, number, form)?;
    Ok(())
}

/// What a submit of a change under a number does for a fix.
fn add_closing(
    alloc: Global,
    tables: &Tables,
    deeds: &mut Deeds,
    change: u32,
    number: u32,
    form: &Form,
) -> Result<(), AllocError>
    ensures { OnOk result ((d : List Deed) → IsSound d → HasRows (rows_of tables.now) d table_ids.Domain →
        Tells deeds.old deeds.new (model.closing d change number form.now)) }
{
    renumber_where(alloc, deeds, change, number, form)?;
    close(alloc, tables, deeds, form_value(form, "Job"))?;
    Ok(())
}

/// What it does for fixes, in their order.
fn add_closings(
    alloc: Global,
    tables: &Tables,
    deeds: &mut Deeds,
    change: u32,
    number: u32,
    forms: &[Form],
) -> Result<(), AllocError>
    ensures { OnOk result ((d : List Deed) → IsSound d → HasRows (rows_of tables.now) d table_ids.Domain →
        Tells deeds.old deeds.new (flat_map (model.closing d change number) forms.now)) }
{
    for form in forms {
        add_closing(alloc, tables, deeds, change, number, form)?;
    }
    Ok(())
}

/// Adds what a submit of a change under a number does for the jobs that the change fixes: they are closed, and its
/// fixes are those of the number (Command-Line Reference, "p4 fix", "p4 submit"), from the table of forms alone. It
/// reads the fixes by the change. The one error is want of memory.
pub(crate) fn close_jobs(
    alloc: Global,
    tables: &Tables,
    deeds: &mut Deeds,
    change: u32,
    number: u32,
) -> Result<(), AllocError>
    ensures { OnOk result ((d : List Deed) → IsSound d → HasRows (rows_of tables.now) d table_ids.Domain →
        Tells deeds.old deeds.new (flat_map (model.closing d change number) (model.fixes_of d change))) }
{
    let forms = fixes_of(alloc, tables, change)?;
    add_closings(alloc, tables, deeds, change, number, forms.as_slice())?;
    Ok(())
}
