//! Fixes that are on, of a change and of a job (Command-Line Reference, "p4 fix", "p4 fixes").

ghost use Rattle.std.specs.List.{cons_option};
ghost use Rattle.std.specs.Option.{option_map_or};
ghost use Rattle.std.specs.Prelude.{◌≡◌, ◌++◌, ◌∷◌, [], true, List, IfOk, OnOk, decimal, filter, option_map};
ghost use Rattle.depot_rows.specs.depot_path.Bytes.{same};
ghost use Rattle.depot_rows.specs.db_records.declared.table.TableId.TheVariants as table_ids;
ghost use Rattle.depot_rows.specs.depot_model.Deeds.{Deed, FixForm};
ghost use Rattle.depot_rows.specs.depot_model.Fixes as model;
ghost use Rattle.depot_rows.specs.depot_model.Latest.{spec};
ghost use Rattle.depot_rows.specs.depot_model.Rules.{IsSound};
ghost use Rattle.depot_rows.specs.depot_model.Steps.Jobs as steps;
ghost use Rattle.depot_rows.specs.Standing.{HasRows};
ghost use Rattle.job_fixes.specs.Fixes.{fixes_among, is_asked as is_asked_in, names_asked};
ghost use Rattle.depot_rows.specs.table_changes.Changed.{rows_of};

use crate::closing::digits;
use depot_rows::SpecKind;
use depot_rows::forms::Form;
use depot_rows::paths::{Sequence, Text};
use depot_rows::tables::Tables;
use named_forms::{fix_names, names_with};
use row_reads::{form_names, form_value, saved_form};
use std::alloc::{AllocError, Global};

/// Whether a fix is on.
pub fn is_on(form: &Form) -> bool
    ensures { result ≡ model.is_on form.now }
{
    form_value(form, "State") == b"on".as_slice()
}

/// Whether a value is the one that is asked for, if one is.
fn agrees(value: &[u8], asked: &Option<Text>) -> bool
    ensures { result ≡ option_map_or (same value.now) asked.now true }
{
    match asked {
        Some(text) => value == text.as_bytes(),
        None => true,
    }
}

/// Whether a form is of a fix that is on, of a change with these digits and of a job, as far as they are asked for.
fn is_asked(form: &Form, change: &Option<Text>, job: &Option<Text>) -> bool
    ensures { result ≡ is_asked_in change.now job.now form.now }
{
    is_on(form)
        && (agrees(form_value(form, "Change"), change) && agrees(form_value(form, "Job"), job))
}

/// Adds the fix of a name, where it is asked for.
fn add_fix(
    alloc: Global,
    tables: &Tables,
    forms: &mut Sequence<Form>,
    change: &Option<Text>,
    job: &Option<Text>,
    name: &Text,
) -> Result<(), AllocError>
    ensures { OnOk result ((d : List Deed) → IsSound d → HasRows (rows_of tables.now) d table_ids.Domain →
        forms.new ≡ forms.old ++ filter (is_asked_in change.now job.now) (cons_option (spec d FixForm name.now) [])) }
{
    let found = saved_form(alloc, tables, SpecKind::Fix, name.as_bytes())?;
    if let Some(form) = found {
        if is_asked(&form, change, job) {
            forms.push(form)?;
        }
    }
    Ok(())
}

/// The fixes of these names that are asked for.
fn fixes_named(
    alloc: Global,
    tables: &Tables,
    change: &Option<Text>,
    job: &Option<Text>,
    names: &[Text],
) -> Result<Sequence<Form>, AllocError>
    ensures { IfOk result (λ forms. (d : List Deed) → IsSound d → HasRows (rows_of tables.now) d table_ids.Domain →
        forms ≡ fixes_among d change.now job.now names.now) }
{
    let mut forms = Sequence::new(alloc);
    for name in names {
        add_fix(alloc, tables, &mut forms, change, job, name)?;
    }
    Ok(forms)
}

/// The digits of a change that is asked for.
fn digits_of(alloc: Global, change: Option<u32>) -> Result<Option<Text>, AllocError>
    ensures { IfOk result (λ text. text ≡ option_map decimal change) }
{
    match change {
        Some(number) => {
            let text = digits(alloc, number)?;
            Ok(Some(text))
        }
        None => Ok(None),
    }
}

/// What the names of the fixes of a job begin with: its name and a space.
fn fix_beginning(alloc: Global, job: &Text) -> Result<Text, AllocError>
    ensures { IfOk result (λ start. start ≡ job.now ++ 0x20 ∷ []) }
{
    let mut start = Text::from_bytes(alloc, job.as_bytes())?;
    start.append(b" ")?;
    Ok(start)
}

/// The names of the fixes by a change, where one is asked for by its digits, else of those of a job, where one is asked
/// for, else of all.
fn asked_names(
    alloc: Global,
    tables: &Tables,
    change: &Option<Text>,
    job: &Option<Text>,
) -> Result<Sequence<Text>, AllocError>
    ensures { IfOk result (λ names. (d : List Deed) → HasRows (rows_of tables.now) d table_ids.Domain →
        names ≡ names_asked d change.now job.now) }
{
    match (change, job) {
        (Some(change), _) => fix_names(alloc, tables, change.as_bytes()),
        (None, Some(job)) => {
            let start = fix_beginning(alloc, job)?;
            let names = names_with(alloc, tables, b"fix", start.as_bytes())?;
            Ok(names)
        }
        (None, None) => form_names(alloc, tables, SpecKind::Fix),
    }
}

/// The fixes that are on, by name, of a change and of a job, as far as they are asked for, from the table of forms
/// alone. It reads the fixes by the change, or where none is asked for those of the job, or all. The one error is want
/// of memory.
pub fn fixes_asked(
    alloc: Global,
    tables: &Tables,
    change: Option<u32>,
    job: &Option<Text>,
) -> Result<Sequence<Form>, AllocError>
    ensures { IfOk result (λ forms. (d : List Deed) → IsSound d → HasRows (rows_of tables.now) d table_ids.Domain →
        forms ≡ filter (steps.is_wanted change job.now) (model.fixes_on d)) }
{
    let change = digits_of(alloc, change)?;
    let names = asked_names(alloc, tables, &change, job)?;
    let forms = fixes_named(alloc, tables, &change, job, names.as_slice())?;
    Ok(forms)
}

/// The fixes of a change that are on, by name (Command-Line Reference, "p4 fix"), from the table of forms alone. It
/// reads the fixes by the change. The one error is want of memory.
pub fn fixes_of(alloc: Global, tables: &Tables, change: u32) -> Result<Sequence<Form>, AllocError>
    ensures { IfOk result (λ forms. (d : List Deed) → IsSound d → HasRows (rows_of tables.now) d table_ids.Domain →
        forms ≡ model.fixes_of d change) }
{
    let forms = fixes_asked(alloc, tables, Some(change), &None)?;
    Ok(forms)
}
