//! `label`, `labels` (Command-Line Reference, "p4 label", "p4 labels").

ghost use Rattle.std.specs.Prelude.{◌≡◌, ◌++◌, ◌&&◌, List, IfOk, OnOk, option_map};
ghost use Rattle.std.specs.Option.{option_to_list};
ghost use Rattle.depot_rows.specs.db_records.declared.table.TableId.TheVariants as table_ids;
ghost use Rattle.depot_rows.specs.table_changes.Changed.{rows_of};
ghost use Rattle.depot_rows.specs.depot_model.Deeds.{Deed, LabelForm};
ghost use Rattle.depot_rows.specs.depot_model.Latest.{spec};
ghost use Rattle.depot_rows.specs.depot_model.Rules.{IsSound};
ghost use Rattle.depot_rows.specs.depot_model.Steps.Labels as model;
ghost use Rattle.depot_rows.specs.Standing.{HasRows};
ghost use Rattle.reply_rows.specs.Made.{IsMade};

use crate::saving::{keep_form, shown_row};
use command_parts::{named, unread};
use depot_rows::SpecKind;
use depot_rows::forms::{Form, Shape};
use depot_rows::model::Row;
use depot_rows::paths::{Name, Sequence, is_name};
use depot_rows::tables::Tables;
use reply_rows::{Step, bad_form_row, label_locked_row, push_values, row_of, text_field};
use row_reads::{form_names, form_value, is_locked_form, is_locked_label, saved_form};
use std::alloc::{AllocError, Global};

/// `label -o NAME`, from the table of forms alone.
pub fn label_show(alloc: Global, tables: &Tables, name: &Name) -> Result<Step, AllocError>
    ensures { IfOk result (λ step. (d : List Deed) → IsSound d → HasRows (rows_of tables.now) d table_ids.Domain →
        IsMade (rows_of tables.now) d d (model.label_show d name.now) step) }
{
    let row = shown_row(alloc, tables, SpecKind::Label, b"Label", name.as_bytes())?;
    Step::tells(alloc, row)
}

/// Whether a form leaves a locked label locked, from the table of forms alone.
fn stays_locked(
    alloc: Global,
    tables: &Tables,
    name: &Name,
    form: &Form,
) -> Result<bool, AllocError>
    ensures { IfOk result (λ stays. (d : List Deed) → IsSound d → HasRows (rows_of tables.now) d table_ids.Domain →
        stays ≡ (model.is_locked d name.now && model.is_locked_form form.now)) }
{
    let locked = is_locked_label(alloc, tables, name)?;
    Ok(locked && is_locked_form(form))
}

/// The step of a form that could be read.
fn save(alloc: Global, tables: &Tables, form: Form) -> Result<Step, AllocError>
    ensures { IfOk result (λ step. (d : List Deed) → IsSound d → HasRows (rows_of tables.now) d table_ids.Domain →
        IsMade (rows_of tables.now) d d (model.saved d form) step) }
{
    let label = form_value(&form, "Label");
    if !is_name(label) {
        let row = bad_form_row(alloc, 0)?;
        return Step::tells(alloc, row);
    }
    let name = named(alloc, label)?;
    if stays_locked(alloc, tables, &name, &form)? {
        let row = label_locked_row(alloc, &name)?;
        return Step::tells(alloc, row);
    }
    keep_form(alloc, SpecKind::Label, "Label", form)
}

/// `label -i`: the form that the input spells is saved. It is refused first where it can't be read, then that its name
/// is none, and that the label is locked and stays so. Of the tables it reads that of forms alone.
pub fn label_save(alloc: Global, tables: &Tables, input: &[u8]) -> Result<Step, AllocError>
    ensures { IfOk result (λ step. (d : List Deed) → IsSound d → HasRows (rows_of tables.now) d table_ids.Domain →
        IsMade (rows_of tables.now) d d (model.label_save d input.now) step) }
{
    match Form::read(alloc, input, Shape::Label) {
        Ok(form) => save(alloc, tables, form),
        Err(fault) => unread(alloc, fault),
    }
}

/// The row of a label.
fn listed_row(alloc: Global, name: &[u8], form: &Form) -> Result<Row, AllocError>
    ensures { IfOk result (λ row. row ≡ model.listed name.now form.now) }
{
    let mut fields = Sequence::new(alloc);
    fields.push(text_field(alloc, b"label", name)?)?;
    push_values(alloc, &mut fields, b"options", form.lines("Options"))?;
    Ok(row_of(fields))
}

/// Adds the row of a label, if it is saved, from the table of forms alone.
fn push_label(
    alloc: Global,
    tables: &Tables,
    rows: &mut Sequence<Row>,
    name: &[u8],
) -> Result<(), AllocError>
    ensures { OnOk result ((d : List Deed) → IsSound d → HasRows (rows_of tables.now) d table_ids.Domain →
        rows.new ≡ rows.old ++ option_to_list (option_map (model.listed name.now) (spec d LabelForm name.now))) }
{
    if let Some(form) = saved_form(alloc, tables, SpecKind::Label, name)? {
        rows.push(listed_row(alloc, name, &form)?)?;
    }
    Ok(())
}

/// `labels`, from the table of forms alone.
pub fn label_list(alloc: Global, tables: &Tables) -> Result<Step, AllocError>
    ensures { IfOk result (λ step. (d : List Deed) → IsSound d → HasRows (rows_of tables.now) d table_ids.Domain →
        IsMade (rows_of tables.now) d d (model.labels d) step) }
{
    let labels = form_names(alloc, tables, SpecKind::Label)?;
    let names = labels.as_slice();
    let mut rows = Sequence::new(alloc);
    for name in names {
        push_label(alloc, tables, &mut rows, name.as_bytes())?;
    }
    Ok(Step {
        rows,
        ..Step::new(alloc)
    })
}
