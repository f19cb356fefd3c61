//! What the commands share that save forms or show them.

ghost use Rattle.std.specs.Prelude.{◌≡◌, ◌∷◌, [], List, IfOk};
ghost use Rattle.depot_rows.specs.db_records.declared.table.TableId.TheVariants as table_ids;
ghost use Rattle.depot_rows.specs.table_changes.Changed.{AllRows, rows_of};
ghost use Rattle.depot_rows.specs.depot_model.Deeds.{Deed, Spec};
ghost use Rattle.depot_rows.specs.depot_model.Latest.{spec};
ghost use Rattle.depot_rows.specs.depot_model.Rules.{IsSound};
ghost use Rattle.depot_rows.specs.depot_model.Step.{does};
ghost use Rattle.depot_rows.specs.depot_model.Values.{value_of};
ghost use Rattle.depot_rows.specs.Deed.{kind_of};
ghost use Rattle.depot_rows.specs.Standing.{HasRows};
ghost use Rattle.reply_rows.specs.Made.{IsMade};
ghost use Rattle.spec_ops.specs.Saving.{saved_row as row_of_saved, shown};

use depot_rows::SpecKind;
use depot_rows::forms::Form;
use depot_rows::model::Row;
use depot_rows::paths::Text;
use depot_rows::tables::Tables;
use reply_rows::{RowBuilder, Step, form_fields, row_of};
use row_reads::{form_value, saved_form};
use std::alloc::{AllocError, Global};

/// The row that tells that something is saved, by its name.
pub(crate) fn saved_row(alloc: Global, field: &[u8], name: &[u8]) -> Result<Row, AllocError>
    ensures { IfOk result (λ row. row ≡ row_of_saved field.now name.now) }
{
    let row = RowBuilder::new(alloc).text(field, name)?;
    let row = row.text(b"action", b"saved")?;
    Ok(row.row())
}

/// The step that saves a form under the name that it has in a field.
pub(crate) fn keep_form(
    alloc: Global,
    kind: SpecKind,
    field: &str,
    form: Form,
) -> Result<Step, AllocError>
    ensures { IfOk result (λ step. (all : AllRows) (d : List Deed) →
        IsMade all d d (does (Spec (kind_of kind) (value_of form field.now) form ∷ []) (row_of_saved field.now (value_of form field.now))) step) }
{
    let name = Text::from_bytes(alloc, form_value(&form, field))?;
    let row = saved_row(alloc, field.as_bytes(), name.as_bytes())?;
    let mut step = Step::tells(alloc, row)?;
    step.deeds.spec(kind, name, form)?;
    Ok(step)
}

/// The row of the form that is saved under a name, or of the name where none is, from the table of forms alone.
pub(crate) fn shown_row(
    alloc: Global,
    tables: &Tables,
    kind: SpecKind,
    field: &[u8],
    name: &[u8],
) -> Result<Row, AllocError>
    ensures { IfOk result (λ row. (d : List Deed) → IsSound d → HasRows (rows_of tables.now) d table_ids.Domain →
        row ≡ shown field.now name.now (spec d (kind_of kind) name.now)) }
{
    match saved_form(alloc, tables, kind, name)? {
        Some(form) => Ok(row_of(form_fields(alloc, &form)?)),
        None => Ok(RowBuilder::new(alloc).text(field, name)?.row()),
    }
}
