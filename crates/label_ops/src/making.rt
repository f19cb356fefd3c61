//! Labels that a command makes.

ghost use Rattle.std.specs.Prelude.{◌≡◌, ◌∷◌, ◌++◌, [], List, IfOk, codes};
ghost use Rattle.depot_rows.specs.db_records.declared.table.TableId.TheVariants as table_ids;
ghost use Rattle.depot_rows.specs.table_changes.Changed.{rows_of};
ghost use Rattle.depot_rows.specs.spec_form.declared.shape.Shape.TheVariants as shapes;
ghost use Rattle.depot_rows.specs.depot_model.Deeds.{Deed};
ghost use Rattle.depot_rows.specs.depot_model.Steps.Tagging.{made_label};
ghost use Rattle.depot_rows.specs.depot_model.Values.{valued};
ghost use Rattle.depot_rows.specs.Standing.{HasRows};
ghost use Rattle.reply_rows.specs.Made.{IsMade};
ghost use Rattle.label_ops.specs.Tagged.{saved_label};

use depot_rows::SpecKind;
use depot_rows::forms::{Form, Shape};
use depot_rows::paths::{Name, Text};
use depot_rows::tables::Tables;
use reply_rows::Step;
use row_reads::is_label;
use std::alloc::{AllocError, Global};

/// The text of the form of a label without further fields.
fn label_text(alloc: Global, label: &[u8]) -> Result<Text, AllocError>
    ensures { IfOk result (λ text. text ≡ codes "Label:\t" ++ label.now ++ codes "\n\n") }
{
    let mut text = Text::from_bytes(alloc, b"Label:\t")?;
    text.append(label)?;
    text.append(b"\n\n")?;
    Ok(text)
}

/// The form of a label without further fields.
fn label_form(alloc: Global, label: &Name) -> Result<Form, AllocError>
    ensures { IfOk result (λ form. form ≡
        record { shape = shapes.Label; fields = valued (codes "Label") label.now ∷ [] }) }
{
    let text = label_text(alloc, label.as_bytes())?;
    match Form::read(alloc, text.as_bytes(), Shape::Label) {
        Ok(form) => Ok(form),
        Err(_) => Err(AllocError),
    }
}

/// The step that saves the form of a label that isn't saved.
fn save_label(alloc: Global, label: &Name) -> Result<Step, AllocError>
    ensures { IfOk result (λ step. step ≡ saved_label label.now) }
{
    let name = Text::from_bytes(alloc, label.as_bytes())?;
    let form = label_form(alloc, label)?;
    let mut step = Step::new(alloc);
    step.deeds.spec(SpecKind::Label, name, form)?;
    Ok(step)
}

/// The step that makes a label where it is absent (Command-Line Reference, "p4 tag"), from the table of forms alone.
pub(crate) fn make_label(alloc: Global, tables: &Tables, label: &Name) -> Result<Step, AllocError>
    ensures { IfOk result (λ step. (d e : List Deed) → HasRows (rows_of tables.now) d table_ids.Domain →
        IsMade (rows_of tables.now) d e (record { deeds = made_label d label.now; rows = [] }) step) }
{
    let there = is_label(alloc, tables, label)?;
    if there {
        let step = Step::new(alloc);
        Ok(step)
    } else {
        let step = save_label(alloc, label)?;
        Ok(step)
    }
}
