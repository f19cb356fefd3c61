//! The fields of forms, as rows show them: a single field's value where it has one, and the lines of another field
//! numbered from 0.

ghost use Rattle.std.specs.Prelude.{◌≡◌, ◌++◌, ◌+◌, map, decimal, IfOk, OnOk};
ghost use Rattle.std.specs.List.{enumerate_from};
ghost use Rattle.depot_rows.specs.depot_model.FormRows.{form_fields as fields_of_form, numbered, shown_as, shown_field};
ghost use Rattle.depot_rows.specs.depot_model.Rows.{text_field as field_of_text};

use crate::fields::text_field;
use depot_rows::forms::{FieldKind, Form, Shape};
use depot_rows::model::Field;
use depot_rows::paths::{Sequence, Text};
use itoa::Buffer;
use std::alloc::{AllocError, Global};

/// A field with a number behind its name.
fn numbered_field(
    alloc: Global,
    name: &[u8],
    index: usize,
    line: &[u8],
) -> Result<Field, AllocError>
    ensures { IfOk result (λ field. field ≡ field_of_text (name.now ++ decimal index) line.now) }
{
    let mut numbered = Text::from_bytes(alloc, name)?;
    numbered.append(Buffer::new().format(index).as_bytes())?;
    Ok(Field {
        name: numbered,
        value: Text::from_bytes(alloc, line)?,
    })
}

/// Adds lines as fields with this name and the lines' numbers, from 0.
pub fn push_numbered(
    alloc: Global,
    fields: &mut Sequence<Field>,
    name: &[u8],
    lines: &[Text],
) -> Result<(), AllocError>
    ensures { OnOk result (fields.new ≡ fields.old ++ map (numbered name.now) (enumerate_from 0 lines.now)) }
{
    let mut rest = lines;
    let mut index = 0;
    while let [line, later @ ..] = rest {
        fields.push(numbered_field(alloc, name, index, line.as_bytes())?)?;
        rest = later;
        index += 1;
    }
    Ok(())
}

/// Adds each of some lines as a field with this name.
pub fn push_values(
    alloc: Global,
    fields: &mut Sequence<Field>,
    name: &[u8],
    lines: &[Text],
) -> Result<(), AllocError>
    ensures { OnOk result (fields.new ≡ fields.old ++ map (field_of_text name.now) lines.now) }
{
    let mut rest = lines;
    while let [line, later @ ..] = rest {
        fields.push(text_field(alloc, name, line.as_bytes())?)?;
        rest = later;
    }
    Ok(())
}

/// Adds the lines of a field of a kind.
fn push_as(
    alloc: Global,
    fields: &mut Sequence<Field>,
    kind: Option<FieldKind>,
    name: &[u8],
    lines: &[Text],
) -> Result<(), AllocError>
    ensures { OnOk result (fields.new ≡ fields.old ++ shown_as kind (record { name = name.now; lines = lines.now })) }
{
    match kind {
        Some(FieldKind::Single) => push_values(alloc, fields, name, lines),
        Some(FieldKind::Lines) => push_numbered(alloc, fields, name, lines),
        None => Ok(()),
    }
}

/// Adds the lines of a field of a form of this shape.
fn push_field(
    alloc: Global,
    fields: &mut Sequence<Field>,
    shape: Shape,
    name: &[u8],
    lines: &[Text],
) -> Result<(), AllocError>
    ensures { OnOk result (fields.new ≡ fields.old ++
        shown_field shape (record { name = name.now; lines = lines.now })) }
{
    push_as(alloc, fields, shape.kind(name), name, lines)
}

/// The fields of a form as a row shows them, in the form's order.
pub fn form_fields(alloc: Global, form: &Form) -> Result<Sequence<Field>, AllocError>
    ensures { IfOk result (λ fields. fields ≡ fields_of_form form.now) }
{
    let shape = form.shape();
    let mut fields = Sequence::new(alloc);
    for (name, lines) in form.fields().by_name() {
        push_field(alloc, &mut fields, shape, name, lines.as_slice())?;
    }
    Ok(fields)
}
