//! Reading forms.

ghost use Rattle.std.specs.Prelude.{◌≡◌, ◌≢◌, [], false, reverse, IfOk};
ghost use Rattle.depot_path.specs.Answers.{Answers, on_ok};
ghost use Rattle.spec_form.specs.Shapes.{seen_rows};
ghost use Rattle.spec_form.specs.Texts.{text_lines};
ghost use Rattle.spec_form.specs.Form.{value_lines as lines_of_value};
ghost use Rattle.spec_form.specs.Reading.{begun, continued, first_lines as first_lines_of, in_front, lacks, line_read, lines_read, new_field as field_of_line, no_memory};
ghost use Rattle.spec_form.specs.declared.fault.FormFaultKind.TheVariants.{Memory};

use crate::cut::{cut_at, first_line, trim_end, trim_start};
use crate::fault::{FormFault, FormFaultKind};
use crate::fields::Fields;
use crate::form::Field;
use crate::shape::{FieldKind, FieldRow, Shape};
use depot_path::{Sequence, Text};
use std::alloc::{AllocError, Global};

/// The lines of a single field of this value.
pub fn value_lines(alloc: Global, value: &[u8]) -> Result<Sequence<Text>, AllocError>
    ensures { IfOk result (λ lines. lines ≡ lines_of_value value.now) }
{
    let mut lines = Sequence::new(alloc);
    match value {
        [] => Ok(lines),
        [_, ..] => {
            lines.push(Text::from_bytes(alloc, value)?)?;
            Ok(lines)
        }
    }
}

/// The first lines of a field, of what follows its name.
fn first_lines(alloc: Global, kind: FieldKind, rest: &[u8]) -> Result<Sequence<Text>, AllocError>
    ensures { IfOk result (λ lines. lines ≡ first_lines_of kind rest.now) }
{
    match kind {
        FieldKind::Single => value_lines(alloc, trim_start(rest)),
        FieldKind::Lines => value_lines(alloc, trim_end(trim_start(rest))),
    }
}

/// Whether a field is absent that these rows require.
pub fn lacks_required(mut rows: &[FieldRow], fields: &Fields) -> bool
    ensures { result ≡ lacks (seen_rows rows.entry.now) fields.now }
{
    while let [row, rest @ ..] = rows {
        if row.2 && !fields.has(row.0) {
            return true;
        }
        rows = rest;
    }
    false
}

/// A field of this name and kind.
fn begin(
    alloc: Global,
    kind: Option<FieldKind>,
    name: &[u8],
    rest: &[u8],
) -> Result<Field, FormFaultKind>
    ensures { Answers FormFaultKind.Memory result (begun kind false name.now rest.now) }
{
    match kind {
        None => Err(FormFaultKind::UnknownField),
        Some(kind) => Ok(Field {
            name: Text::from_bytes(alloc, name)?,
            lines: first_lines(alloc, kind, rest)?,
        }),
    }
}

/// The field that a line begins, whatever fields there are.
fn new_field(alloc: Global, shape: Shape, line: &[u8]) -> Result<Field, FormFaultKind>
    ensures { Answers FormFaultKind.Memory result (field_of_line shape line.now []) }
{
    match cut_at(line, b':') {
        None => Err(FormFaultKind::NoField),
        Some((name, rest)) => begin(alloc, shape.kind(name), name, rest),
    }
}

/// Reads a further line, which the last field goes on with.
fn read_further(
    alloc: Global,
    shape: Shape,
    line: &[u8],
    fields: &mut Fields,
) -> Result<(), FormFaultKind>
    ensures { Answers FormFaultKind.Memory (on_ok (λ _. reverse fields.new) result) (continued shape line.now (reverse fields.old)) }
{
    match fields.last_kind(shape) {
        Some(FieldKind::Lines) => {
            fields.add_line(Text::from_bytes(alloc, trim_end(trim_start(line)))?)?;
            Ok(())
        }
        Some(FieldKind::Single) | None => Err(FormFaultKind::NoField),
    }
}

/// Reads the line that begins a field.
fn read_first(
    alloc: Global,
    shape: Shape,
    line: &[u8],
    fields: &mut Fields,
) -> Result<(), FormFaultKind>
    ensures { Answers FormFaultKind.Memory (on_ok (λ _. reverse fields.new) result) (in_front (reverse fields.old) (field_of_line shape line.now (reverse fields.old))) }
{
    fields.add(new_field(alloc, shape, line)?)
}

/// Reads one line into the fields.
fn read_line(
    alloc: Global,
    shape: Shape,
    line: &[u8],
    fields: &mut Fields,
) -> Result<(), FormFaultKind>
    ensures { Answers FormFaultKind.Memory (on_ok (λ _. reverse fields.new) result) (line_read shape line.now (reverse fields.old)) }
{
    match line {
        [] => Ok(()),
        [b'#', ..] => Ok(()),
        [b' ' | b'\t', ..] => read_further(alloc, shape, line, fields),
        [_, ..] => read_first(alloc, shape, line, fields),
    }
}

/// A fault of a line, or want of memory, which is of none.
fn fault_at(what: FormFaultKind, line: usize) -> FormFault
    ensures memory { what ≡ Memory → result ≡ no_memory }
    ensures other { what ≢ Memory → result ≡ record { what = what; line = line } }
{
    match what {
        FormFaultKind::Memory => FormFault::whole(what),
        _ => FormFault { what, line },
    }
}

/// Reads the fields of a form, line by line.
pub fn read_fields(alloc: Global, text: &[u8], shape: Shape) -> Result<Fields, FormFault>
    ensures { Answers no_memory (on_ok (λ fields. reverse fields) result) (lines_read shape 1 (text_lines text.now) []) }
{
    let mut fields = Fields::new(alloc);
    let mut rest = text;
    let mut number = 1;
    while !rest.is_empty() {
        let (line, behind) = first_line(rest);
        if let Err(what) = read_line(alloc, shape, line, &mut fields) {
            return Err(fault_at(what, number));
        }
        rest = behind;
        number += 1;
    }
    Ok(fields)
}
