//! Printing forms.

ghost use Rattle.std.specs.Prelude.{◌≡◌, ◌++◌, IfOk, OnOk};
ghost use Rattle.std.specs.List.{flat_map};
ghost use Rattle.spec_form.specs.Printing.{printed, printed_as, printed_field, tabbed, tabbed_line};

use crate::fields::Fields;
use crate::shape::{FieldKind, Shape};
use depot_path::Text;
use std::alloc::{AllocError, Global};

fn put_value(out: &mut Text, lines: &[Text]) -> Result<(), AllocError>
    ensures { OnOk result (out.new ≡ out.old ++ flat_map tabbed lines.now) }
{
    for line in lines {
        out.append(b"\t")?;
        out.append(line.as_bytes())?;
    }
    Ok(())
}

fn put_lines(out: &mut Text, lines: &[Text]) -> Result<(), AllocError>
    ensures { OnOk result (out.new ≡ out.old ++ flat_map tabbed_line lines.now) }
{
    for line in lines {
        out.append(b"\t")?;
        out.append(line.as_bytes())?;
        out.append(b"\n")?;
    }
    Ok(())
}

fn put_as(
    out: &mut Text,
    name: &[u8],
    lines: &[Text],
    kind: Option<FieldKind>,
) -> Result<(), AllocError>
    ensures { OnOk result (out.new ≡ out.old ++ printed_as kind (record { name = name.now; lines = lines.now })) }
{
    match kind {
        None => Ok(()),
        Some(FieldKind::Single) => {
            out.append(name)?;
            out.append(b":")?;
            put_value(out, lines)?;
            out.append(b"\n\n")
        }
        Some(FieldKind::Lines) => {
            out.append(name)?;
            out.append(b":\n")?;
            put_lines(out, lines)?;
            out.append(b"\n")
        }
    }
}

fn put_field(out: &mut Text, shape: Shape, name: &[u8], lines: &[Text]) -> Result<(), AllocError>
    ensures { OnOk result (out.new ≡ out.old ++ printed_field shape (record { name = name.now; lines = lines.now })) }
{
    put_as(out, name, lines, shape.kind(name))
}

/// The text of a form of this shape with these fields.
pub fn print_fields(alloc: Global, shape: Shape, fields: &Fields) -> Result<Text, AllocError>
    ensures { IfOk result (λ text. text ≡ printed shape fields.now) }
{
    let mut out = Text::new(alloc);
    for (name, lines) in fields.by_name() {
        put_field(&mut out, shape, name, lines.as_slice())?;
    }
    Ok(out)
}
