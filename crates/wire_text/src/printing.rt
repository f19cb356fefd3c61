//! The text of a reply.

ghost use Rattle.std.specs.Prelude.{◌≡◌, ◌++◌, IfOk, OnOk};
ghost use Rattle.depot_model.specs.Printed.{printed, printed_rows, printed_row, printed_fields, printed_value};

use crate::parts::cut_at;
use depot_model::paths::Text;
use depot_model::{Field, Reply, Row};
use itoa::Buffer;
use std::alloc::{AllocError, Global};

fn put_value(out: &mut Text, value: &[u8]) -> Result<(), AllocError>
    ensures { OnOk result (out.new ≡ out.old ++ printed_value value.now) }
{
    let mut rest = value;
    while let Some((line, after)) = cut_at(b'\n', rest) {
        out.append(line)?;
        out.append(b"\n\t")?;
        rest = after;
    }
    out.append(rest)?;
    Ok(())
}

fn put_fields(out: &mut Text, fields: &[Field]) -> Result<(), AllocError>
    ensures { OnOk result (out.new ≡ out.old ++ printed_fields fields.now) }
{
    for field in fields {
        out.append(b"... ")?;
        out.append(field.name.as_bytes())?;
        out.append(b" ")?;
        put_value(out, field.value.as_bytes())?;
        out.append(b"\n")?;
    }
    Ok(())
}

fn put_row(out: &mut Text, row: &Row) -> Result<(), AllocError>
    ensures { OnOk result (out.new ≡ out.old ++ printed_row row.now) }
{
    put_fields(out, row.fields.as_slice())?;
    out.append(b"\n")?;
    if let Some(content) = &row.content {
        out.append(content.as_bytes())?;
        out.append(b"\n")?;
    }
    Ok(())
}

fn put_rows(out: &mut Text, rows: &[Row]) -> Result<(), AllocError>
    ensures { OnOk result (out.new ≡ out.old ++ printed_rows rows.now) }
{
    for row in rows {
        put_row(out, row)?;
    }
    Ok(())
}

/// The bytes of the reply to the command of that number.
pub fn print_reply(alloc: Global, reply: &Reply, number: u32) -> Result<Text, AllocError>
    ensures { IfOk result (λ text. text ≡ printed reply.now.rows number) }
{
    let mut out = Text::new(alloc);
    put_rows(&mut out, reply.rows.as_slice())?;
    out.append(b"... end ")?;
    out.append(Buffer::new().format(number).as_bytes())?;
    out.append(b"\n\n")?;
    Ok(out)
}
