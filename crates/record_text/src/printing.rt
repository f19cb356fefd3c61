//! Printing a record.

ghost use Rattle.std.specs.Prelude.{◌≡◌, ◌++◌, OnOk, IfOk};
ghost use Rattle.record_text.specs.Spelling.{spelled_number, spelled_text, doubled};
ghost use Rattle.record_text.specs.Layout.{version_text, version_of, table_text, parts_of, working_parts, rev_parts, is_move};
ghost use Rattle.record_text.specs.Grammar.{spelling, parts_spelling};
ghost use Rattle.record_text.specs.Printing.{spelled_field, fields_spelled};

use crate::field::Field;
use crate::layout::Layout;
use crate::tables::with_fields;
use crate::text::moves;
use crate::word::Word;
use db_records::paths::Text;
use db_records::{Op, Record, RevRecord, WorkingRecord};
use itoa::Buffer;
use std::alloc::{AllocError, Global};

/// A field of a row as it is written.
macro_rules! shown {
    ($row:ident, $field:ident, line) => { Field::Number($row.$field as u64) };
    ($row:ident, $field:ident, count) => { Field::Number($row.$field as u64) };
    ($row:ident, $field:ident, wide) => { Field::Number($row.$field) };
    ($row:ident, $field:ident, $kind:ident) => { Field::Text(&$row.$field) };
}

/// The fields of a row as they are written.
macro_rules! fields {
    ($row:ident, $($field:ident: $kind:ident),+) => { &[$(shown!($row, $field, $kind)),+] };
}

/// Writes a number and the byte that ends it.
fn put_number(out: &mut Vec<u8>, number: u64, ender: u8) -> Result<(), AllocError>
    ensures { OnOk result (out.new.items ≡ out.old.items ++ spelled_number ender number) }
{
    let mut buffer = Buffer::new();
    out.extend_from_slice(buffer.format(number).as_bytes())?;
    out.push(ender)?;
    Ok(())
}

/// Writes the bytes of a text, each sign doubled.
fn put_doubled(out: &mut Vec<u8>, text: &[u8]) -> Result<(), AllocError>
    ensures { OnOk result (out.new.items ≡ out.old.items ++ doubled text.now) }
{
    for byte in text {
        if *byte == b'@' {
            out.push(b'@')?;
        }
        out.push(*byte)?;
    }
    Ok(())
}

/// Writes a text between signs and the byte that ends it.
fn put_text(out: &mut Vec<u8>, text: &Text, ender: u8) -> Result<(), AllocError>
    ensures { OnOk result (out.new.items ≡ out.old.items ++ spelled_text ender text.now) }
{
    out.push(b'@')?;
    put_doubled(out, text.as_bytes())?;
    out.push(b'@')?;
    out.push(ender)?;
    Ok(())
}

/// Writes a field and the byte that ends it.
fn put_field(out: &mut Vec<u8>, field: &Field, ender: u8) -> Result<(), AllocError>
    ensures { OnOk result (out.new.items ≡ out.old.items ++ spelled_field ender field.now) }
{
    match field {
        Field::Number(number) => put_number(out, *number, ender),
        Field::Text(text) => put_text(out, text, ender),
    }
}

/// Writes the version, the table and the fields of a row.
fn put_row(out: &mut Vec<u8>, layout: Layout, fields: &[Field]) -> Result<(), AllocError>
    ensures { OnOk result (out.new.items ≡ out.old.items ++ (version_text (version_of layout) ++ (table_text layout ++ fields_spelled fields.now))) }
{
    out.extend_from_slice(layout.version().text())?;
    out.extend_from_slice(layout.text())?;
    put_fields(out, fields)
}

/// Writes the fields, with a space behind each but the last, and a line feed behind that one.
fn put_fields(out: &mut Vec<u8>, fields: &[Field]) -> Result<(), AllocError>
    ensures { OnOk result (out.new.items ≡ out.old.items ++ fields_spelled fields.now) }
{
    let mut rest = fields;
    while let [field, after @ ..] = rest {
        let ender = if after.is_empty() { b'\n' } else { b' ' };
        put_field(out, field, ender)?;
        rest = after;
    }
    Ok(())
}

/// Writes the version, the table and the fields of an opened file.
fn put_working(out: &mut Vec<u8>, row: &WorkingRecord) -> Result<(), AllocError>
    ensures { OnOk result (out.new.items ≡ out.old.items ++ parts_spelling (working_parts (is_move row.now.action) row.now)) }
{
    if moves(&row.action) {
        put_row(
            out,
            Layout::MovedWorking,
            with_fields!(MovedWorking, fields, row),
        )
    } else {
        put_row(out, Layout::Working, with_fields!(Working, fields, row))
    }
}

/// Writes the version, the table and the fields of a revision.
fn put_rev(out: &mut Vec<u8>, row: &RevRecord) -> Result<(), AllocError>
    ensures { OnOk result (out.new.items ≡ out.old.items ++ parts_spelling (rev_parts (is_move row.now.action) row.now)) }
{
    if moves(&row.action) {
        put_row(out, Layout::MovedRev, with_fields!(MovedRev, fields, row))
    } else {
        put_row(out, Layout::Rev, with_fields!(Rev, fields, row))
    }
}

/// Writes the version, the table and the fields of a record.
fn put_record(out: &mut Vec<u8>, row: &Record) -> Result<(), AllocError>
    ensures { OnOk result (out.new.items ≡ out.old.items ++ parts_spelling (parts_of row.now)) }
{
    match row {
        Record::Counter(row) => put_row(out, Layout::Counter, with_fields!(Counter, fields, row)),
        Record::Group(row) => put_row(out, Layout::Group, with_fields!(Group, fields, row)),
        Record::Protect(row) => put_row(out, Layout::Protect, with_fields!(Protect, fields, row)),
        Record::Domain(row) => put_row(out, Layout::Domain, with_fields!(Domain, fields, row)),
        Record::Have(row) => put_row(out, Layout::Have, with_fields!(Have, fields, row)),
        Record::Label(row) => put_row(out, Layout::Label, with_fields!(Label, fields, row)),
        Record::Integed(row) => put_row(out, Layout::Integed, with_fields!(Integed, fields, row)),
        Record::Resolve(row) => put_row(out, Layout::Resolve, with_fields!(Resolve, fields, row)),
        Record::Working(row) => put_working(out, row),
        Record::Change(row) => put_row(out, Layout::Change, with_fields!(Change, fields, row)),
        Record::Rev(row) => put_rev(out, row),
    }
}

/// Writes a row with its operator behind a text. The one error is want of memory, and then the text is gone.
pub fn append_record(text: Text, op: Op, row: &Record) -> Result<Text, AllocError>
    ensures { IfOk result (λ longer. longer ≡ text ++ spelling op row.now) }
{
    let mut out = text.into_vec();
    out.extend_from_slice(op.text())?;
    put_record(&mut out, row)?;
    Ok(Text::from_vec(out))
}

/// The text of a row with its operator. The one error is want of memory.
///
/// Every row has one, but only the text of a row whose numbers are within their limits, and which has
/// another path just where its action is of a move, is read again.
pub fn print_record(alloc: Global, op: Op, row: &Record) -> Result<Text, AllocError>
    ensures { IfOk result (λ text. text ≡ spelling op row.now) }
{
    append_record(Text::new(alloc), op, row)
}
