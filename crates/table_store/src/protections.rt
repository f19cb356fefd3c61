//! The protections that rows tell.

ghost use Rattle.std.specs.Prelude.{◌≡◌, ◌++◌, IfOk, OnOk};
ghost use Rattle.protect_table.specs.Line.{read_lines};
ghost use Rattle.table_store.specs.Protections.{text_in, texts_in, protects_in};
ghost use Rattle.table_store.specs.Rows.{AllOfTable};

use crate::walk::Walk;
use db_records::paths::{Sequence, Text};
use db_records::{Record, TableId, line_text};
use protect_table::{LineFault, Protects};
use std::alloc::{AllocError, Global};

/// Adds the line of a row, if it is one of the protections.
fn push_text(alloc: Global, texts: &mut Sequence<Text>, row: &Record) -> Result<(), AllocError>
    ensures { OnOk result (texts.new ≡ texts.old ++ text_in row.now) }
{
    if let Record::Protect(line) = row {
        texts.push(line_text(alloc, line)?)?;
    }
    Ok(())
}

/// The lines of the protections that rows have, in order. The one error is want of memory.
pub fn line_texts(alloc: Global, rows: Walk<'_>) -> Result<Sequence<Text>, AllocError>
    ensures { IfOk result (λ texts. texts ≡ texts_in rows.entry) }
{
    let mut texts = Sequence::new(alloc);
    for row in rows {
        push_text(alloc, &mut texts, row)?;
    }
    Ok(texts)
}

/// The table that lines spell, or one without lines where they spell none.
fn read(alloc: Global, texts: &[Text]) -> Result<Protects, AllocError>
    ensures { IfOk result (λ protects. protects ≡ read_lines texts.now) }
{
    match Protects::from_lines(alloc, texts) {
        Ok(protects) => Ok(protects),
        Err(fault) => match fault.what {
            LineFault::Memory => Err(AllocError),
            _ => Protects::empty(alloc),
        },
    }
}

/// The protections that the rows of a table tell. Those of another table than db.protect aren't walked: they tell
/// none. The one error is want of memory.
pub(crate) fn read_protects(
    alloc: Global,
    table: TableId,
    rows: Walk<'_>,
) -> Result<Protects, AllocError>
    requires { AllOfTable table rows }
    ensures { IfOk result (λ protects. protects ≡ protects_in rows.entry) }
{
    if table != TableId::Protect {
        return Protects::empty(alloc);
    }
    let texts = line_texts(alloc, rows)?;
    read(alloc, texts.as_slice())
}
