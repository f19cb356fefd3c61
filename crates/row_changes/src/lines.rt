//! The lines of the protections table.

ghost use Rattle.std.specs.Prelude.{◌≡◌, IfOk, OnOk};
ghost use Rattle.depot_rows.specs.protect_table.Words.{words_of};
ghost use Rattle.depot_rows.specs.table_changes.Changed.{rows_of};
ghost use Rattle.depot_rows.specs.depot_model.Records.{protect_record};
ghost use Rattle.depot_rows.specs.depot_model.Rules.{Rows};
ghost use Rattle.depot_rows.specs.Effects.{effect, put_at};
ghost use Rattle.depot_rows.specs.Standing.{row_in};
ghost use Rattle.row_changes.specs.Lines.{with_lines};
ghost use Rattle.row_changes.specs.Overlay.{Becomes};

use crate::overlay::Overlay;
use depot_rows::Deed;
use depot_rows::paths::{Sequence, Text};
use depot_rows::protections::line_words;
use depot_rows::records::{Key, ProtectRecord, Record};
use depot_rows::tables::Tables;
use row_ranges::KeyRange;
use std::alloc::{AllocError, Global};

/// The same text once more. The one error is want of memory.
fn copy_of(text: &Text) -> Result<Text, AllocError>
    ensures { IfOk result (λ copy. copy ≡ text.now) }
{
    text.clone()
}

/// The row of a line with this number, where it has five words. The one error is want of memory.
fn line_row(alloc: Global, number: u32, line: &[u8]) -> Result<Option<Record>, AllocError>
    ensures { IfOk result (λ row. row ≡ protect_record number (words_of line.now)) }
{
    let found = line_words(alloc, line)?;
    let words = found.as_slice();
    if words.len() != 5 {
        return Ok(None);
    }
    Ok(Some(Record::Protect(ProtectRecord {
        line: number,
        mode: copy_of(&words[0])?,
        kind: copy_of(&words[1])?,
        name: copy_of(&words[2])?,
        host: copy_of(&words[3])?,
        path: copy_of(&words[4])?,
    })))
}

impl Overlay {
    /// The protections table has a line with this number.
    fn put_line(&mut self, alloc: Global, number: u32, line: &Text) -> Result<(), AllocError>
        ensures { OnOk result ((rows : Rows) →
            Becomes rows (put_at (Key.Protect number) (protect_record number (words_of line.now))) self.old.touched self.new.touched) }
    {
        let row = line_row(alloc, number, line.as_bytes())?;
        self.put(Key::Protect { line: number }, row)?;
        Ok(())
    }

    /// The protections table has these lines, the first with the number 1. More lines than there are
    /// numbers find no memory.
    fn put_lines(&mut self, alloc: Global, lines: &[Text]) -> Result<(), AllocError>
        ensures { OnOk result ((rows : Rows) →
            Becomes rows (with_lines 1 lines.now) self.old.touched self.new.touched) }
    {
        let mut number: u32 = 0;
        for line in lines {
            let Some(next) = number.checked_add(1) else {
                return Err(AllocError);
            };
            self.put_line(alloc, next, line)?;
            number = next;
        }
        Ok(())
    }

    /// The protections table has these lines and no others.
    pub(crate) fn guard(
        &mut self,
        alloc: Global,
        tables: &Tables,
        lines: &Sequence<Text>,
    ) -> Result<(), AllocError>
        ensures { OnOk result (Becomes (row_in (rows_of tables.now)) (effect (Deed.Guard lines.now)) self.old.touched self.new.touched) }
    {
        self.empty(alloc, tables, &KeyRange::Protections)?;
        self.put_lines(alloc, lines.as_slice())?;
        Ok(())
    }
}
