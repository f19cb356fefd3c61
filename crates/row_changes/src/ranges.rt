//! Rows whose keys begin alike, taken away.

ghost use Rattle.std.specs.Prelude.{◌≡◌, IfOk, OnOk, filter, map};
ghost use Rattle.std.specs.BTreeMap.{keys};
ghost use Rattle.std.specs.Map.{keys_of};
ghost use Rattle.depot_rows.specs.db_records.Record.{key_of};
ghost use Rattle.depot_rows.specs.table_changes.Changed.{rows_of};
ghost use Rattle.depot_rows.specs.Standing.{row_in};
ghost use Rattle.row_ranges.specs.Ranges.{has_row, is_in, range_table};
ghost use Rattle.row_changes.specs.Overlay.{Becomes};
ghost use Rattle.row_changes.specs.Ranges.{emptied, leading, Removes};

use crate::overlay::Overlay;
use depot_rows::records::{Key, Record};
use depot_rows::tables::Tables;
use row_ranges::{KeyRange, rows_in};
use std::alloc::{AllocError, Global};
use std::collections::btree_map::Range;

/// The same key once more. The one error is want of memory.
fn copy_key(key: &Key) -> Result<Key, AllocError>
    ensures { IfOk result (λ copy. copy ≡ key.now) }
{
    key.clone()
}

/// The first keys, as long as they are in a range. The one error is want of memory.
fn keys_while(
    alloc: Global,
    entries: Range<'_, Key, Option<Record>>,
    range: &KeyRange,
) -> Result<Vec<Key>, AllocError>
    ensures { IfOk result (λ found. found.items ≡ leading range.now (keys_of entries.entry)) }
{
    let mut found = Vec::new(alloc);
    for (key, _) in entries {
        if !range.contains(key) {
            return Ok(found);
        }
        found.push(copy_key(key)?)?;
    }
    Ok(found)
}

impl Overlay {
    /// The touched keys that are in a range: a walk from the first key of the range to its end. The one
    /// error is want of memory.
    fn touched_keys(&self, alloc: Global, range: &KeyRange) -> Result<Vec<Key>, AllocError>
        ensures { IfOk result (λ found. found.items ≡ filter (is_in range.now) (keys self.now.touched)) }
    {
        let first = range.first_key(alloc)?;
        let found = keys_while(alloc, self.touched.range(&first..), range)?;
        Ok(found)
    }

    /// Takes the rows of these keys away. The one error is want of memory.
    fn remove(&mut self, gone: Vec<Key>) -> Result<(), AllocError>
        ensures { OnOk result (Removes gone.items self.old.touched self.new.touched) }
    {
        for key in gone {
            self.put(key, None)?;
        }
        Ok(())
    }

    /// Takes the rows of a range that tables have away. The one error is want of memory.
    fn remove_stored(
        &mut self,
        alloc: Global,
        tables: &Tables,
        range: &KeyRange,
    ) -> Result<(), AllocError>
        ensures { OnOk result (Removes (map key_of (filter (has_row range.now) (rows_of tables.now (range_table range.now)))) self.old.touched self.new.touched) }
    {
        for row in rows_in(alloc, tables, range)? {
            self.put(row.key()?, None)?;
        }
        Ok(())
    }

    /// Takes all rows of a range away. The one error is want of memory.
    pub(crate) fn empty(
        &mut self,
        alloc: Global,
        tables: &Tables,
        range: &KeyRange,
    ) -> Result<(), AllocError>
        ensures { OnOk result (Becomes (row_in (rows_of tables.now)) (emptied range.now) self.old.touched self.new.touched) }
    {
        let touched = self.touched_keys(alloc, range)?;
        self.remove(touched)?;
        self.remove_stored(alloc, tables, range)?;
        Ok(())
    }
}
