//! Walks over the rows of a range.

ghost use Rattle.std.specs.Prelude.{◌≡◌, IfOk, filter};
ghost use Rattle.std.specs.Iterator.{YieldsFirstRef, item_count};
ghost use Rattle.table_store.specs.Tables.{version_of};
ghost use Rattle.row_ranges.specs.Ranges.{has_row, range_table};

use crate::range::KeyRange;
use std::alloc::{AllocError, Global};
use std::marker::Model;
use table_store::records::Record;
use table_store::{Tables, Walk};

/// The rows of a range from a place on, in key order.
#[derive(Drop)]
pub struct RangeWalk<'a> {
    /// The range, until its end is reached.
    range: Option<&'a KeyRange>,
    rows: Walk<'a>,
}

impl<'a> Model for RangeWalk<'a> {
    ghost use Rattle.std.specs.Prelude.{List};
    ghost use Rattle.std.specs.Option.{option_copied};
    ghost use Rattle.table_store.specs.db_records.declared.record.Record.{Record};
    ghost use Rattle.row_ranges.specs.Walking.{ahead};

    ghost Value = { List Record };

    ghost view = { λ walk. ahead (option_copied walk.range) walk.rows };
}

impl<'a> Iterator for RangeWalk<'a> {
    type Item = &'a Record;

    ghost next_gives = { YieldsFirstRef (λ s. s) };

    ghost remaining = { item_count (λ s. s) };

    fn next(&mut self) -> Option<&'a Record> {
        let range = self.range?;
        if let Some(row) = self.rows.next()
            && range.contains_row(row)
        {
            return Some(row);
        }
        self.range = None;
        None
    }
}

/// The rows of a table that are in a range, in the order of their keys. The one error is want of
/// memory.
pub fn rows_in<'a>(
    alloc: Global,
    tables: &'a Tables,
    range: &'a KeyRange,
) -> Result<RangeWalk<'a>, AllocError>
    ensures { IfOk result (λ walk. walk ≡
        filter (has_row range.now) (version_of tables.now (range_table range.now)).rows) }
{
    let version = tables.version(range.table());
    // the rows of a version are of its table, their keys rising
    let _in_order = version.table();
    let first = range.first_key(alloc)?;
    Ok(RangeWalk {
        range: Some(range),
        rows: version.from_key(&first),
    })
}
