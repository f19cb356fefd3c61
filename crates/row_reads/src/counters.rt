//! Counters.

ghost use Rattle.std.specs.Prelude.{◌≡◌, ◌++◌, List, filter, IfOk, OnOk};
ghost use Rattle.depot_rows.specs.db_records.declared.table.TableId.TheVariants as table_ids;
ghost use Rattle.depot_rows.specs.table_changes.Changed.{rows_of};
ghost use Rattle.row_ranges.specs.Ranges.{has_row};
ghost use Rattle.row_ranges.specs.declared.range.KeyRange.TheVariants as ranges;
ghost use Rattle.depot_rows.specs.depot_model.Deeds.{Deed};
ghost use Rattle.depot_rows.specs.Standing.{HasRows};
ghost use Rattle.row_reads.specs.Counters.{counter_in, counters_in, counters_of as counters_of_depot};

use depot_rows::paths::{Sequence, Text};
use depot_rows::records::{CounterRecord, Record, TableId};
use depot_rows::tables::Tables;
use row_ranges::{KeyRange, rows_in};
use std::alloc::{AllocError, Global};

/// Adds the counter of a row, if it is one of a counter.
fn push_counter(
    alloc: Global,
    counters: &mut Sequence<CounterRecord>,
    row: &Record,
) -> Result<(), AllocError>
    ensures { OnOk result (counters.new ≡ counters.old ++ counter_in row.now) }
{
    if let Record::Counter(row) = row {
        counters.push(CounterRecord {
            name: Text::from_bytes(alloc, row.name.as_bytes())?,
            value: row.value,
        })?;
    }
    Ok(())
}

/// The counters in the rows of the table.
fn counters_of_rows(alloc: Global, tables: &Tables) -> Result<Sequence<CounterRecord>, AllocError>
    ensures { IfOk result (λ counters. counters ≡
        counters_in (filter (has_row ranges.Counters) (rows_of tables.now table_ids.Counter))) }
{
    let mut counters = Sequence::new(alloc);
    for row in rows_in(alloc, tables, &KeyRange::Counters)? {
        push_counter(alloc, &mut counters, row)?;
    }
    Ok(counters)
}

/// The rows of a depot have its counters.
fn rows_have_counters(tables: &Tables)
    ensures { (d : List Deed) → HasRows (rows_of tables.now) d table_ids.Counter →
        counters_in (filter (has_row ranges.Counters) (rows_of tables.now table_ids.Counter)) ≡ counters_of_depot d }
{
    let version = tables.version(TableId::Counter);
    // the rows of a version are of its table, their keys rising
    let _table = version.table();
}

/// The counters that have values, in the order of their names (Command-Line Reference, "p4 counters"), from the table
/// of counters alone.
pub fn counters_of(alloc: Global, tables: &Tables) -> Result<Sequence<CounterRecord>, AllocError>
    ensures { IfOk result (λ counters. (d : List Deed) → HasRows (rows_of tables.now) d table_ids.Counter →
        counters ≡ counters_of_depot d) }
{
    rows_have_counters(tables);
    let counters = counters_of_rows(alloc, tables)?;
    Ok(counters)
}
