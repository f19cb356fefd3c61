//! `counter` (Command-Line Reference, "p4 counter").

ghost use Rattle.std.specs.Prelude.{◌≡◌, ◌∷◌, [], List, IfOk};
ghost use Rattle.depot_rows.specs.db_records.declared.table.TableId.TheVariants as table_ids;
ghost use Rattle.depot_rows.specs.table_changes.Changed.{AllRows, rows_of};
ghost use Rattle.depot_rows.specs.table_store.Rows.{row_at};
ghost use Rattle.depot_rows.specs.depot_model.Deeds.{Count, Deed as ModelDeed};
ghost use Rattle.depot_rows.specs.depot_model.Step.{does};
ghost use Rattle.depot_rows.specs.depot_model.Steps.Counters as model;
ghost use Rattle.depot_rows.specs.Standing.{HasRows};
ghost use Rattle.depot_rows.specs.db_records.declared.key.Key.TheVariants as keys;
ghost use Rattle.reply_rows.specs.Made.{IsMade};
ghost use Rattle.spec_ops.specs.Counters.{value_in};

use depot_rows::model::Row;
use depot_rows::paths::{Name, Sequence, Text};
use depot_rows::records::{Key, Record, TableId};
use depot_rows::tables::Tables;
use reply_rows::{RowBuilder, Step};
use row_reads::counters_of;
use std::alloc::{AllocError, Global};

/// The row of a counter with its value, 0 standing for none.
fn counter_row(alloc: Global, name: &[u8], value: u64) -> Result<Row, AllocError>
    ensures { IfOk result (λ row. row ≡ model.counter_row name.now value) }
{
    let row = RowBuilder::new(alloc).text(b"counter", name)?;
    let row = row.number(b"value", value)?;
    Ok(row.row())
}

/// The value of a counter, 0 where it has none.
pub(crate) fn counter_value(alloc: Global, tables: &Tables, name: &Name) -> Result<u64, AllocError>
    ensures { IfOk result (λ value. value ≡
        value_in (row_at (keys.Counter name.now) (rows_of tables.now table_ids.Counter))) }
{
    let key = Key::Counter {
        name: Text::from_bytes(alloc, name.as_bytes())?,
    };
    match tables.version(TableId::Counter).get(&key) {
        Some(Record::Counter(counter)) => Ok(counter.value),
        _ => Ok(0),
    }
}

/// `counter NAME`, from the table of counters alone.
pub fn counter_show(alloc: Global, tables: &Tables, name: &Name) -> Result<Step, AllocError>
    ensures { IfOk result (λ step. (d : List ModelDeed) → HasRows (rows_of tables.now) d table_ids.Counter →
        IsMade (rows_of tables.now) d d (model.counter_show d name.now) step) }
{
    let value = counter_value(alloc, tables, name)?;
    let row = counter_row(alloc, name.as_bytes(), value)?;
    Step::tells(alloc, row)
}

/// The same name once more.
fn copy_of(name: &Name) -> Result<Name, AllocError>
    ensures { IfOk result (λ copy. copy ≡ name.now) }
{
    name.clone()
}

/// The step of a counter that gets a value, or none, with the value that its row shows.
fn count(alloc: Global, name: &Name, value: Option<u64>, shown: u64) -> Result<Step, AllocError>
    ensures { IfOk result (λ step. (all : AllRows) (d : List ModelDeed) →
        IsMade all d d (does (Count name.now value ∷ []) (model.counter_row name.now shown)) step) }
{
    let row = counter_row(alloc, name.as_bytes(), shown)?;
    let name = copy_of(name)?;
    let mut step = Step::tells(alloc, row)?;
    step.deeds.count(name, value)?;
    Ok(step)
}

/// `counter NAME VALUE`
pub fn counter_set(alloc: Global, name: &Name, value: u64) -> Result<Step, AllocError>
    ensures { IfOk result (λ step. (all : AllRows) (d : List ModelDeed) →
        IsMade all d d (model.counter_set name.now value) step) }
{
    count(alloc, name, Some(value), value)
}

/// `counter -d NAME`
pub fn counter_delete(alloc: Global, name: &Name) -> Result<Step, AllocError>
    ensures { IfOk result (λ step. (all : AllRows) (d : List ModelDeed) →
        IsMade all d d (model.counter_delete name.now) step) }
{
    count(alloc, name, None, 0)
}

/// `counters`, from the table of counters alone.
pub fn counter_list(alloc: Global, tables: &Tables) -> Result<Step, AllocError>
    ensures { IfOk result (λ step. (d : List ModelDeed) → HasRows (rows_of tables.now) d table_ids.Counter →
        IsMade (rows_of tables.now) d d (model.counters d) step) }
{
    let found = counters_of(alloc, tables)?;
    let counters = found.as_slice();
    let mut rows = Sequence::new(alloc);
    for counter in counters {
        rows.push(counter_row(alloc, counter.name.as_bytes(), counter.value)?)?;
    }
    Ok(Step {
        rows,
        ..Step::new(alloc)
    })
}
