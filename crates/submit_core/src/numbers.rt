//! The number under which a change is submitted.

ghost use Rattle.std.specs.Prelude.{◌≡◌, ◌+◌, ◌==◌, ◌&&◌, not, List, IfOk, if◌then◌else◌};
ghost use Rattle.std.specs.Option.{option_copied};
ghost use Rattle.depot_rows.specs.db_records.declared.table.TableId.TheVariants as table_ids;
ghost use Rattle.depot_rows.specs.depot_model.Deeds.{Deed};
ghost use Rattle.depot_rows.specs.depot_model.Numbers.{top};
ghost use Rattle.depot_rows.specs.depot_model.Rules.{value_of};
ghost use Rattle.depot_rows.specs.depot_model.Steps.Submitting as model;
ghost use Rattle.depot_rows.specs.Standing.{HasRows};
ghost use Rattle.depot_rows.specs.table_changes.Changed.{rows_of};

use depot_rows::paths::Text;
use depot_rows::records::{Key, Record, TableId};
use depot_rows::tables::Tables;
use std::alloc::{AllocError, Global};

/// The value in the row of a counter, 0 where there is none.
fn value_in(row: Option<&Record>) -> u64
    ensures { result ≡ value_of (option_copied row.entry) }
{
    match row {
        Some(Record::Counter(row)) => row.value,
        _ => 0,
    }
}

/// The greatest number of a change.
fn greatest(alloc: Global, tables: &Tables) -> Result<u64, AllocError>
    ensures { IfOk result (λ number. (d : List Deed) → HasRows (rows_of tables.now) d table_ids.Counter →
        number ≡ top d) }
{
    let name = Text::from_bytes(alloc, b"change")?;
    let key = Key::Counter { name };
    let version = tables.version(TableId::Counter);
    let row = version.get(&key);
    let number = value_in(row);
    Ok(number)
}

/// The number behind a greatest one.
fn behind(greatest: u64) -> Result<u64, AllocError>
    ensures { IfOk result (λ number. number ≡ greatest + 1) }
{
    match greatest.checked_add(1) {
        Some(number) => Ok(number),
        None => Err(AllocError),
    }
}

/// The number of a change that has one, or else the next one.
fn kept_or_next(change: u32, greatest: u64) -> Result<u64, AllocError>
    ensures { IfOk result (λ number. number ≡ (if not (change == 0) && (change == greatest) then change else greatest + 1)) }
{
    if change != 0 && u64::from(change) == greatest {
        return Ok(u64::from(change));
    }
    let number = behind(greatest)?;
    Ok(number)
}

/// The number under which a change is submitted, 0 standing for the default one: its own where it is the greatest of
/// all, else the next one, from the table of counters alone (Command-Line Reference, "p4 submit"). The one error is
/// want of memory.
pub(crate) fn landing_number(alloc: Global, tables: &Tables, change: u32) -> Result<u64, AllocError>
    ensures { IfOk result (λ number. (d : List Deed) → HasRows (rows_of tables.now) d table_ids.Counter →
        number ≡ model.landing_number d change) }
{
    let greatest = greatest(alloc, tables)?;
    let number = kept_or_next(change, greatest)?;
    Ok(number)
}
