//! Numbers of changes.

ghost use Rattle.std.specs.Prelude.{◌≡◌, List, IfOk, codes};
ghost use Rattle.std.specs.Option.{option_copied};
ghost use Rattle.depot_rows.specs.db_records.declared.key.Key.TheVariants as keys;
ghost use Rattle.depot_rows.specs.db_records.declared.table.TableId.TheVariants as table_ids;
ghost use Rattle.depot_rows.specs.table_changes.Changed.{rows_of};
ghost use Rattle.depot_rows.specs.depot_model.Deeds.{Deed};
ghost use Rattle.depot_rows.specs.depot_model.Numbers.{top};
ghost use Rattle.depot_rows.specs.depot_model.Rules.{value_of};
ghost use Rattle.depot_rows.specs.Standing.{HasRows};

use depot_rows::paths::Text;
use depot_rows::records::{Key, Record, TableId};
use depot_rows::tables::Tables;
use std::alloc::{AllocError, Global};

/// The value in the row of a counter, 0 where there is none.
fn value_in(row: Option<&Record>) -> u64
    ensures { result ≡ value_of (option_copied row.entry) }
{
    match row {
        Some(Record::Counter(row)) => row.value,
        _ => 0,
    }
}

/// The key of the counter of changes.
fn change_key(alloc: Global) -> Result<Key, AllocError>
    ensures { IfOk result (λ key. key ≡ keys.Counter (codes "change")) }
{
    let name = Text::from_bytes(alloc, b"change")?;
    Ok(Key::Counter { name })
}

/// The greatest number in a pending or submitted change, 0 where there is none (Command-Line Reference, "p4 change"),
/// from the table of counters alone. The one error is want of memory.
pub fn top_change(alloc: Global, tables: &Tables) -> Result<u64, AllocError>
    ensures { IfOk result (λ number. (d : List Deed) → HasRows (rows_of tables.now) d table_ids.Counter →
        number ≡ top d) }
{
    let key = change_key(alloc)?;
    let version = tables.version(TableId::Counter);
    let row = version.get(&key);
    let number = value_in(row);
    Ok(number)
}
