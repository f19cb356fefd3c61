//! The numbers of changes, the greatest first.

ghost use Rattle.std.specs.Prelude.{◌≡◌, ◌<◌, ◌≤◌, ℕ, [], false, true};
ghost use Rattle.depot_rows.specs.db_records.declared.key.Key.TheVariants as keys;
ghost use Rattle.depot_rows.specs.db_records.declared.table.TableId.TheVariants as table_ids;
ghost use Rattle.depot_rows.specs.table_changes.Changed.{rows_of};
ghost use Rattle.depot_rows.specs.table_store.Rows.{row_at, rows_from};
ghost use Rattle.change_lists.specs.Numbers.{Falls, is_among};

use depot_rows::records::{Key, TableId};
use depot_rows::tables::{Tables, Version};

/// Numbers, each once, the greatest first. It takes no memory.
pub(crate) fn in_falling_order(numbers: Vec<u32>) -> Vec<u32>
    ensures falls { Falls result.items }
    ensures same { (n : ℕ) → is_among n result.items ≡ is_among n numbers.items }
{
    let mut numbers = numbers;
    numbers.sort_unstable();
    numbers.dedup();
    numbers.reverse();
    numbers
}

/// Whether there is a change of this number or of a greater one.
fn has_from(changes: &Version, change: u32) -> bool
    ensures none { result ≡ false → rows_from (keys.Change change) changes.now.rows ≡ [] }
    ensures some { result ≡ true → rows_from (keys.Change change) changes.now.rows ≡ [] → ⊥ }
{
    let key = Key::Change { change };
    changes.from_key(&key).next().is_some()
}

/// The greatest number of a change, 0 where there is none. It halves the numbers among which it is until one is left.
pub(crate) fn newest_number(tables: &Tables) -> u32
    ensures above { (n : ℕ) → result < n → n ≤ 4294967295 →
        row_at (keys.Change n) (rows_of tables.now table_ids.Change) ≡ None }
    ensures reached { 0 < result → rows_from (keys.Change result) (rows_of tables.now table_ids.Change) ≡ [] → ⊥ }
{
    let changes = tables.version(TableId::Change);
    let mut low = 0;
    let mut high = u32::MAX;
    while low < high {
        let middle = high - (high - low) / 2;
        if has_from(changes, middle) {
            low = middle;
        } else {
            high = middle - 1;
        }
    }
    high
}
