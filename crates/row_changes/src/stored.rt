//! The rows of tables, by their keys.

ghost use Rattle.std.specs.Prelude.{◌≡◌};
ghost use Rattle.std.specs.Option.{option_copied};
ghost use Rattle.depot_rows.specs.table_changes.Changed.{rows_of};
ghost use Rattle.depot_rows.specs.Standing.{row_in};

use depot_rows::records::{Key, Record};
use depot_rows::tables::Tables;

/// The row of the tables that has the key.
pub(crate) fn stored<'a>(tables: &'a Tables, key: &Key) -> Option<&'a Record>
    ensures { option_copied result ≡ row_in (rows_of tables.now) key.now }
{
    tables.version(key.table()).get(key)
}
