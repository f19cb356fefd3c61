//! Comparing the rows of two depots.

ghost use Rattle.std.specs.Prelude.{◌≡◌, ◌↔◌, IsTrue};
ghost use Rattle.depot_rows.specs.table_changes.Changed.{rows_of};

use depot_rows::records::TableId;
use depot_rows::tables::{Tables, Version};

/// Whether a table has the same rows as another.
fn same_version(one: &Version, other: &Version) -> bool
    ensures { IsTrue result ↔ (one.now.rows ≡ other.now.rows) }
{
    let mut others = other.rows();
    for row in one.rows() {
        match others.next() {
            Some(beside) if row.same(beside) => {}
            _ => return false,
        }
    }
    others.next().is_none()
}

/// Whether two depots have the same rows in each table. It takes no memory.
pub(crate) fn same_rows(one: &Tables, other: &Tables) -> bool
    ensures { IsTrue result ↔ (rows_of one.now ≡ rows_of other.now) }
{
    for table in TableId::ALL {
        if !same_version(one.version(table), other.version(table)) {
            return false;
        }
    }
    true
}
