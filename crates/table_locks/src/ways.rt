//! How a command takes a table: by its lock, by a look, or not at all.
ghost use Rattle.std.specs.Prelude.{◌≡◌};
ghost use Rattle.table_locks.specs.Ways.{holds_table, looks_at};

use command_needs::Needs;
use depot_model::records::TableId;

/// Whether its lock is taken for the whole attempt: that of a table that is written, and where the
/// whole set is to be held each.
pub(crate) fn is_taken(needs: &Needs, whole: bool, table: TableId) -> bool
    ensures { result ≡ holds_table whole needs.now table }
{
    needs.writes.has(table) || whole && needs.reads.has(table)
}

/// Whether it is only looked at.
pub(crate) fn is_looked_at(needs: &Needs, whole: bool, table: TableId) -> bool
    ensures { result ≡ looks_at whole needs.now table }
{
    (needs.reads.has(table) || needs.writes.has(table)) && !is_taken(needs, whole, table)
}
