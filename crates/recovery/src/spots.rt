//! The spots of revisions in the archive.

ghost use Rattle.std.specs.Prelude.{◌≡◌, ◌≤◌, ◌<◌, ◌+◌, ◌↔◌, IfSome, IsTrue, None};
ghost use Rattle.depot_rows.specs.db_records.declared.table.TableId.TheVariants.{Rev};
ghost use Rattle.depot_rows.specs.table_changes.Changed.{rows_of};
ghost use Rattle.recovery.specs.Rules.{DeletesAreUnplaced, IsUnplacedIfDeleted};

use depot_rows::records::{Record, RevRecord, TableId};
use depot_rows::tables::{Tables, Walk};

/// All rows of the table of revisions.
pub(crate) fn revisions(tables: &Tables) -> Walk<'_>
    ensures { result ≡ rows_of tables.now Rev }
{
    tables.version(TableId::Rev).rows()
}

/// Where a revision's spot ends, where that isn't behind so many bytes.
pub(crate) fn end_within(revision: &RevRecord, limit: u64) -> Option<u64>
    ensures end { IfSome result (λ end. (end ≡ revision.now.at + revision.now.length) × (end ≤ limit)) }
    ensures behind { result ≡ None → limit < revision.now.at + revision.now.length }
{
    let end = revision.at.checked_add(revision.length)?;
    if end <= limit { Some(end) } else { None }
}

/// Whether a row has its place at 0, where it is of a deleted revision.
fn is_unplaced_if_deleted(row: &Record) -> bool
    ensures { IsTrue result ↔ IsUnplacedIfDeleted row.now }
{
    let live = row.live();
    let Record::Rev(revision) = row else {
        return true;
    };
    live || revision.at == 0
}

/// Whether each deleted revision has its place at 0.
pub(crate) fn deletes_are_unplaced(tables: &Tables) -> bool
    ensures { IsTrue result ↔ DeletesAreUnplaced (rows_of tables.now Rev) }
{
    for row in revisions(tables) {
        if !is_unplaced_if_deleted(row) {
            return false;
        }
    }
    true
}
