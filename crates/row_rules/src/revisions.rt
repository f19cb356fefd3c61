//! Rows of revisions.

ghost use Rattle.std.specs.Prelude.{◌≡◌, ◌&&◌, IfOk};
ghost use Rattle.row_rules.specs.Stored.{stored};
ghost use Rattle.row_rules.specs.Tests.{is_revision as revision_test, has_none as none_test, follows_revision as follows_test};

use crate::lookups::{change_of, has_rev, is_submitted};
use crate::texts::{is_action, is_delete, is_moved, is_path};
use depot_rows::model::is_printed_type;
use depot_rows::records::RevRecord;
use depot_rows::tables::Tables;
use std::alloc::{AllocError, Global};

/// Whether a revision has neither a digest nor a length.
fn has_none(row: &RevRecord) -> bool
    ensures { result ≡ none_test row.now }
{
    row.digest.as_bytes().is_empty() && row.length == 0
}

/// Whether the row of a revision keeps the rules, but for its place in the archive.
#[tactic(auto, unfolding(crate::specs::Tests::is_revision))]
fn is_revision(alloc: Global, tables: &Tables, row: &RevRecord) -> Result<bool, AllocError>
    ensures { IfOk result (λ is. is ≡ revision_test (stored tables.now) row.now) }
{
    let path = is_path(alloc, row.path.as_bytes())?;
    let file_type = is_printed_type(alloc, row.file_type.as_bytes())?;
    let moved = is_moved(alloc, row.action.as_bytes(), row.moved.as_bytes())?;
    Ok(
        path && row.rev >= 1
            && is_action(row.action.as_bytes())
            && file_type
            && (!is_delete(row.action.as_bytes()) || has_none(row))
            && moved
            && is_submitted(tables, row.change),
    )
}

/// Whether a revision is the first, or its path has the one before, of an earlier change.
#[tactic(auto, unfolding(crate::specs::Tests::follows_revision))]
fn follows_revision(tables: &Tables, row: &RevRecord) -> Result<bool, AllocError>
    ensures { IfOk result (λ is. is ≡ follows_test (stored tables.now) row.now) }
{
    if row.rev <= 1 {
        return Ok(true);
    }
    let before = has_rev(tables, &row.path, row.rev - 1)?;
    let change = change_of(tables, &row.path, row.rev - 1)?;
    Ok(before && change < row.change)
}

/// Whether a revision keeps its rules, but for its place in the archive.
pub(crate) fn keeps_revision(
    alloc: Global,
    tables: &Tables,
    row: &RevRecord,
) -> Result<bool, AllocError>
    ensures { IfOk result (λ keep. keep ≡
        (revision_test (stored tables.now) row.now && follows_test (stored tables.now) row.now)) }
{
    let is = is_revision(alloc, tables, row)?;
    let follows = follows_revision(tables, row)?;
    Ok(is && follows)
}
