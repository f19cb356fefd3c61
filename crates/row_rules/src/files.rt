//! Rows of files: what clients have, what labels hold, what is opened and what is resolved.

ghost use Rattle.std.specs.Prelude.{◌≡◌, IfOk};
ghost use Rattle.row_rules.specs.Stored.{stored};
ghost use Rattle.row_rules.specs.Tests.{is_have as have_test, is_labelled as labelled_test, is_resolve as resolve_test, is_opened as opened_test, has_source as source_test};

use crate::lookups::{has_base, has_form, has_opened, has_rev, has_revs, is_open_in};
use crate::texts::{is_action, is_how, is_moved, is_path};
use depot_rows::model::is_printed_type;
use depot_rows::paths::Text;
use depot_rows::records::{HaveRecord, LabelRecord, ResolveRecord, WorkingRecord};
use depot_rows::tables::Tables;
use std::alloc::{AllocError, Global};

/// Whether the row of a file that a client has keeps the rules.
#[tactic(auto, unfolding(crate::specs::Tests::is_have))]
pub(crate) fn is_have(alloc: Global, tables: &Tables, row: &HaveRecord) -> Result<bool, AllocError>
    ensures { IfOk result (λ is. is ≡ have_test (stored tables.now) row.now) }
{
    let client = has_form(alloc, tables, b"client", &row.client)?;
    let path = is_path(alloc, row.path.as_bytes())?;
    let rev = has_rev(tables, &row.path, row.rev)?;
    Ok(client && path && rev)
}

/// Whether the row of a file that a label holds keeps the rules.
#[tactic(auto, unfolding(crate::specs::Tests::is_labelled))]
pub(crate) fn is_labelled(
    alloc: Global,
    tables: &Tables,
    row: &LabelRecord,
) -> Result<bool, AllocError>
    ensures { IfOk result (λ is. is ≡ labelled_test (stored tables.now) row.now) }
{
    let label = has_form(alloc, tables, b"label", &row.label)?;
    let path = is_path(alloc, row.path.as_bytes())?;
    let rev = has_rev(tables, &row.path, row.rev)?;
    Ok(label && path && rev)
}

/// Whether the row of a resolve keeps the rules.
#[tactic(auto, unfolding(crate::specs::Tests::is_resolve))]
pub(crate) fn is_resolve(
    alloc: Global,
    tables: &Tables,
    row: &ResolveRecord,
) -> Result<bool, AllocError>
    ensures { IfOk result (λ is. is ≡ resolve_test (stored tables.now) row.now) }
{
    let path = is_path(alloc, row.path.as_bytes())?;
    let from = is_path(alloc, row.from.as_bytes())?;
    let revs = has_revs(tables, &row.from, row.first, row.last)?;
    let client = has_form(alloc, tables, b"client", &row.client)?;
    let opened = has_opened(tables, &row.path, &row.client)?;
    Ok(path && from && revs && is_how(row.how.as_bytes()) && client && opened)
}

/// Whether the source of an opened file is a revision, or there is none.
fn has_source(alloc: Global, tables: &Tables, path: &Text, rev: u32) -> Result<bool, AllocError>
    ensures { IfOk result (λ has. has ≡ source_test (stored tables.now) path.now rev) }
{
    let none = path.as_bytes().is_empty() && rev == 0;
    let is = is_path(alloc, path.as_bytes())?;
    let has = has_rev(tables, path, rev)?;
    Ok(none || (is && has))
}

/// Whether the row of an opened file keeps the rules.
#[tactic(auto, unfolding(crate::specs::Tests::is_opened))]
pub(crate) fn is_opened(
    alloc: Global,
    tables: &Tables,
    row: &WorkingRecord,
) -> Result<bool, AllocError>
    ensures { IfOk result (λ is. is ≡ opened_test (stored tables.now) row.now) }
{
    let client = has_form(alloc, tables, b"client", &row.client)?;
    let path = is_path(alloc, row.path.as_bytes())?;
    let base = has_base(tables, &row.path, row.base)?;
    let file_type = is_printed_type(alloc, row.file_type.as_bytes())?;
    let source = has_source(alloc, tables, &row.source, row.source_rev)?;
    let moved = is_moved(alloc, row.action.as_bytes(), row.moved.as_bytes())?;
    Ok(
        client
            && path
            && base
            && is_action(row.action.as_bytes())
            && file_type
            && row.lock <= 1
            && source
            && moved
            && is_open_in(tables, &row.client, row.change),
    )
}
