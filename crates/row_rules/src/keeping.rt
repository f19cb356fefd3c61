//! Rows that keep their rules, of any table.

ghost use Rattle.std.specs.Prelude.{◌≡◌, ◌≤◌, ◌&&◌, IfOk, nat_le};
ghost use Rattle.std.specs.List.{list_all};
ghost use Rattle.depot_rows.specs.depot_model.Rules.{top_in};
ghost use Rattle.depot_rows.specs.table_store.Tables.{version_of};
ghost use Rattle.row_rules.specs.Stored.{stored};
ghost use Rattle.row_rules.specs.Tests.{keeps as keeps_test, is_line as line_test, is_change as change_test, follows_line as follows_test};

use crate::files::{is_have, is_labelled, is_opened, is_resolve};
use crate::forms::is_form;
use crate::integrations::is_integration;
use crate::lookups::is_there;
use crate::revisions::keeps_revision;
use crate::simple::{is_change, is_counter, is_group, is_line};
use depot_rows::records::{ChangeRecord, Key, ProtectRecord, Record, TableId};
use depot_rows::tables::Tables;
use std::alloc::{AllocError, Global};

/// Whether a line is the first, or the one before it is there.
#[tactic(auto, unfolding(crate::specs::Tests::follows_line))]
fn follows_line(tables: &Tables, row: &ProtectRecord) -> bool
    ensures { result ≡ follows_test (stored tables.now) row.now }
{
    row.line <= 1 || is_there(tables, &Key::Protect { line: row.line - 1 })
}

/// Whether a line of the protections keeps its rules.
fn keeps_line(alloc: Global, tables: &Tables, row: &ProtectRecord) -> Result<bool, AllocError>
    ensures { IfOk result (λ keep. keep ≡ (line_test row.now && follows_test (stored tables.now) row.now)) }
{
    let is = is_line(alloc, row)?;
    Ok(is && follows_line(tables, row))
}

/// Whether a change keeps its rules, where `top` is the greatest number ever used.
fn keeps_change(top: u32, row: &ChangeRecord) -> bool
    ensures { result ≡ (change_test row.now && nat_le row.now.change top) }
{
    is_change(row) && row.change <= top
}

/// Whether a row keeps its rules, where `top` is the greatest number ever used.
fn keeps(alloc: Global, tables: &Tables, top: u32, row: &Record) -> Result<bool, AllocError>
    requires small { top ≤ 2147483647 }
    requires top { top ≡ top_in (stored tables.now) }
    ensures { IfOk result (λ keep. keep ≡ keeps_test (stored tables.now) row.now) }
{
    match row {
        Record::Counter(row) => Ok(is_counter(row)),
        Record::Group(row) => Ok(is_group(row)),
        Record::Protect(row) => keeps_line(alloc, tables, row),
        Record::Domain(row) => is_form(alloc, tables, top, row),
        Record::Have(row) => is_have(alloc, tables, row),
        Record::Label(row) => is_labelled(alloc, tables, row),
        Record::Integed(row) => is_integration(alloc, tables, row),
        Record::Resolve(row) => is_resolve(alloc, tables, row),
        Record::Working(row) => is_opened(alloc, tables, row),
        Record::Change(row) => Ok(keeps_change(top, row)),
        Record::Rev(row) => keeps_revision(alloc, tables, row),
    }
}

/// Whether all rows of a table keep their rules.
pub(crate) fn all_keep(
    alloc: Global,
    tables: &Tables,
    top: u32,
    table: TableId,
) -> Result<bool, AllocError>
    requires small { top ≤ 2147483647 }
    requires top { top ≡ top_in (stored tables.now) }
    ensures { IfOk result (λ keep. keep ≡
        list_all (keeps_test (stored tables.now)) (version_of tables.now table).rows) }
{
    for row in tables.version(table).rows() {
        if !keeps(alloc, tables, top, row)? {
            return Ok(false);
        }
    }
    Ok(true)
}
