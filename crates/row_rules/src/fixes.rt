//! Fixes of changes.

ghost use Rattle.std.specs.Prelude.{◌≡◌, ◌≤◌, ◌<◌, ◌+◌, ◌==◌, ◌↔◌, ℕ, IfOk, IsTrue, IsFalse, unwrap_or, if◌then◌else◌};
ghost use Rattle.std.specs.BTreeMap.{get};
ghost use Rattle.std.specs.Ordering.{nat_cmp};
ghost use Rattle.depot_rows.specs.db_records.declared.table.TableId.TheVariants as table_ids;
ghost use Rattle.depot_rows.specs.table_store.Tables.{version_of};
ghost use Rattle.row_rules.specs.Fixing.{HaveFewFixes, change_in_text, fixed_change as change_of_row};

use crate::forms::value;
use crate::numerals::small_value;
use depot_rows::forms::{Form, FormFaultKind, Shape};
use depot_rows::records::{Record, TableId};
use depot_rows::tables::Tables;
use std::alloc::{AllocError, Global};
use std::collections::BTreeMap;

/// The most fixes of a change that are on.
const MOST: u32 = 100;

/// The change of a fix that is on, in the text of its form.
fn change_in(alloc: Global, text: &[u8]) -> Result<Option<u32>, AllocError>
    ensures { IfOk result (λ change. change ≡ change_in_text text.now) }
{
    match Form::read(alloc, text, Shape::Fix) {
        Ok(form) => {
            if value(&form, "State") == b"on".as_slice() {
                Ok(small_value(value(&form, "Change")))
            } else {
                Ok(None)
            }
        }
        Err(fault) => match fault.what {
            FormFaultKind::Memory => Err(AllocError),
            _ => Ok(None),
        },
    }
}

/// The change that a row fixes.
fn fixed_change(alloc: Global, row: &Record) -> Result<Option<u32>, AllocError>
    ensures { IfOk result (λ change. change ≡ change_of_row row.now) }
{
    match row {
        Record::Domain(row) => {
            if row.kind.as_bytes() == b"fix".as_slice() {
                change_in(alloc, row.form.as_bytes())
            } else {
                Ok(None)
            }
        }
        _ => Ok(None),
    }
}

/// Counts one more fix of a change, if it has not the most already.
fn add_fix(counts: &mut BTreeMap<u32, u32>, change: u32) -> Result<bool, AllocError>
    ensures refused { IfOk result (λ fits. IsFalse fits → 100 ≤ unwrap_or (get nat_cmp counts.old change) 0) }
    ensures room { IfOk result (λ fits. IsTrue fits → unwrap_or (get nat_cmp counts.old change) 0 < 100) }
    ensures counted { IfOk result (λ fits. IsTrue fits → (q : ℕ) → unwrap_or (get nat_cmp counts.new q) 0 ≡ (if change == q then 1 else 0) + unwrap_or (get nat_cmp counts.old q) 0) }
{
    let count = counts.get(&change).copied().unwrap_or(0);
    if count >= MOST {
        return Ok(false);
    }
    counts.insert(change, count + 1)?;
    Ok(true)
}

/// Whether no change has more fixes that are on than the most.
pub(crate) fn have_few_fixes(alloc: Global, tables: &Tables) -> Result<bool, AllocError>
    ensures { IfOk result (λ few. IsTrue few ↔ HaveFewFixes (version_of tables.now table_ids.Domain).rows) }
{
    let mut counts = BTreeMap::new(alloc);
    for row in tables.version(TableId::Domain).rows() {
        if let Some(change) = fixed_change(alloc, row)? {
            if !add_fix(&mut counts, change)? {
                return Ok(false);
            }
        }
    }
    Ok(true)
}
