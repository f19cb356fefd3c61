//! The submitted changes.

ghost use Rattle.std.specs.Prelude.{◌≡◌, List, IfOk, min};
ghost use Rattle.std.specs.Option.{option_copied};
ghost use Rattle.depot_rows.specs.db_records.declared.table.TableId.TheVariants as table_ids;
ghost use Rattle.depot_rows.specs.table_changes.Changed.{rows_of};
ghost use Rattle.depot_rows.specs.depot_model.Deeds.{Deed};
ghost use Rattle.depot_rows.specs.depot_model.Numbers.{top};
ghost use Rattle.depot_rows.specs.depot_model.Rules.{IsSound};
ghost use Rattle.depot_rows.specs.Standing.{HasRows};
ghost use Rattle.depot_figures.specs.Figures as spec;

use depot_rows::records::ChangeRecord;
use depot_rows::tables::Tables;
use revision_reads::change_of;
use row_reads::top_change;
use std::alloc::{AllocError, Global};

/// The greatest number of a change.
const MOST_CHANGE: u64 = 2_147_483_647;

/// Whether a row is that of a submitted change.
fn is_submitted(row: Option<&ChangeRecord>) -> bool
    ensures { result ≡ spec.submitted_row (option_copied row.entry) }
{
    match row {
        Some(row) => row.status.as_bytes() == b"submitted".as_slice(),
        None => false,
    }
}

/// Whether a change was submitted.
fn is_landed(tables: &Tables, change: u32) -> bool
    ensures { (d : List Deed) → IsSound d → HasRows (rows_of tables.now) d table_ids.Change →
        result ≡ spec.is_landed d change }
{
    let row = change_of(tables, change);
    is_submitted(row)
}

/// How many of the first numbers are those of submitted changes.
fn landed_up_to(tables: &Tables, last: u32) -> u64
    ensures { (d : List Deed) → IsSound d → HasRows (rows_of tables.now) d table_ids.Change →
        result ≡ spec.landed_up_to d last }
{
    let mut count: u64 = 0;
    for before in 0..last {
        if is_landed(tables, before + 1) {
            count += 1;
        }
    }
    count
}

/// The greatest number of a change, as it fits.
fn last_change(alloc: Global, tables: &Tables) -> Result<u32, AllocError>
    ensures { IfOk result (λ last. (d : List Deed) → IsSound d → HasRows (rows_of tables.now) d table_ids.Counter →
        last ≡ top d) }
{
    let top = top_change(alloc, tables)?;
    Ok(top.min(MOST_CHANGE) as u32)
}

/// The number of submitted changes (Command-Line Reference, "p4 changes"), from the tables of counters and of changes.
/// It looks up each number up to the greatest. The one error is want of memory.
pub fn landed_changes(alloc: Global, tables: &Tables) -> Result<u64, AllocError>
    ensures { IfOk result (λ count. (d : List Deed) → IsSound d → HasRows (rows_of tables.now) d table_ids.Counter →
        HasRows (rows_of tables.now) d table_ids.Change → count ≡ spec.changes_in d) }
{
    let last = last_change(alloc, tables)?;
    Ok(landed_up_to(tables, last))
}
