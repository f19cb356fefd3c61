//! By what fixes of a change are refused: the change, the jobs, and how many there are.

ghost use Rattle.std.specs.Prelude.{◌≡◌, List, IfOk, filter, length, not, is_some, option_map};
ghost use Rattle.std.specs.List.{list_any};
ghost use Rattle.depot_rows.specs.depot_path.Bytes.{same};
ghost use Rattle.depot_rows.specs.db_records.declared.table.TableId.TheVariants as table_ids;
ghost use Rattle.depot_rows.specs.table_changes.Changed.{rows_of};
ghost use Rattle.depot_rows.specs.depot_model.Deeds.{Deed};
ghost use Rattle.depot_rows.specs.depot_model.Fixes.{has_fix as has_fix_in};
ghost use Rattle.depot_rows.specs.depot_model.Numbers.{landing};
ghost use Rattle.depot_rows.specs.depot_model.Refusals.{refusal_row};
ghost use Rattle.depot_rows.specs.depot_model.Rules.{IsSound};
ghost use Rattle.depot_rows.specs.depot_model.Steps.Jobs as model;
ghost use Rattle.depot_rows.specs.Standing.{HasRows};
ghost use Rattle.reply_rows.specs.Refusing.{first_of};
ghost use Rattle.job_ops.specs.Refusals.{named_refusals};

use depot_rows::SpecKind;
use depot_rows::model::Row;
use depot_rows::paths::{Sequence, Text};
use depot_rows::tables::Tables;
use job_fixes::{fix_name, is_on};
use reply_rows::{no_such_change_row, no_such_job_row};
use revision_reads::change_of;
use row_reads::saved_form;
use std::alloc::{AllocError, Global};

/// Whether a change is submitted, from the table of changes alone. It takes no memory.
pub(crate) fn is_landed(tables: &Tables, change: u32) -> bool
    ensures { (d : List Deed) → IsSound d → HasRows (rows_of tables.now) d table_ids.Change →
        result ≡ is_some (landing d change) }
{
    match change_of(tables, change) {
        Some(row) => row.status.as_bytes() == b"submitted".as_slice(),
        None => false,
    }
}

/// The row of the refusal of a change that is neither pending nor submitted, or of the first of some jobs that isn't
/// saved, from the tables of changes and forms alone.
pub(crate) fn named_refusal(
    alloc: Global,
    tables: &Tables,
    change: u32,
    names: &[Text],
) -> Result<Option<Row>, AllocError>
    ensures { IfOk result (λ row. (d : List Deed) → IsSound d → HasRows (rows_of tables.now) d table_ids.Domain →
        HasRows (rows_of tables.now) d table_ids.Change →
        row ≡ option_map refusal_row (first_of (named_refusals d change names.now))) }
{
    if change_of(tables, change).is_none() {
        let row = no_such_change_row(alloc, change)?;
        return Ok(Some(row));
    }
    for name in names {
        let job = saved_form(alloc, tables, SpecKind::Job, name.as_bytes())?;
        if job.is_none() {
            let row = no_such_job_row(alloc, name.as_bytes())?;
            return Ok(Some(row));
        }
    }
    Ok(None)
}

/// Whether one of some names is this one.
fn is_among(names: &[Text], name: &[u8]) -> bool
    ensures { result ≡ list_any (same name.now) names.now }
{
    names.iter().any(|other| name == other.as_bytes())
}

/// Names, each once.
pub(crate) fn distinct(alloc: Global, names: &[Text]) -> Result<Sequence<Text>, AllocError>
    ensures { IfOk result (λ kept. kept ≡ model.distinct names.now) }
{
    let mut kept = Sequence::new(alloc);
    for name in names {
        let bytes = name.as_bytes();
        if !is_among(kept.as_slice(), bytes) {
            kept.push(Text::from_bytes(alloc, bytes)?)?;
        }
    }
    Ok(kept)
}

/// Whether a change fixes a job, from the table of forms alone.
fn has_fix(alloc: Global, tables: &Tables, change: u32, name: &[u8]) -> Result<bool, AllocError>
    ensures { IfOk result (λ fixed. (d : List Deed) → IsSound d → HasRows (rows_of tables.now) d table_ids.Domain →
        fixed ≡ has_fix_in d change name.now) }
{
    let key = fix_name(alloc, name, change)?;
    match saved_form(alloc, tables, SpecKind::Fix, key.as_bytes())? {
        Some(form) => Ok(is_on(&form)),
        None => Ok(false),
    }
}

/// How many of some jobs a change doesn't fix.
pub(crate) fn count_new(
    alloc: Global,
    tables: &Tables,
    change: u32,
    names: &[Text],
) -> Result<usize, AllocError>
    ensures { IfOk result (λ count. (d : List Deed) → IsSound d → HasRows (rows_of tables.now) d table_ids.Domain →
        count ≡ length (filter (λ name. not (has_fix_in d change name)) names.now)) }
{
    let mut count = 0;
    for name in names {
        let fixed = has_fix(alloc, tables, change, name.as_bytes())?;
        if !fixed {
            count += 1;
        }
    }
    Ok(count)
}
