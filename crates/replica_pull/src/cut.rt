//! Rows and changes without those of files outside a filter.

ghost use Rattle.std.specs.Prelude.{◌≡◌, ◌&&◌, IfOk};
ghost use Rattle.depot_rows.specs.db_records.Record.{key_of};
ghost use Rattle.depot_rows.specs.db_records.declared.record.Record.TheVariants as rows;
ghost use Rattle.depot_rows.specs.Cut as depot_cut;
ghost use Rattle.replica_pull.specs.Cut as spec;

use depot_rows::model::Filter;
use depot_rows::paths::{DepotPath, PathFault, Text};
use depot_rows::records::{Change, Record, WorkingRecord};
use std::alloc::{AllocError, Global};

/// Whether a text is a path inside the filter. The one error is want of memory.
fn is_inside(alloc: Global, filter: &Filter, text: &[u8]) -> Result<bool, AllocError>
    ensures { IfOk result (λ inside. inside ≡ depot_cut.is_text_inside filter.now text.now) }
{
    match DepotPath::read(alloc, text) {
        Ok(path) => Ok(filter.holds(&path)),
        Err(PathFault::Memory) => Err(AllocError),
        Err(_) => Ok(false),
    }
}

/// Whether two texts are paths inside the filter.
fn are_inside(alloc: Global, filter: &Filter, a: &[u8], b: &[u8]) -> Result<bool, AllocError>
    ensures { IfOk result (λ inside. inside ≡
        (depot_cut.is_text_inside filter.now a.now && depot_cut.is_text_inside filter.now b.now)) }
{
    let first = is_inside(alloc, filter, a)?;
    let second = is_inside(alloc, filter, b)?;
    Ok(first && second)
}

/// Whether a replica with the filter has the row: all of its files are inside, and it is of no shelved
/// file. The one error is want of memory.
pub fn is_left(alloc: Global, filter: &Filter, row: &Record) -> Result<bool, AllocError>
    ensures { IfOk result (λ left. left ≡ depot_cut.is_left filter.now (key_of row.now)) }
{
    match row {
        Record::Domain(row) => Ok(row.kind.as_bytes() != b"shelf".as_slice()),
        Record::Have(row) => is_inside(alloc, filter, row.path.as_bytes()),
        Record::Label(row) => is_inside(alloc, filter, row.path.as_bytes()),
        Record::Integed(row) => are_inside(
            alloc,
            filter,
            row.to_file.as_bytes(),
            row.from_file.as_bytes(),
        ),
        Record::Resolve(row) => {
            are_inside(alloc, filter, row.path.as_bytes(), row.from.as_bytes())
        }
        Record::Working(row) => is_inside(alloc, filter, row.path.as_bytes()),
        Record::Rev(row) => is_inside(alloc, filter, row.path.as_bytes()),
        _ => Ok(true),
    }
}

/// An opened file without its source where that isn't inside the filter.
fn cut_working(
    alloc: Global,
    filter: &Filter,
    row: &WorkingRecord,
) -> Result<WorkingRecord, AllocError>
    ensures { IfOk result (λ cut. rows.Working cut ≡ depot_cut.cut_row filter.now (rows.Working row.now)) }
{
    let inside = is_inside(alloc, filter, row.source.as_bytes())?;
    let mut copy = row.clone()?;
    if !inside {
        copy.source = Text::new(alloc);
        copy.source_rev = 0;
    }
    Ok(copy)
}

/// The row as a replica has it.
fn cut_row(alloc: Global, filter: &Filter, row: &Record) -> Result<Record, AllocError>
    ensures { IfOk result (λ cut. cut ≡ depot_cut.cut_row filter.now row.now) }
{
    match row {
        Record::Working(working) => {
            let cut = cut_working(alloc, filter, working)?;
            Ok(Record::Working(cut))
        }
        _ => row.copy(),
    }
}

/// A change of a master's rows as a replica makes it, or nothing where the replica doesn't have the row.
/// The one error is want of memory.
pub fn cut_change(
    alloc: Global,
    filter: &Filter,
    change: &Change,
) -> Result<Option<Change>, AllocError>
    ensures { IfOk result (λ cut. cut ≡ spec.cut_change filter.now change.now) }
{
    if !is_left(alloc, filter, &change.row)? {
        return Ok(None);
    }
    let row = cut_row(alloc, filter, &change.row)?;
    Ok(Some(Change { op: change.op, row }))
}
