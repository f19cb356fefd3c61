//! The files and their contents.

ghost use Rattle.std.specs.Prelude.{◌≡◌, ◌+◌, List, IfOk, count_by};
ghost use Rattle.std.specs.Option.{option_copied, option_map_or};
ghost use Rattle.depot_rows.specs.db_records.declared.rows.RevRecord.{RevRecord as Revised};
ghost use Rattle.depot_rows.specs.db_records.declared.table.TableId.TheVariants as table_ids;
ghost use Rattle.depot_rows.specs.table_changes.Changed.{rows_of};
ghost use Rattle.depot_rows.specs.depot_model.Deeds.{Deed};
ghost use Rattle.std.specs.List.{sum_by};
ghost use Rattle.depot_rows.specs.depot_model.Revisions.{is_live_head as live_head};
ghost use Rattle.depot_rows.specs.depot_model.Rules.{IsSound};
ghost use Rattle.depot_rows.specs.Standing.{HasRows};
ghost use Rattle.depot_figures.specs.Figures as spec;

use depot_rows::paths::DepotPath;
use depot_rows::records::RevRecord;
use depot_rows::tables::Tables;
use named_files::{Listing, all_files};
use revision_reads::{head_of, is_live_head, revision_of};
use std::alloc::{AllocError, Global};

/// The figures of files.
#[derive(Clone, Copy)]
pub struct FileFigures {
    /// The files that aren't deleted at their newest revision.
    pub live: u64,
    /// The sum of the sizes of all revisions in bytes.
    pub bytes: u64,
}

/// The size that a row tells.
fn row_size(row: Option<&RevRecord>) -> u64
    ensures { result ≡ option_map_or (λ (r : Revised). r.length) (option_copied row.entry) 0 }
{
    match row {
        Some(row) => row.length,
        None => 0,
    }
}

/// The size of a revision, 0 where there is none.
fn size_at(alloc: Global, tables: &Tables, path: &DepotPath, rev: u32) -> Result<u64, AllocError>
    ensures { IfOk result (λ size. (d : List Deed) → HasRows (rows_of tables.now) d table_ids.Rev →
        size ≡ spec.size_at d path.now rev) }
{
    let row = revision_of(alloc, tables, path, rev)?;
    let size = row_size(row);
    Ok(size)
}

/// The sum of the sizes of a file's first revisions.
fn sizes_up_to(
    alloc: Global,
    tables: &Tables,
    path: &DepotPath,
    last: u32,
) -> Result<u64, AllocError>
    ensures { IfOk result (λ size. (d : List Deed) → HasRows (rows_of tables.now) d table_ids.Rev →
        size ≡ spec.capped (spec.sizes_up_to d path.now last)) }
{
    let mut sum: u64 = 0;
    for before in 0..last {
        let size = size_at(alloc, tables, path, before + 1)?;
        sum = sum.saturating_add(size);
    }
    Ok(sum)
}

/// The sum of the sizes of a file's revisions.
fn file_size(alloc: Global, tables: &Tables, path: &DepotPath) -> Result<u64, AllocError>
    ensures { IfOk result (λ size. (d : List Deed) → IsSound d → HasRows (rows_of tables.now) d table_ids.Rev →
        size ≡ spec.capped (spec.file_size d path.now)) }
{
    let head = head_of(alloc, tables, path)?;
    let size = sizes_up_to(alloc, tables, path, head)?;
    Ok(size)
}

/// The sum of the sizes of the revisions of files.
fn bytes_of(alloc: Global, tables: &Tables, paths: &[DepotPath]) -> Result<u64, AllocError>
    ensures { IfOk result (λ size. (d : List Deed) → IsSound d → HasRows (rows_of tables.now) d table_ids.Rev →
        size ≡ spec.capped (sum_by (spec.file_size d) paths.now)) }
{
    let mut sum: u64 = 0;
    let mut rest = paths;
    while let [path, later @ ..] = rest {
        let size = file_size(alloc, tables, path)?;
        sum = sum.saturating_add(size);
        rest = later;
    }
    Ok(sum)
}

/// How many of these files aren't deleted at their newest revision.
fn live_of(alloc: Global, tables: &Tables, paths: &[DepotPath]) -> Result<u64, AllocError>
    ensures { IfOk result (λ live. (d : List Deed) → IsSound d → HasRows (rows_of tables.now) d table_ids.Rev →
        live ≡ count_by (live_head d) paths.now) }
{
    let mut count: u64 = 0;
    for path in paths {
        let live = is_live_head(alloc, tables, path)?;
        if live {
            count += 1;
        }
    }
    Ok(count)
}

/// The figures of all submitted files (Command-Line Reference, "p4 files", "p4 sizes"), from the table of revisions.
/// The one error is want of memory.
pub fn file_figures(alloc: Global, tables: &Tables) -> Result<FileFigures, AllocError>
    ensures live { IfOk result (λ figures. (d : List Deed) → IsSound d → HasRows (rows_of tables.now) d table_ids.Rev →
        figures.live ≡ spec.live_files_in d) }
    ensures bytes { IfOk result (λ figures. (d : List Deed) → IsSound d → HasRows (rows_of tables.now) d table_ids.Rev →
        figures.bytes ≡ spec.bytes_in d) }
{
    let paths = all_files(alloc, tables, &Listing::Submitted)?;
    let live = live_of(alloc, tables, paths.as_slice())?;
    let bytes = bytes_of(alloc, tables, paths.as_slice())?;
    Ok(FileFigures { live, bytes })
}
