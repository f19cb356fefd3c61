//! The openings of a file.

ghost use Rattle.std.specs.Prelude.{◌≡◌, ℕ, List, IfOk, Ok, filter, map};
ghost use Rattle.depot_rows.specs.depot_path.Path.{path_of, printed};
ghost use Rattle.depot_rows.specs.db_records.declared.table.TableId.TheVariants as table_ids;
ghost use Rattle.row_ranges.specs.Ranges.{has_row};
ghost use Rattle.depot_rows.specs.table_changes.Changed.{rows_of};
ghost use Rattle.depot_rows.specs.depot_model.Deeds.{Deed};
ghost use Rattle.depot_rows.specs.depot_model.Records.{working_record};
ghost use Rattle.depot_rows.specs.Standing.{HasRows};
ghost use Rattle.file_openings.specs.Openings.{openings};

use depot_rows::paths::DepotPath;
use depot_rows::records::TableId;
use depot_rows::tables::Tables;
use row_ranges::KeyRange;
use std::alloc::{AllocError, Global};

/// The range of the rows of a file's openings. The one error is want of memory.
pub fn openings_of(alloc: Global, path: &DepotPath) -> Result<KeyRange, AllocError>
    ensures range { IfOk result (λ range. range ≡ KeyRange.OpenedFiles (printed path.now)) }
    ensures read_again { path_of (printed path.now) ≡ Ok path.now }
{
    let path = path.print(alloc)?;
    Ok(KeyRange::OpenedFiles { path })
}

/// The rows in that range are those of the openings that a depot has of the file, in the order of the clients' names
/// (Command-Line Reference, "p4 opened", option -a), from the table of opened files alone.
pub fn rows_are_openings(tables: &Tables)
    ensures { (d : List Deed) (path : List ℕ) → path_of (printed path) ≡ Ok path →
        HasRows (rows_of tables.now) d table_ids.Working →
        filter (has_row (KeyRange.OpenedFiles (printed path))) (rows_of tables.now table_ids.Working) ≡
        map (working_record d) (openings d path) }
{
    let version = tables.version(TableId::Working);
    // the rows of a version are of its table, their keys rising
    let _table = version.table();
}
