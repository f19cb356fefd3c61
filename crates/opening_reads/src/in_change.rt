//! The openings of a client in a change.

ghost use Rattle.std.specs.Prelude.{◌≡◌, ◌++◌, List, IfOk, OnOk, map};
ghost use Rattle.depot_rows.specs.db_records.declared.table.TableId.TheVariants as table_ids;
ghost use Rattle.depot_rows.specs.table_changes.Changed.{rows_of};
ghost use Rattle.depot_rows.specs.depot_model.Deeds.{Deed};
ghost use Rattle.depot_rows.specs.depot_model.Rules.{IsSound};
ghost use Rattle.depot_rows.specs.Deed.{opening_of as opening_of_deed};
ghost use Rattle.depot_rows.specs.Standing.{HasRows};
ghost use Rattle.opening_reads.specs.InChange.{opened_in, opening_of_row};

use crate::reading::{opening_in, path_in};
use depot_rows::Opening;
use depot_rows::paths::{Name, Sequence, Text};
use depot_rows::records::{Record, TableId};
use depot_rows::tables::Tables;
use std::alloc::{AllocError, Global};

/// Adds the opening of a row, where it is one of the change.
fn add_opening(
    alloc: Global,
    openings: &mut Sequence<Opening>,
    client: &Name,
    change: u32,
    row: &Record,
) -> Result<(), AllocError>
    ensures { OnOk result (openings.new ≡ openings.old ++ opening_of_row client.now change row.now) }
{
    let Record::Working(row) = row else {
        return Ok(());
    };
    if row.change != change {
        return Ok(());
    }
    if let Some(path) = path_in(alloc, &row.path)? {
        openings.push(opening_in(alloc, client, &path, row)?)?;
    }
    Ok(())
}

/// The openings of a client in a change, 0 for the default one, in the order of their paths (Command-Line Reference,
/// "p4 opened", "p4 submit"), from the table of opened files alone. It walks over the rows of the client's openings.
/// The one error is want of memory.
pub fn openings_of(
    alloc: Global,
    tables: &Tables,
    client: &Name,
    change: u32,
) -> Result<Sequence<Opening>, AllocError>
    ensures { IfOk result (λ openings. (d : List Deed) → IsSound d → HasRows (rows_of tables.now) d table_ids.Working →
        map opening_of_deed openings ≡ opened_in d client.now change) }
{
    let version = tables.version(TableId::Working);
    // the rows of a version are of its table, their keys rising
    let _in_order = version.table();
    let own = Text::from_bytes(alloc, client.as_bytes())?;
    let mut openings = Sequence::new(alloc);
    for row in version.of_client(&own) {
        add_opening(alloc, &mut openings, client, change, row)?;
    }
    Ok(openings)
}
