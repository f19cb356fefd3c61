//! The files that a client has opened in a change.

ghost use Rattle.std.specs.Prelude.{◌≡◌, List, IfOk, map};
ghost use Rattle.depot_rows.specs.db_records.declared.table.TableId.TheVariants as table_ids;
ghost use Rattle.depot_rows.specs.depot_model.Deeds.{Deed};
ghost use Rattle.depot_rows.specs.depot_model.declared.request.Caller.{Caller as AnyCaller};
ghost use Rattle.depot_rows.specs.depot_model.Rules.{IsSound};
ghost use Rattle.depot_rows.specs.depot_model.Steps.Submitting as model;
ghost use Rattle.depot_rows.specs.Deed.{opening_of as opening_said};
ghost use Rattle.depot_rows.specs.Standing.{HasRows};
ghost use Rattle.named_files.specs.Asked.{IsAsker};
ghost use Rattle.depot_rows.specs.table_changes.Changed.{rows_of};

use depot_rows::Opening;
use depot_rows::paths::Sequence;
use depot_rows::tables::Tables;
use named_files::Asker;
use opening_reads::openings_of as openings_in;
use std::alloc::{AllocError, Global};

/// The files that the client of an asker has opened in a change, 0 for the default one, in the order of their paths,
/// from the table of opened files alone. The one error is want of memory.
pub(crate) fn openings_of(
    alloc: Global,
    tables: &Tables,
    asker: &Asker,
    change: u32,
) -> Result<Sequence<Opening>, AllocError>
    ensures { IfOk result (λ openings. (d : List Deed) (caller : AnyCaller) → IsSound d → IsAsker d caller asker.now →
        HasRows (rows_of tables.now) d table_ids.Working →
        map opening_said openings ≡ model.openings_of d caller change) }
{
    let openings = openings_in(alloc, tables, &asker.client, change)?;
    Ok(openings)
}
