//! `admin checkpoint` (Command-Line Reference, "p4 admin"; System Administrator Guide, "Checkpoint files").

ghost use Rattle.std.specs.Prelude.{◌≡◌, List, IfOk, codes};
ghost use Rattle.depot_rows.specs.db_records.declared.table.TableId.TheVariants as table_ids;
ghost use Rattle.depot_rows.specs.table_changes.Changed.{rows_of};
ghost use Rattle.depot_rows.specs.depot_model.Deeds.{Deed as ModelDeed};
ghost use Rattle.depot_rows.specs.depot_model.Steps.Checkpoint as model;
ghost use Rattle.depot_rows.specs.Standing.{HasRows};
ghost use Rattle.reply_rows.specs.Made.{IsMade};

use crate::counters::counter_value;
use depot_rows::model::Limit;
use depot_rows::paths::Name;
use depot_rows::tables::Tables;
use reply_rows::{RowBuilder, Step, limit_row};
use std::alloc::{AllocError, Global};

/// The generation behind which there is none.
const LAST: u64 = 4095;

/// The name of the counter that tells the generation.
fn counter_name(alloc: Global) -> Result<Name, AllocError>
    ensures { IfOk result (λ name. name ≡ codes "journal") }
{
    match Name::read(alloc, b"journal") {
        Ok(name) => Ok(name),
        Err(_) => Err(AllocError),
    }
}

/// `admin checkpoint`, from the table of counters alone.
pub fn checkpoint(alloc: Global, tables: &Tables) -> Result<Step, AllocError>
    ensures { IfOk result (λ step. (d : List ModelDeed) → HasRows (rows_of tables.now) d table_ids.Counter →
        IsMade (rows_of tables.now) d d (model.checkpoint d) step) }
{
    let name = counter_name(alloc)?;
    let generation = counter_value(alloc, tables, &name)?;
    if generation >= LAST {
        let row = limit_row(alloc, Limit::Generation)?;
        return Step::tells(alloc, row);
    }
    let row = RowBuilder::new(alloc).number(b"journal", generation + 1)?;
    let mut step = Step::tells(alloc, row.row())?;
    step.deeds.count(name, Some(generation + 1))?;
    Ok(step)
}
