//! The server itself: checkpoints, and what only a replica asks.

ghost use Rattle.std.specs.Prelude.{List, IfOk, IsTrue};
ghost use Rattle.depot_rows.specs.table_changes.Changed.{rows_of};
ghost use Rattle.depot_rows.specs.depot_model.Commands.{own_step};
ghost use Rattle.depot_rows.specs.depot_model.Deeds.{Deed};
ghost use Rattle.depot_rows.specs.depot_model.Rules.{IsSound};
ghost use Rattle.reply_rows.specs.Made.{IsMade};
ghost use Rattle.command_core.specs.Families.{is_server};
ghost use Rattle.command_core.specs.Outcomes.{HasTouched, IsFormed};

use depot_rows::model::{Command, Request};
use depot_rows::tables::Tables;
use reply_rows::{Step, usage_row};
use spec_ops::checkpoint;
use std::alloc::{AllocError, Global};

/// What a command of the server itself does where no refusal holds that is common to all. A session can't pull: only a
/// replica does.
pub(crate) fn server_step(
    alloc: Global,
    tables: &Tables,
    request: &Request,
    command: &Command,
) -> Result<Step, AllocError>
    ensures { IfOk result (λ step. (d : List Deed) → IsSound d → IsTrue (is_server command.now) → IsFormed command.now →
        HasTouched (rows_of tables.now) d command.now →
        IsMade (rows_of tables.now) d d (own_step d request.now command.now) step) }
{
    match command {
        Command::Checkpoint => {
            let begun = checkpoint(alloc, tables)?;
            Ok(begun)
        }
        Command::Pull => {
            let row = usage_row(alloc, b"pull")?;
            let refused = Step::tells(alloc, row)?;
            Ok(refused)
        }
        // A command of another family never comes here.
        _ => Ok(Step::new(alloc)),
    }
}
