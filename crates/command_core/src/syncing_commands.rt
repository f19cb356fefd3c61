//! Have lists, labels and integration.

ghost use Rattle.std.specs.Prelude.{List, IfOk, IsTrue};
ghost use Rattle.depot_rows.specs.table_changes.Changed.{rows_of};
ghost use Rattle.depot_rows.specs.depot_model.Commands.{own_step};
ghost use Rattle.depot_rows.specs.depot_model.Deeds.{Deed};
ghost use Rattle.depot_rows.specs.depot_model.Rules.{IsSound};
ghost use Rattle.named_files.specs.Asked.{IsAsker};
ghost use Rattle.reply_rows.specs.Made.{IsMade};
ghost use Rattle.command_core.specs.Families.{is_syncing};
ghost use Rattle.command_core.specs.Outcomes.{HasTouched, IsFormed};

use depot_rows::model::{Command, Request};
use depot_rows::tables::Tables;
use have_sync::{have, sync, where_is};
use integ_records::{integrate, resolve};
use label_ops::{labelsync, tag};
use named_files::Asker;
use reply_rows::Step;
use std::alloc::{AllocError, Global};

/// What a command of have lists, labels and integration does for its asker where no refusal holds that is common to
/// all.
pub(crate) fn syncing_step(
    alloc: Global,
    tables: &Tables,
    request: &Request,
    asker: &Asker,
    command: &Command,
) -> Result<Step, AllocError>
    ensures { IfOk result (λ step. (d : List Deed) → IsSound d → IsAsker d request.now.caller asker.now →
        IsTrue (is_syncing command.now) →
        IsFormed command.now → HasTouched (rows_of tables.now) d command.now →
        IsMade (rows_of tables.now) d d (own_step d request.now command.now) step) }
{
    let caller = &request.caller;
    match command {
        Command::Where { paths } => {
            let placed = where_is(alloc, tables, caller, asker, paths.as_slice())?;
            Ok(placed)
        }
        Command::Sync {
            again,
            shows,
            files,
        } => {
            let synced = sync(
                alloc,
                tables,
                caller,
                asker,
                *again,
                *shows,
                files.as_slice(),
            )?;
            Ok(synced)
        }
        Command::Have { files } => {
            let listed = have(alloc, tables, caller, asker, files.as_slice())?;
            Ok(listed)
        }
        Command::Tag {
            label,
            removes,
            files,
        } => {
            let tagged = tag(
                alloc,
                tables,
                caller,
                asker,
                label,
                *removes,
                files.as_slice(),
            )?;
            Ok(tagged)
        }
        Command::LabelSync {
            label,
            labelling,
            files,
        } => {
            let synced = labelsync(
                alloc,
                tables,
                caller,
                asker,
                label,
                *labelling,
                files.as_slice(),
            )?;
            Ok(synced)
        }
        Command::Integrate { change, from, to } => {
            let opened = integrate(alloc, tables, caller, asker, *change, from, to)?;
            Ok(opened)
        }
        Command::Resolve { taking, files } => {
            let resolved = resolve(alloc, tables, caller, asker, *taking, files.as_slice())?;
            Ok(resolved)
        }
        // A command of another family never comes here.
        _ => Ok(Step::new(alloc)),
    }
}
