//! Shelved files.

ghost use Rattle.std.specs.Prelude.{List, IfOk, IsTrue};
ghost use Rattle.depot_rows.specs.table_changes.Changed.{rows_of};
ghost use Rattle.depot_rows.specs.depot_model.Commands.{own_step};
ghost use Rattle.depot_rows.specs.depot_model.Deeds.{Deed};
ghost use Rattle.depot_rows.specs.depot_model.Rules.{IsSound};
ghost use Rattle.named_files.specs.Asked.{IsAsker};
ghost use Rattle.reply_rows.specs.Made.{IsMade};
ghost use Rattle.command_core.specs.Families.{is_shelf};
ghost use Rattle.command_core.specs.Outcomes.{HasTouched, IsFormed};

use depot_rows::model::{Command, Request};
use depot_rows::tables::Tables;
use named_files::Asker;
use reply_rows::Step;
use shelf_ops::{describe_shelved, shelve, shelve_delete, unshelve};
use std::alloc::{AllocError, Global};

/// What a command of shelved files does for its asker where no refusal holds that is common to all.
pub(crate) fn shelf_step(
    alloc: Global,
    tables: &Tables,
    request: &Request,
    asker: &Asker,
    command: &Command,
) -> Result<Step, AllocError>
    ensures { IfOk result (λ step. (d : List Deed) → IsSound d → IsAsker d request.now.caller asker.now →
        IsTrue (is_shelf command.now) →
        IsFormed command.now → HasTouched (rows_of tables.now) d command.now →
        IsMade (rows_of tables.now) d d (own_step d request.now command.now) step) }
{
    let caller = &request.caller;
    match command {
        Command::Shelve {
            change,
            replaces,
            files,
        } => {
            let kept = shelve(
                alloc,
                tables,
                request,
                asker,
                *change,
                *replaces,
                files.as_slice(),
            )?;
            Ok(kept)
        }
        Command::ShelveDelete { change, files } => {
            let removed = shelve_delete(alloc, tables, caller, asker, *change, files.as_slice())?;
            Ok(removed)
        }
        Command::Unshelve {
            shelved,
            change,
            files,
        } => {
            let opened = unshelve(
                alloc,
                tables,
                caller,
                asker,
                *shelved,
                *change,
                files.as_slice(),
            )?;
            Ok(opened)
        }
        Command::DescribeShelved { change } => {
            let described = describe_shelved(alloc, tables, asker, *change)?;
            Ok(described)
        }
        // A command of another family never comes here.
        _ => Ok(Step::new(alloc)),
    }
}
