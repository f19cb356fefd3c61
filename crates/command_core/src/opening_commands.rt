//! Opened files.

ghost use Rattle.std.specs.Prelude.{List, IfOk, IsTrue};
ghost use Rattle.depot_rows.specs.table_changes.Changed.{rows_of};
ghost use Rattle.depot_rows.specs.depot_model.Commands.{own_step};
ghost use Rattle.depot_rows.specs.depot_model.Deeds.{Deed};
ghost use Rattle.depot_rows.specs.depot_model.Rules.{IsSound};
ghost use Rattle.named_files.specs.Asked.{IsAsker};
ghost use Rattle.reply_rows.specs.Made.{IsMade};
ghost use Rattle.command_core.specs.Families.{is_opening};
ghost use Rattle.command_core.specs.Outcomes.{HasTouched, IsFormed};

use depot_rows::model::{Command, Request};
use depot_rows::tables::Tables;
use named_files::Asker;
use opened_files::{add, delete, edit, lock, move_files, opened, reopen, revert, unlock};
use reply_rows::Step;
use std::alloc::{AllocError, Global};

/// What a command of opened files does for its asker where no refusal holds that is common to all.
pub(crate) fn opening_step(
    alloc: Global,
    tables: &Tables,
    request: &Request,
    asker: &Asker,
    command: &Command,
) -> Result<Step, AllocError>
    ensures { IfOk result (λ step. (d : List Deed) → IsSound d → IsAsker d request.now.caller asker.now →
        IsTrue (is_opening command.now) →
        IsFormed command.now → HasTouched (rows_of tables.now) d command.now →
        IsMade (rows_of tables.now) d d (own_step d request.now command.now) step) }
{
    let caller = &request.caller;
    match command {
        Command::Add {
            change,
            file_type,
            paths,
        } => {
            let added = add(
                alloc,
                tables,
                caller,
                asker,
                *change,
                file_type,
                paths.as_slice(),
            )?;
            Ok(added)
        }
        Command::Edit {
            change,
            file_type,
            files,
        } => {
            let edited = edit(
                alloc,
                tables,
                caller,
                asker,
                *change,
                file_type,
                files.as_slice(),
            )?;
            Ok(edited)
        }
        Command::Delete { change, files } => {
            let deleted = delete(alloc, tables, caller, asker, *change, files.as_slice())?;
            Ok(deleted)
        }
        Command::Revert { change, files } => {
            let reverted = revert(alloc, tables, caller, asker, *change, files.as_slice())?;
            Ok(reverted)
        }
        Command::Reopen {
            change,
            file_type,
            files,
        } => {
            let reopened = reopen(
                alloc,
                tables,
                caller,
                asker,
                *change,
                file_type,
                files.as_slice(),
            )?;
            Ok(reopened)
        }
        Command::Lock { change, files } => {
            let locked = lock(alloc, tables, caller, asker, *change, files.as_slice())?;
            Ok(locked)
        }
        Command::Unlock { change, files } => {
            let unlocked = unlock(alloc, tables, caller, asker, *change, files.as_slice())?;
            Ok(unlocked)
        }
        Command::Opened { all, files } => {
            let listed = opened(alloc, tables, caller, asker, *all, files.as_slice())?;
            Ok(listed)
        }
        Command::Move { change, from, to } => {
            let moved = move_files(alloc, tables, caller, asker, *change, from, to)?;
            Ok(moved)
        }
        // A command of another family never comes here.
        _ => Ok(Step::new(alloc)),
    }
}
