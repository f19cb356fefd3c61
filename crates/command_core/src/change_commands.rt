//! Changes that are shown.

ghost use Rattle.std.specs.Prelude.{List, IfOk, IsTrue};
ghost use Rattle.depot_rows.specs.table_changes.Changed.{rows_of};
ghost use Rattle.depot_rows.specs.depot_model.Commands.{own_step};
ghost use Rattle.depot_rows.specs.depot_model.Deeds.{Deed};
ghost use Rattle.depot_rows.specs.depot_model.Rules.{IsSound};
ghost use Rattle.named_files.specs.Asked.{IsAsker};
ghost use Rattle.reply_rows.specs.Made.{IsMade};
ghost use Rattle.command_core.specs.Families.{is_change};
ghost use Rattle.command_core.specs.Outcomes.{HasTouched, IsFormed};

use change_lists::{change_show, changes, describe};
use depot_rows::model::{Command, Request};
use depot_rows::tables::Tables;
use named_files::Asker;
use reply_rows::Step;
use std::alloc::{AllocError, Global};

/// What a command that shows changes does for its asker where no refusal holds that is common to all.
pub(crate) fn change_step(
    alloc: Global,
    tables: &Tables,
    request: &Request,
    asker: &Asker,
    command: &Command,
) -> Result<Step, AllocError>
    ensures { IfOk result (λ step. (d : List Deed) → IsSound d → IsAsker d request.now.caller asker.now →
        IsTrue (is_change command.now) →
        IsFormed command.now → HasTouched (rows_of tables.now) d command.now →
        IsMade (rows_of tables.now) d d (own_step d request.now command.now) step) }
{
    let caller = &request.caller;
    match command {
        Command::ChangeShow { change } => {
            let shown = change_show(alloc, tables, caller, asker, *change)?;
            Ok(shown)
        }
        Command::Changes {
            most,
            status,
            user,
            client,
            files,
        } => {
            let listed = changes(
                alloc,
                tables,
                caller,
                asker,
                *most,
                status,
                user,
                client,
                files.as_slice(),
            )?;
            Ok(listed)
        }
        Command::Describe { change } => {
            let described = describe(alloc, tables, asker, *change)?;
            Ok(described)
        }
        // A command of another family never comes here.
        _ => Ok(Step::new(alloc)),
    }
}
