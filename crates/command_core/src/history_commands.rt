//! Submitted files.

ghost use Rattle.std.specs.Prelude.{List, IfOk, IsTrue};
ghost use Rattle.depot_rows.specs.table_changes.Changed.{rows_of};
ghost use Rattle.depot_rows.specs.depot_model.Commands.{own_step};
ghost use Rattle.depot_rows.specs.depot_model.Deeds.{Deed};
ghost use Rattle.depot_rows.specs.depot_model.Rules.{IsSound};
ghost use Rattle.named_files.specs.Asked.{IsAsker};
ghost use Rattle.reply_rows.specs.Made.{IsMade};
ghost use Rattle.command_core.specs.Families.{is_history};
ghost use Rattle.command_core.specs.Outcomes.{HasTouched, IsFormed};

use depot_rows::model::{Command, Request};
use depot_rows::tables::Tables;
use history_query::{dirs, file_stat, filelog, integrated, print};
use named_files::Asker;
use reply_rows::Step;
use std::alloc::{AllocError, Global};

/// What a command that shows submitted files does for its asker where no refusal holds that is common to all.
pub(crate) fn history_step(
    alloc: Global,
    tables: &Tables,
    request: &Request,
    asker: &Asker,
    command: &Command,
) -> Result<Step, AllocError>
    ensures { IfOk result (λ step. (d : List Deed) → IsSound d → IsAsker d request.now.caller asker.now →
        IsTrue (is_history command.now) →
        IsFormed command.now → HasTouched (rows_of tables.now) d command.now →
        IsMade (rows_of tables.now) d d (own_step d request.now command.now) step) }
{
    let caller = &request.caller;
    match command {
        Command::Files { live, files } => {
            let listed = history_query::files(
                alloc,
                tables,
                caller,
                asker,
                *live,
                files.as_slice(),
            )?;
            Ok(listed)
        }
        Command::FileLog { files } => {
            let logged = filelog(alloc, tables, caller, asker, files.as_slice())?;
            Ok(logged)
        }
        Command::Print { files } => {
            let printed = print(alloc, tables, caller, asker, files.as_slice())?;
            Ok(printed)
        }
        Command::Dirs { patterns } => {
            let listed = dirs(alloc, tables, caller, asker, patterns.as_slice())?;
            Ok(listed)
        }
        Command::FileStat { files } => {
            let stated = file_stat(alloc, tables, caller, asker, files.as_slice())?;
            Ok(stated)
        }
        Command::Integrated { files } => {
            let listed = integrated(alloc, tables, caller, asker, files.as_slice())?;
            Ok(listed)
        }
        // A command of another family never comes here.
        _ => Ok(Step::new(alloc)),
    }
}
