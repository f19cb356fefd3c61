//! Submits.

ghost use Rattle.std.specs.Prelude.{◌≡◌, List, None, IfOk, IsTrue};
ghost use Rattle.depot_rows.specs.table_changes.Changed.{rows_of};
ghost use Rattle.depot_rows.specs.depot_model.Commands.{own_step};
ghost use Rattle.depot_rows.specs.depot_model.Common.{last_refusals};
ghost use Rattle.depot_rows.specs.depot_model.Deeds.{Deed};
ghost use Rattle.depot_rows.specs.depot_model.Rules.{IsSound};
ghost use Rattle.named_files.specs.Asked.{IsAsker};
ghost use Rattle.step_stores.specs.Stored.{IsStoring};
ghost use Rattle.command_core.specs.Families.{is_submit};
ghost use Rattle.command_core.specs.Outcomes.{HasTouched};
ghost use Rattle.reply_rows.specs.Refusing.{first_of};

use depot_rows::model::{Command, Request};
use depot_rows::tables::Tables;
use named_files::Asker;
use reply_rows::Step;
use std::alloc::{AllocError, Global};
use submit_core::{submit_change, submit_default};

/// What a submit does for its asker where no refusal holds before it: it stores the contents of its files behind those
/// of the archive.
pub(crate) fn submit_step(
    alloc: Global,
    tables: &Tables,
    request: &Request,
    asker: &Asker,
    command: &Command,
) -> Result<Step, AllocError>
    ensures { IfOk result (λ step. (d : List Deed) → IsSound d → IsAsker d request.now.caller asker.now →
        IsTrue (is_submit command.now) →
        first_of (last_refusals d command.now) ≡ None → HasTouched (rows_of tables.now) d command.now →
        IsStoring (rows_of tables.now) tables.now.archive_end d (own_step d request.now command.now) step) }
{
    match command {
        Command::SubmitDefault { text } => {
            let submitted = submit_default(alloc, tables, request, asker, text)?;
            Ok(submitted)
        }
        Command::SubmitChange { change } => {
            let submitted = submit_change(alloc, tables, request, asker, *change)?;
            Ok(submitted)
        }
        // A command of another family never comes here.
        _ => Ok(Step::new(alloc)),
    }
}
