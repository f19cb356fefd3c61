//! Jobs, and the changes that fix them.

ghost use Rattle.std.specs.Prelude.{List, IfOk, IsTrue};
ghost use Rattle.depot_rows.specs.table_changes.Changed.{rows_of};
ghost use Rattle.depot_rows.specs.depot_model.Commands.{own_step};
ghost use Rattle.depot_rows.specs.depot_model.Deeds.{Deed};
ghost use Rattle.depot_rows.specs.depot_model.Rules.{IsSound};
ghost use Rattle.reply_rows.specs.Made.{IsMade};
ghost use Rattle.command_core.specs.Families.{is_job};
ghost use Rattle.command_core.specs.Outcomes.{HasTouched, IsFormed};

use crate::input::input_of;
use depot_rows::model::{Command, Request};
use depot_rows::tables::Tables;
use job_ops::{fix, fix_delete, fix_list, job_list, job_save, job_show};
use reply_rows::Step;
use std::alloc::{AllocError, Global};

/// What a command of jobs and fixes does where no refusal holds that is common to all.
pub(crate) fn job_step(
    alloc: Global,
    tables: &Tables,
    request: &Request,
    command: &Command,
) -> Result<Step, AllocError>
    ensures { IfOk result (λ step. (d : List Deed) → IsSound d → IsTrue (is_job command.now) → IsFormed command.now →
        HasTouched (rows_of tables.now) d command.now →
        IsMade (rows_of tables.now) d d (own_step d request.now command.now) step) }
{
    match command {
        Command::JobShow { job } => {
            let shown = job_show(alloc, tables, &request.caller, job)?;
            Ok(shown)
        }
        Command::JobSave => {
            let saved = job_save(alloc, tables, input_of(request))?;
            Ok(saved)
        }
        Command::Jobs => {
            let listed = job_list(alloc, tables)?;
            Ok(listed)
        }
        Command::Fix { change, jobs } => {
            let fixed = fix(alloc, tables, &request.caller, *change, jobs.as_slice())?;
            Ok(fixed)
        }
        Command::FixDelete { change, jobs } => {
            let deleted = fix_delete(alloc, tables, *change, jobs.as_slice())?;
            Ok(deleted)
        }
        Command::Fixes { change, job } => {
            let listed = fix_list(alloc, tables, *change, job)?;
            Ok(listed)
        }
        // A command of another family never comes here.
        _ => Ok(Step::new(alloc)),
    }
}
