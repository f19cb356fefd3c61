//! What a request does.

ghost use Rattle.std.specs.Prelude.{◌≡◌, List, None, IfOk, IsFalse};
ghost use Rattle.depot_rows.specs.db_records.declared.table.TableId.TheVariants as table_ids;
ghost use Rattle.depot_rows.specs.table_changes.Changed.{AllFitIn, rows_of};
ghost use Rattle.depot_rows.specs.depot_model.Asking.{who_of as who_in};
ghost use Rattle.depot_rows.specs.depot_model.Commands.{own_step as own_step_of, step, whole_step};
ghost use Rattle.depot_rows.specs.depot_model.Common.{last_refusals};
ghost use Rattle.depot_rows.specs.depot_model.Deeds.{Deed};
ghost use Rattle.depot_rows.specs.depot_model.Rules.{IsSound, NotBoth};
ghost use Rattle.depot_rows.specs.depot_model.Step.{Step as ModelStep, after};
ghost use Rattle.depot_rows.specs.Standing.{HasRows};
ghost use Rattle.named_files.specs.Asked.{IsAsker};
ghost use Rattle.row_changes.specs.Differences.{AreDifferences};
ghost use Rattle.reply_rows.specs.Made.{IsMade};
ghost use Rattle.step_stores.specs.Stored.{IsStoring};
ghost use Rattle.stored_contents.specs.Placed.{StandAfter};
ghost use Rattle.command_core.specs.Families.{is_job as is_of_job, is_server as is_of_server, is_spec as is_of_spec, is_submit as submits};
ghost use Rattle.reply_rows.specs.Refusing.{first_of};
ghost use Rattle.command_core.specs.Outcomes.{HasNeeded, HasTouched, IsFormed, IsFormedBy, IsOutcome, IsStep};

use crate::about::{
    is_change, is_history, is_job, is_opening, is_server, is_spec, is_submit, is_syncing,
};
use crate::change_commands::change_step;
use crate::history_commands::history_step;
use crate::job_commands::job_step;
use crate::opening_commands::opening_step;
use crate::outcome::Outcome;
use crate::refusing::{first_refusal, word_row};
use crate::server_commands::server_step;
use crate::shelf_commands::shelf_step;
use crate::spec_commands::spec_step;
use crate::submit_commands::submit_step;
use crate::syncing_commands::syncing_step;
use depot_rows::model::{Command, Reply, Request};
use depot_rows::paths::Sequence;
use depot_rows::protections::Who;
use depot_rows::tables::Tables;
use named_files::Asker;
use reply_rows::Step;
use row_changes::row_changes;
use row_reads::who_of;
use std::alloc::{AllocError, Global};

/// What a command over files that is no submit does for its asker where no refusal holds that is common to all.
fn files_step(
    alloc: Global,
    tables: &Tables,
    request: &Request,
    asker: &Asker,
    command: &Command,
) -> Result<Step, AllocError>
    ensures { IfOk result (λ step. (d : List Deed) → IsSound d → IsAsker d request.now.caller asker.now →
        IsFalse (is_of_spec command.now) →
        IsFalse (is_of_server command.now) → IsFalse (is_of_job command.now) → IsFalse (submits command.now) →
        IsFormed command.now →
        HasTouched (rows_of tables.now) d command.now →
        IsMade (rows_of tables.now) d d (own_step_of d request.now command.now) step) }
{
    if is_opening(command) {
        return opening_step(alloc, tables, request, asker, command);
    }
    if is_change(command) {
        return change_step(alloc, tables, request, asker, command);
    }
    if is_syncing(command) {
        return syncing_step(alloc, tables, request, asker, command);
    }
    if is_history(command) {
        return history_step(alloc, tables, request, asker, command);
    }
    let step = shelf_step(alloc, tables, request, asker, command)?;
    Ok(step)
}

/// What a command that is no submit does where no refusal holds that is common to all. Rights and view are made for a
/// command over files alone.
fn own_step(
    alloc: Global,
    tables: &Tables,
    request: &Request,
    who: Who,
    command: &Command,
) -> Result<Step, AllocError>
    ensures { IfOk result (λ step. (d : List Deed) → IsSound d → who ≡ who_in d request.now.caller →
        IsFalse (submits command.now) → IsFormed command.now →
        HasTouched (rows_of tables.now) d command.now →
        IsMade (rows_of tables.now) d d (own_step_of d request.now command.now) step) }
{
    if is_spec(command) {
        return spec_step(alloc, tables, request, command);
    }
    if is_server(command) {
        return server_step(alloc, tables, request, command);
    }
    if is_job(command) {
        return job_step(alloc, tables, request, command);
    }
    let asker = Asker::with(alloc, tables, &request.caller, who)?;
    let done = files_step(alloc, tables, request, &asker, command);
    drop(asker);
    let step = done?;
    Ok(step)
}

/// The same with what is stored: a submit puts the contents of its files behind those of the archive, and
/// any other command stores nothing. No refusal holds before it.
fn storing_step(
    alloc: Global,
    tables: &Tables,
    request: &Request,
    who: Who,
    command: &Command,
) -> Result<Step, AllocError>
    ensures { IfOk result (λ step. (d : List Deed) → IsSound d → who ≡ who_in d request.now.caller →
        first_of (last_refusals d command.now) ≡ None →
        IsFormed command.now → HasTouched (rows_of tables.now) d command.now →
        IsStoring (rows_of tables.now) tables.now.archive_end d (own_step_of d request.now command.now) step) }
{
    if is_submit(command) {
        let asker = Asker::with(alloc, tables, &request.caller, who)?;
        let done = submit_step(alloc, tables, request, &asker, command);
        drop(asker);
        let submitted = done?;
        return Ok(submitted);
    }
    let step = own_step(alloc, tables, request, who, command)?;
    Ok(step)
}

/// The step of a command: the first refusal that holds, or else its own step. The caller's groups are read once, for
/// both.
fn command_step(
    alloc: Global,
    tables: &Tables,
    request: &Request,
    command: &Command,
) -> Result<Step, AllocError>
    ensures { IfOk result (λ step. (d : List Deed) → IsSound d → IsFormed command.now →
        HasTouched (rows_of tables.now) d command.now →
        IsStoring (rows_of tables.now) tables.now.archive_end d (whole_step d request.now command.now) step) }
{
    let who = who_of(alloc, tables, &request.caller)?;
    let refusal = first_refusal(alloc, tables, &request.caller, &who, command)?;
    match refusal {
        Some(row) => {
            let refused = Step::tells(alloc, row)?;
            Ok(refused)
        }
        None => {
            let step = storing_step(alloc, tables, request, who, command)?;
            Ok(step)
        }
    }
}

/// The step of a request.
fn request_step(alloc: Global, tables: &Tables, request: &Request) -> Result<Step, AllocError>
    ensures { IfOk result (λ made. (d : List Deed) → IsSound d → IsFormedBy request.now →
        HasNeeded (rows_of tables.now) d request.now →
        IsStep (rows_of tables.now) tables.now.archive_end d (step d request.now) made) }
{
    match &request.command {
        Ok(command) => {
            let step = command_step(alloc, tables, request, command)?;
            Ok(step)
        }
        Err(fault) => {
            let step = Step::tells(alloc, word_row(alloc, fault)?)?;
            Ok(step)
        }
    }
}

/// The outcome of a step.
fn finish(alloc: Global, tables: &Tables, step: Step) -> Result<Outcome, AllocError>
    ensures told { IfOk result (λ outcome. (outcome.reply.rows ≡ step.rows) × (outcome.stores ≡ step.stores) ×
        (outcome.reads ≡ step.reads)) }
    ensures changes { IfOk result (λ outcome. (d : List Deed) (model : ModelStep) → NotBoth d →
        IsStep (rows_of tables.now) tables.now.archive_end d model step →
        AreDifferences (rows_of tables.now) d (after d model.deeds) outcome.changes) }
    ensures contents { IfOk result (λ outcome. (d : List Deed) (model : ModelStep) → IsSound d →
        IsStep (rows_of tables.now) tables.now.archive_end d model step →
        HasRows (rows_of tables.now) d table_ids.Rev →
        StandAfter (rows_of tables.now) tables.now.archive_end d (after d model.deeds) outcome.stores outcome.changes) }
    ensures fit { IfOk result (λ outcome. AllFitIn (rows_of tables.now) outcome.changes) }
{
    let changes = row_changes(alloc, tables, step.deeds.as_slice())?;
    Ok(Outcome {
        reply: Reply { rows: step.rows },
        changes: Sequence::from_vec(changes),
        stores: step.stores,
        reads: step.reads,
    })
}

/// What a request is answered, what it changes in the tables, and what it stores in the archive behind
/// what is used of it; nothing is changed or stored yet. Where the tables that it needs have the rows of
/// a sound depot, all are the model's. The one error is want of memory.
pub fn evaluate(alloc: Global, tables: &Tables, request: &Request) -> Result<Outcome, AllocError>
    ensures outcome { IfOk result (λ outcome. (d : List Deed) → IsSound d → IsFormedBy request.now →
        HasNeeded (rows_of tables.now) d request.now →
        IsOutcome (rows_of tables.now) tables.now.archive_end d request.now outcome) }
    // Whatever the tables have, each change fits after those before it.
    ensures fit { IfOk result (λ outcome. AllFitIn (rows_of tables.now) outcome.changes) }
{
    let step = request_step(alloc, tables, request)?;
    let outcome = finish(alloc, tables, step)?;
    Ok(outcome)
}
