//! Counters and forms: of clients, labels, groups and protections, and those of changes that are saved or deleted.

ghost use Rattle.std.specs.Prelude.{List, IfOk, IsTrue, ◌≡◌, unwrap_or};
ghost use Rattle.depot_rows.specs.table_changes.Changed.{rows_of};
ghost use Rattle.depot_rows.specs.depot_model.Commands.{own_step};
ghost use Rattle.depot_rows.specs.depot_model.Deeds.{Deed};
ghost use Rattle.depot_rows.specs.depot_model.Rules.{IsSound};
ghost use Rattle.reply_rows.specs.Made.{IsMade};
ghost use Rattle.command_core.specs.Families.{is_spec};
ghost use Rattle.command_core.specs.Outcomes.{HasTouched, IsFormed};

use crate::input::input_of;
use change_lists::{change_delete, change_save};
use depot_rows::model::{Command, Request};
use depot_rows::paths::Name;
use depot_rows::tables::Tables;
use reply_rows::Step;
use spec_ops::{
    client_save, client_show, counter_delete, counter_list, counter_set, counter_show, group_save,
    group_show, label_list, label_save, label_show, protect_save, protect_show,
};
use std::alloc::{AllocError, Global};

/// The name that is given, or else the caller's client.
fn client_of<'a>(request: &'a Request, name: &'a Option<Name>) -> &'a Name
    ensures { result.now ≡ unwrap_or name.now request.now.caller.client }
{
    match name {
        Some(name) => name,
        None => &request.caller.client,
    }
}

/// What a command of counters and forms does where no refusal holds that is common to all.
pub(crate) fn spec_step(
    alloc: Global,
    tables: &Tables,
    request: &Request,
    command: &Command,
) -> Result<Step, AllocError>
    ensures { IfOk result (λ step. (d : List Deed) → IsSound d → IsTrue (is_spec command.now) → IsFormed command.now →
        HasTouched (rows_of tables.now) d command.now →
        IsMade (rows_of tables.now) d d (own_step d request.now command.now) step) }
{
    match command {
        Command::CounterShow { name } => {
            let shown = counter_show(alloc, tables, name)?;
            Ok(shown)
        }
        Command::CounterSet { name, value } => {
            let set = counter_set(alloc, name, *value)?;
            Ok(set)
        }
        Command::CounterDelete { name } => {
            let deleted = counter_delete(alloc, name)?;
            Ok(deleted)
        }
        Command::Counters => {
            let listed = counter_list(alloc, tables)?;
            Ok(listed)
        }
        Command::ClientShow { name } => {
            let shown = client_show(alloc, tables, client_of(request, name))?;
            Ok(shown)
        }
        Command::ClientSave => {
            let saved = client_save(alloc, input_of(request))?;
            Ok(saved)
        }
        Command::LabelShow { name } => {
            let shown = label_show(alloc, tables, name)?;
            Ok(shown)
        }
        Command::LabelSave => {
            let saved = label_save(alloc, tables, input_of(request))?;
            Ok(saved)
        }
        Command::Labels => {
            let listed = label_list(alloc, tables)?;
            Ok(listed)
        }
        Command::GroupShow { name } => {
            let shown = group_show(alloc, tables, name)?;
            Ok(shown)
        }
        Command::GroupSave => {
            let saved = group_save(alloc, input_of(request))?;
            Ok(saved)
        }
        Command::ProtectShow => {
            let shown = protect_show(alloc, tables)?;
            Ok(shown)
        }
        Command::ProtectSave => {
            let saved = protect_save(alloc, input_of(request))?;
            Ok(saved)
        }
        Command::ChangeSave => {
            let saved = change_save(alloc, tables, request, input_of(request))?;
            Ok(saved)
        }
        Command::ChangeDelete { change } => {
            let deleted = change_delete(alloc, tables, &request.caller, *change)?;
            Ok(deleted)
        }
        // A command of another family never comes here.
        _ => Ok(Step::new(alloc)),
    }
}
