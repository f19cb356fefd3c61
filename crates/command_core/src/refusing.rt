//! The refusals that are common to all commands, in their order.

ghost use Rattle.std.specs.Prelude.{◌≡◌, ◌||◌, ◌&&◌, ◌++◌, ◌∷◌, [], not, List, flat_map, IfOk, option_map};
ghost use Rattle.std.specs.List.{list_any};
ghost use Rattle.std.specs.Option.{option_copied, option_to_list};
ghost use Rattle.depot_rows.specs.db_records.declared.table.TableId.TheVariants as table_ids;
ghost use Rattle.depot_rows.specs.table_changes.Changed.{rows_of};
ghost use Rattle.depot_rows.specs.depot_model.declared.command.FileArgument.{FileArgument as AnyFile};
ghost use Rattle.depot_rows.specs.depot_model.About.{about};
ghost use Rattle.depot_rows.specs.depot_model.Arguments.{in_client_syntax as in_syntax};
ghost use Rattle.depot_rows.specs.depot_model.Asking.{is_client as client_saved, is_label as label_saved, who_of as who_in};
ghost use Rattle.depot_rows.specs.depot_model.Common.{asks_client as client_asked, asks_have as have_asked, common_refusals, first_unknown as first_unknown_in, last_refusals, unknown_name as unknown_in, word_refusal};
ghost use Rattle.depot_rows.specs.depot_model.Deeds.{Deed};
ghost use Rattle.depot_rows.specs.depot_model.Fixes.{is_fixing as is_fixing_in};
ghost use Rattle.depot_rows.specs.depot_model.Refusals.{refusal_row};
ghost use Rattle.depot_rows.specs.depot_model.Rules.{IsSound};
ghost use Rattle.depot_rows.specs.depot_model.Shelves.{is_shelved as is_shelved_in};
ghost use Rattle.depot_rows.specs.depot_model.Step.{refuse_if};
ghost use Rattle.depot_rows.specs.depot_model.declared.refusal.Refusal.TheVariants as refusals;
ghost use Rattle.depot_rows.specs.Standing.{HasRows};
ghost use Rattle.reply_rows.specs.Refusing.{first_of};

use crate::about::{files_of, need_of, needs_client, patterns_of};
use depot_rows::model::{Caller, Command, FileArgument, PatternArgument, Row, WordFault};
use depot_rows::paths::{Name, RevSpec, Wanted};
use depot_rows::protections::Who;
use depot_rows::tables::Tables;
use held_changes::{is_fixing, is_shelved};
use reply_rows::{
    bad_path_row, bad_revision_row, denied_anywhere_row, fixed_row, no_client_row,
    no_such_label_row, shelved_row, unknown_command_row, usage_row,
};
use row_reads::{in_client_syntax, is_client, is_label, protects_of};
use std::alloc::{AllocError, Global};

/// The row of words that are no command.
pub(crate) fn word_row(alloc: Global, fault: &WordFault) -> Result<Row, AllocError>
    ensures { IfOk result (λ row. row ≡ refusal_row (word_refusal fault.now)) }
{
    match fault {
        WordFault::UnknownCommand(word) => unknown_command_row(alloc, word.as_bytes()),
        WordFault::BadUsage(word) | WordFault::BadNumber(word) => usage_row(alloc, word.as_bytes()),
        WordFault::BadPath(argument, fault) => bad_path_row(alloc, argument.as_bytes(), *fault),
        WordFault::BadRevision(argument, fault) => {
            bad_revision_row(alloc, argument.as_bytes(), *fault)
        }
        WordFault::Memory => usage_row(alloc, b""),
    }
}

/// Whether revisions are those that the client has.
fn asks_have(wanted: &Wanted) -> bool
    ensures { result ≡ have_asked wanted.now }
{
    matches!(wanted, Wanted::One(RevSpec::Have))
}

/// Whether one of the files is named by the caller's client.
fn any_file_asks(client: &Name, files: &[FileArgument]) -> bool
    ensures { result ≡ list_any (λ a. in_syntax client.now a.spec.pattern || have_asked a.spec.wanted) files.now }
{
    files.iter().any(|file| {
        in_client_syntax(client, &file.spec.pattern) || asks_have(&file.spec.wanted)
    })
}

/// Whether one of the patterns is in client syntax.
fn any_pattern_asks(client: &Name, patterns: &[PatternArgument]) -> bool
    ensures { result ≡ list_any (λ a. in_syntax client.now a.pattern) patterns.now }
{
    patterns
        .iter()
        .any(|pattern| in_client_syntax(client, &pattern.pattern))
}

/// Whether a command needs the caller's client, by its form or by one of its arguments.
fn asks_client(caller: &Caller, command: &Command) -> bool
    ensures { result ≡ client_asked caller.now (about command.now) }
{
    needs_client(command)
        || any_file_asks(&caller.client, files_of(command))
        || any_pattern_asks(&caller.client, patterns_of(command))
}

/// Whether a name is that of a label or of a client.
fn is_known(alloc: Global, tables: &Tables, name: &Name) -> Result<bool, AllocError>
    ensures { IfOk result (λ known. (d : List Deed) → HasRows (rows_of tables.now) d table_ids.Domain →
        known ≡ (label_saved d name.now || client_saved d name.now)) }
{
    let label = is_label(alloc, tables, name)?;
    let client = is_client(alloc, tables, name)?;
    Ok(label || client)
}

/// The name behind `@`, where it is neither a label's nor a client's.
fn unknown_name<'a>(
    alloc: Global,
    tables: &Tables,
    wanted: &'a Wanted,
) -> Result<Option<&'a Name>, AllocError>
    ensures { IfOk result (λ name. (d : List Deed) → HasRows (rows_of tables.now) d table_ids.Domain →
        option_to_list (option_copied name) ≡ unknown_in d wanted.now) }
{
    match wanted {
        Wanted::One(RevSpec::Named(name)) => {
            let known = is_known(alloc, tables, name)?;
            Ok(if known { None } else { Some(name) })
        }
        _ => Ok(None),
    }
}

/// The first name behind `@` that is neither a label's nor a client's.
fn first_unknown<'a>(
    alloc: Global,
    tables: &Tables,
    files: &'a [FileArgument],
) -> Result<Option<&'a Name>, AllocError>
    ensures { IfOk result (λ name. (d : List Deed) → HasRows (rows_of tables.now) d table_ids.Domain →
        option_map (λ n. refusals.NoSuchLabel n) (option_copied name) ≡
        first_unknown_in (flat_map (λ (a : AnyFile). unknown_in d a.spec.wanted) files.now)) }
{
    let mut rest = files;
    while let [file, after @ ..] = rest {
        let unknown = unknown_name(alloc, tables, &file.spec.wanted)?;
        if let Some(name) = unknown {
            return Ok(Some(name));
        }
        rest = after;
    }
    Ok(None)
}

/// Whether a command needs the caller's client, and it isn't saved.
fn lacks_client(
    alloc: Global,
    tables: &Tables,
    caller: &Caller,
    command: &Command,
) -> Result<bool, AllocError>
    ensures { IfOk result (λ lacks. (d : List Deed) → HasRows (rows_of tables.now) d table_ids.Domain →
        lacks ≡ (client_asked caller.now (about command.now) && not (client_saved d caller.now.client))) }
{
    if !asks_client(caller, command) {
        return Ok(false);
    }
    let saved = is_client(alloc, tables, &caller.client)?;
    Ok(!saved)
}

/// The row of the first of the refusals that are common to all commands, and that holds: the caller, who is given with
/// the groups, has the right nowhere, the client isn't saved, or a name behind `@` is unknown.
fn common_refusal(
    alloc: Global,
    tables: &Tables,
    caller: &Caller,
    who: &Who,
    command: &Command,
) -> Result<Option<Row>, AllocError>
    ensures { IfOk result (λ row. (d : List Deed) → IsSound d → who.now ≡ who_in d caller.now →
        HasRows (rows_of tables.now) d table_ids.Protect →
        HasRows (rows_of tables.now) d table_ids.Domain →
        row ≡ option_map refusal_row (first_of (common_refusals d caller.now (about command.now)))) }
{
    let need = need_of(command);
    let may = protects_of(tables).may_any(who, need);
    if !may {
        let row = denied_anywhere_row(alloc, need)?;
        return Ok(Some(row));
    }
    let lacks = lacks_client(alloc, tables, caller, command)?;
    if lacks {
        let row = no_client_row(alloc, &caller.client)?;
        return Ok(Some(row));
    }
    let unknown = first_unknown(alloc, tables, files_of(command))?;
    match unknown {
        Some(name) => {
            let row = no_such_label_row(alloc, name)?;
            Ok(Some(row))
        }
        None => Ok(None),
    }
}

/// The refusal of a change that has shelved files.
fn shelved_refusal(alloc: Global, tables: &Tables, change: u32) -> Result<Option<Row>, AllocError>
    ensures { IfOk result (λ row. (d : List Deed) → IsSound d → HasRows (rows_of tables.now) d table_ids.Domain →
        row ≡ option_map refusal_row (refuse_if (is_shelved_in d change) (refusals.Shelved change))) }
{
    let shelved = is_shelved(alloc, tables, change)?;
    if !shelved {
        return Ok(None);
    }
    let row = shelved_row(alloc, change)?;
    Ok(Some(row))
}

/// The refusal of a change that fixes jobs.
fn fixed_refusal(alloc: Global, tables: &Tables, change: u32) -> Result<Option<Row>, AllocError>
    ensures { IfOk result (λ row. (d : List Deed) → IsSound d → HasRows (rows_of tables.now) d table_ids.Domain →
        row ≡ option_map refusal_row (refuse_if (is_fixing_in d change) (refusals.Fixed change))) }
{
    let fixing = is_fixing(alloc, tables, change)?;
    if !fixing {
        return Ok(None);
    }
    let row = fixed_row(alloc, change)?;
    Ok(Some(row))
}

/// The refusal of a change that can't be deleted, since it has shelved files or fixes jobs.
fn held_refusal(alloc: Global, tables: &Tables, change: u32) -> Result<Option<Row>, AllocError>
    ensures { IfOk result (λ row. (d : List Deed) → IsSound d → HasRows (rows_of tables.now) d table_ids.Domain →
        row ≡ option_map refusal_row (first_of (refuse_if (is_shelved_in d change) (refusals.Shelved change) ∷ refuse_if (is_fixing_in d change) (refusals.Fixed change) ∷ []))) }
{
    let shelved = shelved_refusal(alloc, tables, change)?;
    match shelved {
        Some(row) => Ok(Some(row)),
        None => {
            let fixed = fixed_refusal(alloc, tables, change)?;
            Ok(fixed)
        }
    }
}

/// The row of the last of the refusals: a change with shelved files is neither submitted nor deleted, one that fixes
/// jobs isn't deleted.
fn last_refusal(
    alloc: Global,
    tables: &Tables,
    command: &Command,
) -> Result<Option<Row>, AllocError>
    ensures { IfOk result (λ row. (d : List Deed) → IsSound d → HasRows (rows_of tables.now) d table_ids.Domain →
        row ≡ option_map refusal_row (first_of (last_refusals d command.now))) }
{
    match command {
        Command::SubmitChange { change } => {
            let shelved = shelved_refusal(alloc, tables, *change)?;
            Ok(shelved)
        }
        Command::ChangeDelete { change } => {
            let held = held_refusal(alloc, tables, *change)?;
            Ok(held)
        }
        _ => Ok(None),
    }
}

/// The row of the first refusal that holds before a command's own step: one that is common to all commands, or one of
/// the last.
pub(crate) fn first_refusal(
    alloc: Global,
    tables: &Tables,
    caller: &Caller,
    who: &Who,
    command: &Command,
) -> Result<Option<Row>, AllocError>
    ensures { IfOk result (λ row. (d : List Deed) → IsSound d → who.now ≡ who_in d caller.now →
        HasRows (rows_of tables.now) d table_ids.Protect →
        HasRows (rows_of tables.now) d table_ids.Domain →
        row ≡ option_map refusal_row (first_of (common_refusals d caller.now (about command.now) ++ last_refusals d command.now))) }
{
    let common = common_refusal(alloc, tables, caller, who, command)?;
    match common {
        Some(row) => Ok(Some(row)),
        None => {
            let last = last_refusal(alloc, tables, command)?;
            Ok(last)
        }
    }
}
