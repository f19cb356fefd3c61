//! `add` (Command-Line Reference, "p4 add").

ghost use Rattle.std.specs.Prelude.{◌≡◌, [], List, IfOk, None, Some, codes, option_map, true, unwrap_or};
ghost use Rattle.std.specs.List.{list_all};
ghost use Rattle.std.specs.Option.{option_to_list};
ghost use Rattle.depot_rows.specs.db_records.declared.table.TableId.TheVariants as table_ids;
ghost use Rattle.depot_rows.specs.table_changes.Changed.{rows_of};
ghost use Rattle.depot_rows.specs.depot_model.Deeds.{Deed};
ghost use Rattle.depot_rows.specs.depot_model.Refusals.{refusal_row};
ghost use Rattle.depot_rows.specs.depot_model.Revisions.{is_live_head as live_head};
ghost use Rattle.depot_rows.specs.depot_model.Rules.{IsSound};
ghost use Rattle.depot_rows.specs.depot_model.Steps.Adding as model;
ghost use Rattle.depot_rows.specs.depot_model.Steps.Opening.{exclusive_refusal as exclusive_refusal_in};
ghost use Rattle.depot_rows.specs.depot_model.WellFormed.{spells_path};
ghost use Rattle.depot_rows.specs.depot_model.declared.refusal.Refusal.TheVariants as refusals;
ghost use Rattle.depot_rows.specs.depot_path.Path.{printed};
ghost use Rattle.depot_rows.specs.Standing.{HasRows};
ghost use Rattle.named_files.specs.Asked.{IsAsker};
ghost use Rattle.reply_rows.specs.Made.{IsMade};
ghost use Rattle.opened_files.specs.Adds.{Reads, new_refusal as new_refusal_by, spelled_file as file_spelled};

use crate::editing::{new_opening, open_file};
use crate::had::own_text;
use command_parts::named_change_refusal;
use depot_rows::Action;
use depot_rows::model::{Caller, FileArgument, Row};
use depot_rows::paths::{DepotPath, Name, Sequence, Text, Wanted};
use depot_rows::protections::Level;
use depot_rows::tables::Tables;
use file_steps::{FileAct, FileFinder, over_found, within_files};
use named_files::{Asker, spelled_path};
use opening_parts::{exclusive_refusal, right_refusal, unseen_row};
use opening_reads::is_opened_by;
use reply_rows::{Step, already_open_row, exists_row, not_in_view_row};
use revision_reads::{file_at, head_of, is_live_head, shown_in_view};
use row_reads::in_client_syntax;
use std::alloc::{AllocError, Global};

/// The files that `add` takes.
#[derive(Drop)]
struct FilesToAdd<'a> {
    caller: &'a Caller,
    asker: &'a Asker,
}

/// What `add` does with a file.
#[derive(Drop)]
struct Adding<'a> {
    caller: &'a Caller,
    asker: &'a Asker,
    change: Option<u32>,
    file_type: &'a Text,
}

/// The file of a path that an argument spells: itself, or in client syntax that of the place.
fn spelled_file(
    alloc: Global,
    tables: &Tables,
    asker: &Asker,
    argument: &FileArgument,
    path: DepotPath,
) -> Result<Option<DepotPath>, AllocError>
    ensures { IfOk result (λ file. (d : List Deed) → IsSound d → HasRows (rows_of tables.now) d table_ids.Rev →
        file ≡ file_spelled d asker.now argument.now path) }
{
    if in_client_syntax(&asker.client, &argument.spec.pattern) {
        let file = file_at(alloc, tables, &asker.view, &path)?;
        return Ok(file);
    }
    Ok(Some(path))
}

/// The list of a file, if there is one.
fn in_list(alloc: Global, file: Option<DepotPath>) -> Result<Sequence<DepotPath>, AllocError>
    ensures { IfOk result (λ files. files ≡ option_to_list file) }
{
    let mut files = Sequence::new(alloc);
    if let Some(file) = file {
        files.push(file)?;
    }
    Ok(files)
}

impl<'a> FileFinder for FilesToAdd<'a> {
    ghost use Rattle.std.specs.Prelude.{◌∷◌, []};
    ghost use Rattle.depot_rows.specs.depot_path.Path.{printed};
    ghost use Rattle.depot_rows.specs.depot_model.Refusals.{refusal_row};
    ghost use Rattle.depot_rows.specs.depot_model.Steps.Adding.{files_to_add, spelled};
    ghost use Rattle.depot_rows.specs.depot_model.declared.refusal.Refusal.TheVariants as refusals;
    ghost use Rattle.opened_files.specs.Adds.{Reads};

    ghost reads = { λ finder rows d. Reads finder.caller.now finder.asker.now rows d };

    ghost found = { λ finder d argument. files_to_add d finder.caller.now argument };

    ghost rows_without = { λ finder argument. refusal_row (refusals.NotInView (printed (spelled argument))) ∷ [] };

    fn find(
        &self,
        alloc: Global,
        tables: &Tables,
        argument: &FileArgument,
    ) -> Result<Sequence<DepotPath>, AllocError> {
        let Some(path) = spelled_path(alloc, argument)? else {
            return Ok(Sequence::new(alloc));
        };
        let file = spelled_file(alloc, tables, self.asker, argument, path)?;
        let files = in_list(alloc, file)?;
        Ok(files)
    }

    fn missing(&self, alloc: Global, argument: &FileArgument) -> Result<Step, AllocError> {
        let Some(path) = spelled_path(alloc, argument)? else {
            let row = not_in_view_row(alloc, argument.text.as_bytes())?;
            return Step::tells(alloc, row);
        };
        let row = unseen_row(alloc, &path)?;
        Step::tells(alloc, row)
    }
}

/// The row that refuses a file that can't be made anew, since this client has it opened, or it is there, or another
/// client has it opened alone, from the tables of opened files and revisions alone. The one error is want of memory.
pub(crate) fn new_refusal(
    alloc: Global,
    tables: &Tables,
    path: &DepotPath,
    client: &Name,
    file_type: &Text,
    is_open: bool,
) -> Result<Option<Row>, AllocError>
    ensures { IfOk result (λ row. (d : List Deed) → IsSound d → HasRows (rows_of tables.now) d table_ids.Working →
        HasRows (rows_of tables.now) d table_ids.Rev →
        row ≡ option_map refusal_row (new_refusal_by path.now is_open (live_head d path.now) (exclusive_refusal_in d path.now client.now file_type.now))) }
{
    if is_open {
        let row = already_open_row(alloc, path)?;
        return Ok(Some(row));
    }
    if is_live_head(alloc, tables, path)? {
        let row = exists_row(alloc, path)?;
        return Ok(Some(row));
    }
    let row = exclusive_refusal(alloc, tables, path, client, file_type)?;
    Ok(row)
}

impl<'a> FileAct for Adding<'a> {
    ghost use Rattle.depot_rows.specs.depot_model.Steps.Adding.{add_file};
    ghost use Rattle.opened_files.specs.Adds.{Reads};

    ghost reads = { λ act rows d. Reads act.caller.now act.asker.now rows d };

    ghost acts = { λ act d argument path. add_file d act.caller.now act.change act.file_type.now path };

    ghost is_later = { λ act d e. Unit {0} };

    fn act(
        &self,
        alloc: Global,
        tables: &Tables,
        _argument: &FileArgument,
        path: &DepotPath,
    ) -> Result<Step, AllocError> {
        if let Some(row) = right_refusal(alloc, self.asker, path, Level(3))? {
            return Step::tells(alloc, row);
        }
        let caller = self.caller;
        let view = &self.asker.view;
        let Some(place) = shown_in_view(alloc, tables, caller, view, path, &Wanted::Head)? else {
            let row = unseen_row(alloc, path)?;
            return Step::tells(alloc, row);
        };
        let client = &caller.client;
        let open = is_opened_by(alloc, tables, client, path)?;
        if let Some(row) = new_refusal(alloc, tables, path, client, self.file_type, open)? {
            return Step::tells(alloc, row);
        }
        let base = head_of(alloc, tables, path)?;
        let file_type = own_text(self.file_type)?;
        let opening = new_opening(caller, path, base, Action::Add, self.change, file_type)?;
        open_file(alloc, opening, &place)
    }

    ghost first = { λ act d. tt };

    ghost next = { λ act d e argument path later. tt };
}

/// The type that is asked for, or else `text`.
fn type_or_text(alloc: Global, file_type: &Option<Text>) -> Result<Text, AllocError>
    ensures { IfOk result (λ text. text ≡ unwrap_or file_type.now (codes "text")) }
{
    match file_type {
        Some(file_type) => file_type.clone(),
        None => Text::from_bytes(alloc, b"text"),
    }
}

/// `add [-c CHANGE] [-t TYPE] PATH...`: opens files that aren't there, to add them with a submit, each argument being a
/// path, from the tables of changes, opened files and revisions alone. The one error is want of memory.
pub fn add(
    alloc: Global,
    tables: &Tables,
    caller: &Caller,
    asker: &Asker,
    change: Option<u32>,
    file_type: &Option<Text>,
    arguments: &[FileArgument],
) -> Result<Step, AllocError>
    ensures { IfOk result (λ step. (d : List Deed) → list_all spells_path arguments.now ≡ true → IsSound d →
        IsAsker d caller.now asker.now →
        HasRows (rows_of tables.now) d table_ids.Change → HasRows (rows_of tables.now) d table_ids.Working →
        HasRows (rows_of tables.now) d table_ids.Rev →
        IsMade (rows_of tables.now) d d (model.add d caller.now change file_type.now arguments.now) step) }
{
    if let Some(row) = named_change_refusal(alloc, tables, caller, change)? {
        return Step::tells(alloc, row);
    }
    let own_type = type_or_text(alloc, file_type)?;
    let files = FilesToAdd { caller, asker };
    let adding = Adding {
        caller,
        asker,
        change,
        file_type: &own_type,
    };
    let done = over_found(alloc, tables, &files, &adding, arguments)?;
    within_files(alloc, done)
}
