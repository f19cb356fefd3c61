//! `edit` and `delete` (Command-Line Reference, "p4 edit", "p4 delete").

ghost use Rattle.std.specs.Prelude.{◌≡◌, true, List, IfOk, Some, None, option_map};
ghost use Rattle.std.specs.List.{list_all};
ghost use Rattle.depot_rows.specs.db_records.declared.table.TableId.TheVariants as table_ids;
ghost use Rattle.depot_rows.specs.table_changes.Changed.{AllRows, rows_of};
ghost use Rattle.depot_rows.specs.depot_model.Deeds.{Deed};
ghost use Rattle.depot_rows.specs.depot_model.Opened.{opened};
ghost use Rattle.depot_rows.specs.depot_model.Rules.{IsSound};
ghost use Rattle.depot_rows.specs.depot_model.Steps.Editing as model;
ghost use Rattle.depot_rows.specs.depot_model.WellFormed.{asks_head};
ghost use Rattle.depot_rows.specs.Deed.{action_of, opening_of as opening_of_deed};
ghost use Rattle.depot_rows.specs.Standing.{HasRows};
ghost use Rattle.named_files.specs.Asked.{IsAsker};
ghost use Rattle.reply_rows.specs.Made.{IsMade};
ghost use Rattle.opened_files.specs.Opens.{Reads, new_opening as opening_new, open_step, opens_shown};

use crate::had::first_type;
use command_parts::named_change_refusal;
use depot_rows::model::{Caller, FileArgument};
use depot_rows::paths::{ClientPath, DepotPath, Text, Wanted};
use depot_rows::protections::Level;
use depot_rows::tables::Tables;
use depot_rows::{Action, Opening};
use file_steps::{FileAct, over, within_files};
use named_files::{Asker, HeadFiles, Listing};
use opening_parts::{
    exclusive_refusal, opening_row, own_name, own_path, right_refusal, unseen_row,
};
use opening_reads::opening_by;
use reply_rows::{Step, already_open_row};
use revision_reads::shown_of;
use row_reads::have_of;
use std::alloc::{AllocError, Global};

/// What `edit` and `delete` do with a file.
#[derive(Drop)]
struct OpeningHad<'a> {
    caller: &'a Caller,
    asker: &'a Asker,
    action: Action,
    change: Option<u32>,
    file_type: &'a Option<Text>,
}

/// What `edit` makes of an opening, None where it stays as it is.
fn edited(opening: Opening) -> Option<Opening>
    ensures { option_map opening_of_deed result ≡ model.edited (opening_of_deed opening) }
{
    let mut opening = opening;
    match opening.action {
        Action::Branch => {
            opening.action = Action::Add;
            opening.source = None;
            Some(opening)
        }
        Action::Integrate => {
            opening.action = Action::Edit;
            opening.source = None;
            Some(opening)
        }
        Action::Edit => {
            if opening.source.is_none() {
                return None;
            }
            opening.source = None;
            Some(opening)
        }
        Action::Add => None,
        Action::Delete => None,
        Action::MoveAdd => None,
        Action::MoveDelete => None,
    }
}

/// What is made of an opening that there is.
fn reopened(action: Action, opening: Opening) -> Option<Opening>
    ensures { option_map opening_of_deed result ≡ model.reopened (action_of action) (opening_of_deed opening) }
{
    match action {
        Action::Edit => edited(opening),
        Action::Add => None,
        Action::Delete => None,
        Action::Branch => None,
        Action::Integrate => None,
        Action::MoveAdd => None,
        Action::MoveDelete => None,
    }
}

/// The opening of a file that isn't opened.
pub(crate) fn new_opening(
    caller: &Caller,
    path: &DepotPath,
    base: u32,
    action: Action,
    change: Option<u32>,
    file_type: Text,
) -> Result<Opening, AllocError>
    ensures { IfOk result (λ opening. opening ≡ opening_new caller.now path.now base action change file_type) }
{
    let client = own_name(&caller.client)?;
    let path = own_path(path)?;
    Ok(Opening {
        client,
        path,
        base,
        action,
        file_type,
        change: change.unwrap_or(0),
        source: None,
        moved: None,
    })
}

/// The step that opens a file.
pub(crate) fn open_file(
    alloc: Global,
    opening: Opening,
    place: &ClientPath,
) -> Result<Step, AllocError>
    ensures { IfOk result (λ step. (all : AllRows) (d e : List Deed) →
        IsMade all d e (open_step (opening_of_deed opening) (Some place.now)) step) }
{
    // the bytes of a path are one
    let _bytes = opening.path.as_bytes();
    let row = opening_row(alloc, &opening, Some(place))?;
    Step::opens(alloc, opening, row)
}

impl<'a> OpeningHad<'a> {
    /// What is done with a file that is opened, unless another client has it opened alone.
    fn open_again(
        &self,
        alloc: Global,
        tables: &Tables,
        path: &DepotPath,
        place: &ClientPath,
        opening: Opening,
    ) -> Result<Step, AllocError>
        ensures { IfOk result (λ step. (d e : List Deed) → IsSound d →
            HasRows (rows_of tables.now) d table_ids.Working →
            Some (opening_of_deed opening) ≡ opened d self.now.caller.now.client path.now →
            IsMade (rows_of tables.now) d e (opens_shown d self.now.caller.now (action_of self.now.action) self.now.change self.now.file_type.now (Some place.now) path.now) step) }
    {
        let client = &self.caller.client;
        let refusal = exclusive_refusal(alloc, tables, path, client, &opening.file_type)?;
        if let Some(row) = refusal {
            return Step::tells(alloc, row);
        }
        match reopened(self.action, opening) {
            Some(opening) => open_file(alloc, opening, place),
            None => {
                let row = already_open_row(alloc, path)?;
                Step::tells(alloc, row)
            }
        }
    }

    /// What is done with a file that isn't opened, from the revision that the client has, unless another client has it
    /// opened alone.
    fn open_new(
        &self,
        alloc: Global,
        tables: &Tables,
        path: &DepotPath,
        place: &ClientPath,
    ) -> Result<Step, AllocError>
        ensures { IfOk result (λ step. (d e : List Deed) →
            Reads self.now.caller.now self.now.asker.now (rows_of tables.now) d →
            None ≡ opened d self.now.caller.now.client path.now →
            IsMade (rows_of tables.now) d e (opens_shown d self.now.caller.now (action_of self.now.action) self.now.change self.now.file_type.now (Some place.now) path.now) step) }
    {
        let caller = self.caller;
        let file_type = first_type(alloc, tables, caller, path, self.file_type)?;
        if let Some(row) = exclusive_refusal(alloc, tables, path, &caller.client, &file_type)? {
            return Step::tells(alloc, row);
        }
        let base = have_of(alloc, tables, &caller.client, path)?;
        let opening = new_opening(caller, path, base, self.action, self.change, file_type)?;
        open_file(alloc, opening, place)
    }
}

impl<'a> FileAct for OpeningHad<'a> {
    ghost use Rattle.depot_rows.specs.depot_model.Steps.Editing.{open_file as step_of_file};
    ghost use Rattle.depot_rows.specs.Deed.{action_of};
    ghost use Rattle.opened_files.specs.Opens.{Reads};

    ghost reads = { λ act rows d. Reads act.caller.now act.asker.now rows d };

    ghost acts = { λ act d argument path. step_of_file d act.caller.now (action_of act.action) act.change act.file_type.now path };

    ghost is_later = { λ act d e. Unit {0} };

    fn act(
        &self,
        alloc: Global,
        tables: &Tables,
        _argument: &FileArgument,
        path: &DepotPath,
    ) -> Result<Step, AllocError> {
        if let Some(row) = right_refusal(alloc, self.asker, path, Level(3))? {
            return Step::tells(alloc, row);
        }
        let Some(place) = shown_of(alloc, tables, self.caller, path, &Wanted::Head)? else {
            let row = unseen_row(alloc, path)?;
            return Step::tells(alloc, row);
        };
        match opening_by(alloc, tables, &self.caller.client, path)? {
            Some(opening) => self.open_again(alloc, tables, path, &place, opening),
            None => self.open_new(alloc, tables, path, &place),
        }
    }

    ghost first = { λ act d. tt };

    ghost next = { λ act d e argument path later. tt };
}

/// Opens files that the client has for an action.
fn open_had(
    alloc: Global,
    tables: &Tables,
    caller: &Caller,
    asker: &Asker,
    action: Action,
    change: Option<u32>,
    file_type: &Option<Text>,
    arguments: &[FileArgument],
) -> Result<Step, AllocError>
    ensures { IfOk result (λ step. (d : List Deed) → list_all asks_head arguments.now ≡ true → IsSound d →
        IsAsker d caller.now asker.now →
        HasRows (rows_of tables.now) d table_ids.Domain → HasRows (rows_of tables.now) d table_ids.Have →
        HasRows (rows_of tables.now) d table_ids.Working →
        HasRows (rows_of tables.now) d table_ids.Change → HasRows (rows_of tables.now) d table_ids.Rev →
        IsMade (rows_of tables.now) d d (model.open_had (action_of action) d caller.now change file_type.now arguments.now) step) }
{
    if let Some(row) = named_change_refusal(alloc, tables, caller, change)? {
        return Step::tells(alloc, row);
    }
    let listing = Listing::had_by(&caller.client)?;
    let files = HeadFiles {
        caller,
        asker,
        listing: &listing,
    };
    let act = OpeningHad {
        caller,
        asker,
        action,
        change,
        file_type,
    };
    let done = over(alloc, tables, &files, &act, arguments)?;
    within_files(alloc, done)
}

/// `edit [-c CHANGE] [-t TYPE] FILE...`: opens files that the client has for edit, from the tables of forms, have
/// lists, opened files, changes and revisions alone. The one error is want of memory.
pub fn edit(
    alloc: Global,
    tables: &Tables,
    caller: &Caller,
    asker: &Asker,
    change: Option<u32>,
    file_type: &Option<Text>,
    arguments: &[FileArgument],
) -> Result<Step, AllocError>
    ensures { IfOk result (λ step. (d : List Deed) → list_all asks_head arguments.now ≡ true → IsSound d →
        IsAsker d caller.now asker.now →
        HasRows (rows_of tables.now) d table_ids.Domain → HasRows (rows_of tables.now) d table_ids.Have →
        HasRows (rows_of tables.now) d table_ids.Working →
        HasRows (rows_of tables.now) d table_ids.Change → HasRows (rows_of tables.now) d table_ids.Rev →
        IsMade (rows_of tables.now) d d (model.edit d caller.now change file_type.now arguments.now) step) }
{
    open_had(
        alloc,
        tables,
        caller,
        asker,
        Action::Edit,
        change,
        file_type,
        arguments,
    )
}

/// `delete [-c CHANGE] FILE...`: opens files that the client has for delete, from the same tables. The one error is
/// want of memory.
pub fn delete(
    alloc: Global,
    tables: &Tables,
    caller: &Caller,
    asker: &Asker,
    change: Option<u32>,
    arguments: &[FileArgument],
) -> Result<Step, AllocError>
    ensures { IfOk result (λ step. (d : List Deed) → list_all asks_head arguments.now ≡ true → IsSound d →
        IsAsker d caller.now asker.now →
        HasRows (rows_of tables.now) d table_ids.Domain → HasRows (rows_of tables.now) d table_ids.Have →
        HasRows (rows_of tables.now) d table_ids.Working →
        HasRows (rows_of tables.now) d table_ids.Change → HasRows (rows_of tables.now) d table_ids.Rev →
        IsMade (rows_of tables.now) d d (model.delete d caller.now change arguments.now) step) }
{
    open_had(
        alloc,
        tables,
        caller,
        asker,
        Action::Delete,
        change,
        &None,
        arguments,
    )
}
