//! `shelve` (Command-Line Reference, "p4 shelve").

ghost use Rattle.std.specs.Prelude.{◌≡◌, ◌&&◌, ℕ, List, Some, IfOk, is_some, not, option_map, true};
ghost use Rattle.std.specs.List.{list_all};
ghost use Rattle.std.specs.Option.{option_copied};
ghost use Rattle.depot_rows.specs.db_records.declared.table.TableId.TheVariants as table_ids;
ghost use Rattle.depot_rows.specs.table_changes.Changed.{AllRows, rows_of};
ghost use Rattle.depot_rows.specs.depot_model.declared.refusal.Refusal.TheVariants as refusals;
ghost use Rattle.depot_rows.specs.depot_model.Deeds.{Deed as ModelDeed};
ghost use Rattle.depot_rows.specs.depot_model.Opened.{opened};
ghost use Rattle.depot_rows.specs.depot_model.Refusals.{refusal_row};
ghost use Rattle.depot_rows.specs.depot_model.Rules.{IsSound};
ghost use Rattle.depot_rows.specs.depot_model.Shelves.{kept};
ghost use Rattle.depot_rows.specs.depot_model.Step.{refuse_if};
ghost use Rattle.depot_rows.specs.depot_model.Steps.Shelving as model;
ghost use Rattle.depot_rows.specs.depot_model.WellFormed.{asks_head};
ghost use Rattle.depot_rows.specs.Deed.{opening_of};
ghost use Rattle.depot_rows.specs.Standing.{HasRows};
ghost use Rattle.named_files.specs.Asked.{IsAsker};
ghost use Rattle.reply_rows.specs.Made.{IsMade};
ghost use Rattle.shelf_ops.specs.Shelved.{OpenedReads, keeping};

use crate::forms::shelf_form;
use crate::keeping::{kept_form, shelf_name};
use crate::limits::within_forms;
use crate::opened_heads::OpenedHeads;
use crate::removing::saves;
use command_parts::change_refusal;
use depot_rows::model::{Caller, FileArgument, Request, Row};
use depot_rows::paths::{DepotPath, Text};
use depot_rows::protections::Level;
use depot_rows::tables::Tables;
use depot_rows::{Action, Opening};
use file_contents::{block_given, lacks_content};
use file_steps::{FileAct, over_all};
use named_files::Asker;
use opening_parts::{action_word, right_refusal};
use opening_reads::opening_by;
use reply_rows::{RowBuilder, Step, already_shelved_row, no_content_row, not_shelvable_row};
use std::alloc::{AllocError, Global};

/// What `shelve` does with a file.
#[derive(Drop)]
struct Shelving<'a> {
    request: &'a Request,
    asker: &'a Asker,
    /// Whether a file that is kept already is kept anew.
    replaces: bool,
}

/// The row of a file that is kept.
fn shelved_row(alloc: Global, opening: &Opening) -> Result<Row, AllocError>
    ensures { IfOk result (λ row. row ≡ model.shelved_row (opening_of opening.now)) }
{
    let row = RowBuilder::new(alloc).path(b"depotFile", &opening.path)?;
    let row = row.number(b"rev", u64::from(opening.base))?;
    let row = row.text(b"action", action_word(opening.action))?;
    Ok(row.row())
}

/// The step by which a file that is opened is kept, with the block that gave its content, where one did.
fn keep(
    alloc: Global,
    caller: &Caller,
    opening: &Opening,
    block: Option<&Text>,
) -> Result<Step, AllocError>
    ensures { IfOk result (λ step. (all : AllRows) (d e : List ModelDeed) (client path : List ℕ) → IsSound d →
        opened d client path ≡ Some (opening_of opening.now) →
        IsMade all d e (keeping caller.now (opening_of opening.now) (option_copied block.entry)) step) }
{
    let row = shelved_row(alloc, opening)?;
    let name = shelf_name(alloc, opening.change, &opening.path)?;
    let form = shelf_form(alloc, caller, opening, block)?;
    saves(alloc, name, form, row)
}

/// Whether a file is opened for an action with which files are kept.
fn is_shelvable(opening: &Opening) -> bool
    ensures { result ≡ model.is_shelvable (opening_of opening.now) }
{
    match opening.action {
        Action::Add => true,
        Action::Edit => true,
        Action::Delete => true,
        _ => false,
    }
}

/// Whether a file is kept in a change.
fn is_kept_in(
    alloc: Global,
    tables: &Tables,
    change: u32,
    path: &DepotPath,
) -> Result<bool, AllocError>
    ensures { IfOk result (λ kept_there. (d : List ModelDeed) → IsSound d →
        HasRows (rows_of tables.now) d table_ids.Domain →
        kept_there ≡ is_some (kept d change path.now)) }
{
    let form = kept_form(alloc, tables, change, path)?;
    Ok(form.is_some())
}

/// The row that refuses a file that is kept already, unless it is kept anew.
fn kept_refusal(
    alloc: Global,
    tables: &Tables,
    replaces: bool,
    opening: &Opening,
) -> Result<Option<Row>, AllocError>
    ensures { IfOk result (λ row. (d : List ModelDeed) → IsSound d → HasRows (rows_of tables.now) d table_ids.Domain →
        row ≡ option_map refusal_row (refuse_if (not replaces && is_some (kept d opening.now.change opening.now.path)) (refusals.AlreadyShelved opening.now.path))) }
{
    if replaces {
        return Ok(None);
    }
    if !is_kept_in(alloc, tables, opening.change, &opening.path)? {
        return Ok(None);
    }
    let row = already_shelved_row(alloc, &opening.path)?;
    Ok(Some(row))
}

impl<'a> Shelving<'a> {
    /// What is done with an opened file.
    fn shelve_opening(
        &self,
        alloc: Global,
        tables: &Tables,
        opening: &Opening,
    ) -> Result<Step, AllocError>
        ensures { IfOk result (λ step. (d e : List ModelDeed) (path : List ℕ) →
            OpenedReads self.now.request.now.caller self.now.asker.now (rows_of tables.now) d →
            opened d self.now.request.now.caller.client path ≡ Some (opening_of opening.now) →
            IsMade (rows_of tables.now) d e (model.shelve_opening d self.now.request.now self.now.replaces (opening_of opening.now)) step) }
    {
        if let Some(row) = right_refusal(alloc, self.asker, &opening.path, Level(3))? {
            return Step::tells(alloc, row);
        }
        if !is_shelvable(opening) {
            let row = not_shelvable_row(alloc, &opening.path)?;
            return Step::tells(alloc, row);
        }
        if let Some(row) = kept_refusal(alloc, tables, self.replaces, opening)? {
            return Step::tells(alloc, row);
        }
        let request = self.request;
        if lacks_content(alloc, tables, self.asker, &request.contents, opening)? {
            let row = no_content_row(alloc, &opening.path)?;
            return Step::tells(alloc, row);
        }
        let block = block_given(alloc, tables, self.asker, &request.contents, opening)?;
        keep(alloc, &request.caller, opening, block)
    }
}

impl<'a> FileAct for Shelving<'a> {
    ghost use Rattle.depot_rows.specs.depot_model.Steps.Shelving.{shelve_file};
    ghost use Rattle.shelf_ops.specs.Shelved.{OpenedReads};

    ghost reads = { λ act rows d. OpenedReads act.request.now.caller act.asker.now rows d };

    ghost acts = { λ act d argument path. shelve_file d act.request.now act.replaces path };

    ghost is_later = { λ act d e. Unit {0} };

    fn act(
        &self,
        alloc: Global,
        tables: &Tables,
        _argument: &FileArgument,
        path: &DepotPath,
    ) -> Result<Step, AllocError> {
        match opening_by(alloc, tables, &self.request.caller.client, path)? {
            Some(opening) => self.shelve_opening(alloc, tables, &opening),
            None => Ok(Step::new(alloc)),
        }
    }

    ghost first = { λ act d. tt };

    ghost next = { λ act d e argument path later. tt };
}

/// `shelve -c N [-f] [FILE...]`: keeps files in the pending change in which the client has them opened, with the blocks
/// that give their contents. It is refused where the change isn't a pending one of the caller's user and client. A file
/// is refused first that the caller may not open, then that is opened for another action than add, edit and delete,
/// then, without `-f`, that is kept already, then that lacks its content; and all of it where more than 10,000 files or
/// more than 16,777,216 bytes of blocks would be kept. It reads the tables of forms, opened files, changes and
/// revisions alone, and of the forms of shelved files those of the files that it keeps alone. The one error is want of
/// memory.
pub fn shelve(
    alloc: Global,
    tables: &Tables,
    request: &Request,
    asker: &Asker,
    change: u32,
    replaces: bool,
    arguments: &[FileArgument],
) -> Result<Step, AllocError>
    ensures { IfOk result (λ step. (d : List ModelDeed) → list_all asks_head arguments.now ≡ true → IsSound d →
        IsAsker d request.now.caller asker.now →
        HasRows (rows_of tables.now) d table_ids.Domain → HasRows (rows_of tables.now) d table_ids.Working →
        HasRows (rows_of tables.now) d table_ids.Change → HasRows (rows_of tables.now) d table_ids.Rev →
        IsMade (rows_of tables.now) d d (model.shelve d request.now change replaces arguments.now) step) }
{
    if let Some(row) = change_refusal(alloc, tables, &request.caller, change)? {
        return Step::tells(alloc, row);
    }
    let files = OpenedHeads {
        caller: &request.caller,
        asker,
        change,
    };
    let act = Shelving {
        request,
        asker,
        replaces,
    };
    let done = over_all(alloc, tables, &files, &act, arguments)?;
    within_forms(alloc, done)
}
