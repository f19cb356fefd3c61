//! `unshelve` (Command-Line Reference, "p4 unshelve").

ghost use Rattle.std.specs.Prelude.{◌≡◌, ◌++◌, [], true, List, IfOk, OnOk, Some, option_map};
ghost use Rattle.std.specs.List.{list_all};
ghost use Rattle.std.specs.Option.{option_copied};
ghost use Rattle.depot_rows.specs.db_records.declared.table.TableId.TheVariants as table_ids;
ghost use Rattle.depot_rows.specs.table_changes.Changed.{AllRows, rows_of};
ghost use Rattle.depot_rows.specs.depot_model.Deeds.{Deed as ModelDeed};
ghost use Rattle.depot_rows.specs.depot_model.Rules.{IsSound};
ghost use Rattle.depot_rows.specs.depot_model.Steps.Shelving as model;
ghost use Rattle.depot_rows.specs.depot_model.WellFormed.{asks_head};
ghost use Rattle.depot_rows.specs.Deed.{opening_of as opening_of_deed, source_of as source_of_deed};
ghost use Rattle.depot_rows.specs.Standing.{HasRows};
ghost use Rattle.named_files.specs.Asked.{IsAsker};
ghost use Rattle.reply_rows.specs.Made.{IsMade, waiting};
ghost use Rattle.shelf_ops.specs.Shelved.{OpenedReads};
ghost use Rattle.shelf_ops.specs.Unshelved.{given_block, opens_kept, opens_waiting, unshelved_at};

use crate::keeping::{kept_form, shelf_refusal};
use crate::kept_heads::KeptHeads;
use crate::kept_openings::{kept_block, kept_opening};
use command_parts::named_change_refusal;
use depot_rows::model::{Caller, Field, FileArgument, Row};
use depot_rows::paths::{ClientPath, DepotPath, Sequence, Text, Wanted};
use depot_rows::protections::Level;
use depot_rows::tables::Tables;
use depot_rows::{Opening, Source};
use file_steps::{FileAct, over_all, within_files};
use named_files::Asker;
use opening_parts::{exclusive_refusal, opening_row, right_refusal, unseen_row};
use opening_reads::is_opened_by;
use reply_rows::{RowContent, Step, already_open_row, number_field, path_field};
use revision_reads::shown_of;
use std::alloc::{AllocError, Global};

/// What `unshelve` does with a file.
#[derive(Drop)]
struct Unshelving<'a> {
    caller: &'a Caller,
    asker: &'a Asker,
    shelved: u32,
    /// The change in which files are opened, 0 for the default one.
    change: u32,
}

/// Adds the fields of the revision whose content a submit takes, where there is one.
fn push_source(
    alloc: Global,
    fields: &mut Sequence<Field>,
    source: &Option<Source>,
) -> Result<(), AllocError>
    ensures { OnOk result (fields.new ≡ fields.old ++ model.from_fields (option_map source_of_deed source.now)) }
{
    match source {
        Some(source) => {
            fields.push(path_field(alloc, b"fromFile", &source.path)?)?;
            fields.push(number_field(alloc, b"fromRev", u64::from(source.rev))?)?;
            Ok(())
        }
        None => Ok(()),
    }
}

/// The text in the place of a content for which a row waits, where there is one.
fn awaited(alloc: Global, block: &Option<Text>) -> Option<Text>
    ensures { result ≡ option_map (λ _. []) block.now }
{
    match block {
        Some(_) => Some(Text::new(alloc)),
        None => None,
    }
}

/// The row of a file that is opened, which waits for its content where there is a block.
fn unshelved_row(
    alloc: Global,
    opening: &Opening,
    place: Option<&ClientPath>,
    block: &Option<Text>,
) -> Result<Row, AllocError>
    ensures { IfOk result (λ row. row ≡
        waiting (unshelved_at (opening_of_deed opening.now) (option_copied place.entry) block.now)) }
{
    let mut row = opening_row(alloc, opening, place)?;
    push_source(alloc, &mut row.fields, &opening.source)?;
    row.content = awaited(alloc, block);
    Ok(row)
}

/// Adds that the content of a row is a block, where there is one.
fn push_given(reads: &mut Sequence<RowContent>, block: Option<Text>) -> Result<(), AllocError>
    ensures { OnOk result (reads.new ≡ reads.old ++ given_block block) }
{
    match block {
        Some(block) => {
            reads.push(RowContent::Given(block))?;
            Ok(())
        }
        None => Ok(()),
    }
}

/// The step that opens a file, whose row waits for a block where there is one.
fn opens(alloc: Global, opening: Opening, row: Row, block: Option<Text>) -> Result<Step, AllocError>
    ensures { IfOk result (λ step. step ≡ opens_waiting opening row block) }
{
    let mut step = Step::opens(alloc, opening, row)?;
    push_given(&mut step.reads, block)?;
    Ok(step)
}

/// The step that opens a file which the client shows at a place, with the block of its content where there is one.
fn open_kept(
    alloc: Global,
    opening: Opening,
    place: &ClientPath,
    block: Option<Text>,
) -> Result<Step, AllocError>
    ensures { IfOk result (λ step. (all : AllRows) (d e : List ModelDeed) →
        IsMade all d e (opens_kept (opening_of_deed opening) (Some place.now) block) step) }
{
    // the bytes of a path are one
    let _bytes = opening.path.as_bytes();
    let row = unshelved_row(alloc, &opening, Some(place), &block)?;
    opens(alloc, opening, row, block)
}

impl<'a> Unshelving<'a> {
    /// What is done with a file that is to be opened so, with the block of its content where there is one.
    fn unshelve_opening(
        &self,
        alloc: Global,
        tables: &Tables,
        opening: Opening,
        block: Option<Text>,
    ) -> Result<Step, AllocError>
        ensures { IfOk result (λ step. (d e : List ModelDeed) →
            OpenedReads self.now.caller.now self.now.asker.now (rows_of tables.now) d →
            IsMade (rows_of tables.now) d e (model.unshelve_opening d self.now.caller.now (opening_of_deed opening) block) step) }
    {
        let path = &opening.path;
        if let Some(row) = right_refusal(alloc, self.asker, path, Level(3))? {
            return Step::tells(alloc, row);
        }
        let Some(place) = shown_of(alloc, tables, self.caller, path, &Wanted::Head)? else {
            let row = unseen_row(alloc, path)?;
            return Step::tells(alloc, row);
        };
        let client = &self.caller.client;
        if is_opened_by(alloc, tables, client, path)? {
            let row = already_open_row(alloc, path)?;
            return Step::tells(alloc, row);
        }
        if let Some(row) = exclusive_refusal(alloc, tables, path, client, &opening.file_type)? {
            return Step::tells(alloc, row);
        }
        open_kept(alloc, opening, &place, block)
    }
}

impl<'a> FileAct for Unshelving<'a> {
    ghost use Rattle.depot_rows.specs.depot_model.Steps.Shelving.{unshelve_file};
    ghost use Rattle.shelf_ops.specs.Shelved.{OpenedReads};

    ghost reads = { λ act rows d. OpenedReads act.caller.now act.asker.now rows d };

    ghost acts = { λ act d argument path. unshelve_file d act.caller.now act.shelved act.change path };

    ghost is_later = { λ act d e. Unit {0} };

    fn act(
        &self,
        alloc: Global,
        tables: &Tables,
        _argument: &FileArgument,
        path: &DepotPath,
    ) -> Result<Step, AllocError> {
        let Some(form) = kept_form(alloc, tables, self.shelved, path)? else {
            return Ok(Step::new(alloc));
        };
        let block = kept_block(alloc, &form)?;
        let opening = kept_opening(alloc, self.caller, self.change, path, &form)?;
        self.unshelve_opening(alloc, tables, opening, block)
    }

    ghost first = { λ act d. tt };

    ghost next = { λ act d e argument path later. tt };
}

/// `unshelve -s SHELVED [-c CHANGE] [FILE...]`: opens files as they were kept in a change, and prints their contents
/// where blocks gave them. It is refused where the change in which it opens them isn't a pending one of the caller's
/// user and client, or where the caller may list no file that is kept. It reads the tables of forms, opened files,
/// changes and revisions alone, and of the forms of shelved files those of the change alone. The one error is want of
/// memory.
pub fn unshelve(
    alloc: Global,
    tables: &Tables,
    caller: &Caller,
    asker: &Asker,
    shelved: u32,
    change: Option<u32>,
    arguments: &[FileArgument],
) -> Result<Step, AllocError>
    ensures { IfOk result (λ step. (d : List ModelDeed) → list_all asks_head arguments.now ≡ true → IsSound d →
        IsAsker d caller.now asker.now →
        HasRows (rows_of tables.now) d table_ids.Domain → HasRows (rows_of tables.now) d table_ids.Working →
        HasRows (rows_of tables.now) d table_ids.Change → HasRows (rows_of tables.now) d table_ids.Rev →
        IsMade (rows_of tables.now) d d (model.unshelve d caller.now shelved change arguments.now) step) }
{
    if let Some(row) = named_change_refusal(alloc, tables, caller, change)? {
        return Step::tells(alloc, row);
    }
    if let Some(row) = shelf_refusal(alloc, tables, asker, shelved)? {
        return Step::tells(alloc, row);
    }
    let files = KeptHeads {
        caller,
        asker,
        change: shelved,
    };
    let act = Unshelving {
        caller,
        asker,
        shelved,
        change: change.unwrap_or(0),
    };
    let done = over_all(alloc, tables, &files, &act, arguments)?;
    within_files(alloc, done)
}
