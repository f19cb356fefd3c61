//! `have` (Command-Line Reference, "p4 have").

ghost use Rattle.std.specs.Prelude.{◌≡◌, List, IfOk};
ghost use Rattle.depot_rows.specs.db_records.declared.table.TableId.TheVariants as table_ids;
ghost use Rattle.depot_rows.specs.depot_model.Deeds.{Deed};
ghost use Rattle.depot_rows.specs.depot_model.Rules.{IsSound};
ghost use Rattle.depot_rows.specs.depot_model.Steps.Placing as model;
ghost use Rattle.depot_rows.specs.Standing.{HasRows};
ghost use Rattle.reply_rows.specs.Made.{IsMade};
ghost use Rattle.depot_rows.specs.table_changes.Changed.{rows_of};
ghost use Rattle.named_files.specs.Asked.{IsAsker};
ghost use Rattle.have_sync.specs.Having.{have_row_of};

use depot_rows::model::{Caller, FileArgument, Row};
use depot_rows::paths::{ClientPath, DepotPath};
use depot_rows::tables::Tables;
use file_steps::{FileAct, over_all};
use named_files::{Asker, ListedFiles, Listing};
use reply_rows::{RowBuilder, Step};
use row_reads::have_of;
use std::alloc::{AllocError, Global};

/// What `have` shows of a file.
#[derive(Drop)]
struct Having<'a> {
    caller: &'a Caller,
    asker: &'a Asker,
}

/// The row of a file with its place in the client workspace, if it has one, and its revision.
fn have_row(
    alloc: Global,
    path: &DepotPath,
    place: &Option<ClientPath>,
    rev: u32,
) -> Result<Row, AllocError>
    ensures { IfOk result (λ row. row ≡ have_row_of path.now place.now rev) }
{
    let row = RowBuilder::new(alloc).path(b"depotFile", path)?;
    let row = match place {
        Some(place) => row.path(b"clientFile", place)?,
        None => row,
    };
    let row = row.number(b"haveRev", u64::from(rev))?;
    Ok(row.row())
}

impl<'a> FileAct for Having<'a> {
    ghost use Rattle.std.specs.Prelude.{◌∷◌, []};
    ghost use Rattle.depot_rows.specs.depot_model.Step.{tells};
    ghost use Rattle.depot_rows.specs.depot_model.Steps.Placing.{have_row as row_of_file};
    ghost use Rattle.have_sync.specs.Having.{Reads};

    ghost reads = { λ having rows d. Reads having.caller.now having.asker.now rows d };

    ghost acts = { λ having d argument path. tells (row_of_file d having.caller.now path ∷ []) };

    ghost is_later = { λ having d e. Unit {0} };

    fn act(
        &self,
        alloc: Global,
        tables: &Tables,
        _argument: &FileArgument,
        path: &DepotPath,
    ) -> Result<Step, AllocError> {
        let place = self.asker.place(alloc, path)?;
        let rev = have_of(alloc, tables, &self.caller.client, path)?;
        let row = have_row(alloc, path, &place, rev)?;
        let step = Step::tells(alloc, row)?;
        Ok(step)
    }

    ghost first = { λ having d. tt };

    ghost next = { λ having d e argument path later. tt };
}

/// `have [FILE...]`: the files of the client's have list, with their revisions and their places in the workspace, by
/// the asker's rights and view and from the table of have lists alone. The one error is want of memory.
pub fn have(
    alloc: Global,
    tables: &Tables,
    caller: &Caller,
    asker: &Asker,
    arguments: &[FileArgument],
) -> Result<Step, AllocError>
    ensures { IfOk result (λ step. (d : List Deed) → IsSound d → IsAsker d caller.now asker.now →
        HasRows (rows_of tables.now) d table_ids.Have →
        IsMade (rows_of tables.now) d d (model.have_step d caller.now arguments.now) step) }
{
    let listing = Listing::had_by(&caller.client)?;
    let files = ListedFiles {
        caller,
        asker,
        listing: &listing,
    };
    let having = Having { caller, asker };
    let done = over_all(alloc, tables, &files, &having, arguments);
    drop(listing);
    let step = done?;
    Ok(step)
}
