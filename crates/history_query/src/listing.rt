//! `files` (Command-Line Reference, "p4 files").

ghost use Rattle.std.specs.Prelude.{◌≡◌, List, IfOk, option_map};
ghost use Rattle.depot_rows.specs.db_records.declared.record.Record.TheVariants.{Change, Rev};
ghost use Rattle.depot_rows.specs.db_records.declared.table.TableId.TheVariants as table_ids;
ghost use Rattle.depot_rows.specs.table_changes.Changed.{rows_of};
ghost use Rattle.depot_rows.specs.depot_model.Deeds.{Deed};
ghost use Rattle.depot_rows.specs.depot_model.Rules.{IsSound};
ghost use Rattle.depot_rows.specs.depot_model.Steps.Listing as model;
ghost use Rattle.depot_rows.specs.Standing.{HasRows};
ghost use Rattle.named_files.specs.Asked.{IsAsker};
ghost use Rattle.reply_rows.specs.Made.{IsMade, told as told_rows};
ghost use Rattle.history_query.specs.Listing.{file_row_of, rows_told};
ghost use Rattle.history_query.specs.Telling.{told_records};

use crate::choosing::{ChoiceAct, over_chosen};
use crate::telling::{Told, told_of};
use depot_rows::model::{Caller, FileArgument, Row};
use depot_rows::paths::DepotPath;
use depot_rows::records::{ChangeRecord, RevRecord};
use depot_rows::tables::Tables;
use named_files::Asker;
use newest_revisions::is_live;
use reply_rows::{RowBuilder, Step};
use std::alloc::{AllocError, Global};

/// What `files` tells of a file.
#[derive(Drop)]
struct Listed {
    /// Revisions that are deleted have no row.
    live: bool,
}

/// The row of a revision.
fn file_row(
    alloc: Global,
    path: &DepotPath,
    row: &RevRecord,
    change: &ChangeRecord,
) -> Result<Row, AllocError>
    ensures { IfOk result (λ made. made ≡ file_row_of path.now (Rev row.now) (Change change.now)) }
{
    let made = RowBuilder::new(alloc).path(b"depotFile", path)?;
    let made = made.number(b"rev", u64::from(row.rev))?;
    let made = made.number(b"change", u64::from(row.change))?;
    let made = made.text(b"action", row.action.as_bytes())?;
    let made = made.text(b"type", row.file_type.as_bytes())?;
    let made = made.number(b"time", change.moment)?;
    Ok(made.row())
}

/// What is told of a file.
fn tell_file(
    alloc: Global,
    live: bool,
    path: &DepotPath,
    told: Option<Told<'_>>,
) -> Result<Step, AllocError>
    ensures { IfOk result (λ step. step ≡ told_rows (rows_told live path.now (option_map told_records told.entry))) }
{
    match told {
        None => Ok(Step::new(alloc)),
        Some(told) => {
            let there = is_live(told.row);
            if live && !there {
                return Ok(Step::new(alloc));
            }
            let row = file_row(alloc, path, told.row, told.change)?;
            let step = Step::tells(alloc, row)?;
            Ok(step)
        }
    }
}

impl ChoiceAct for Listed {
    ghost use Rattle.depot_rows.specs.depot_model.Steps.Listing.{tells_file};
    ghost use Rattle.history_query.specs.Choosing.{ChoiceReads as Reads};

    ghost reads = { λ listed caller rows d. Reads rows d };

    ghost acts = { λ listed d caller argument path. tells_file listed.live d caller argument path };

    fn act(
        &self,
        alloc: Global,
        tables: &Tables,
        _caller: &Caller,
        path: &DepotPath,
        row: Option<&RevRecord>,
    ) -> Result<Step, AllocError> {
        let told = told_of(tables, path, row);
        let step = tell_file(alloc, self.live, path, told)?;
        Ok(step)
    }
}

/// `files [-e] FILE...`: the revisions that arguments choose of files, with `-e` those alone that aren't deleted, from
/// the tables of forms, have lists, labels, changes and revisions alone. The one error is want of memory.
pub fn files(
    alloc: Global,
    tables: &Tables,
    caller: &Caller,
    asker: &Asker,
    live: bool,
    arguments: &[FileArgument],
) -> Result<Step, AllocError>
    ensures { IfOk result (λ step. (d : List Deed) → IsSound d → IsAsker d caller.now asker.now →
        HasRows (rows_of tables.now) d table_ids.Domain → HasRows (rows_of tables.now) d table_ids.Have →
        HasRows (rows_of tables.now) d table_ids.Label → HasRows (rows_of tables.now) d table_ids.Change →
        HasRows (rows_of tables.now) d table_ids.Rev →
        IsMade (rows_of tables.now) d d (model.files d caller.now live arguments.now) step) }
{
    let act = Listed { live };
    let step = over_chosen(alloc, tables, caller, asker, &act, arguments)?;
    Ok(step)
}
