//! `reopen` (Command-Line Reference, "p4 reopen").

ghost use Rattle.std.specs.Prelude.{◌≡◌, List, IfOk, None};
ghost use Rattle.depot_rows.specs.db_records.declared.table.TableId.TheVariants as table_ids;
ghost use Rattle.depot_rows.specs.table_changes.Changed.{rows_of};
ghost use Rattle.depot_rows.specs.depot_model.Deeds.{Deed};
ghost use Rattle.depot_rows.specs.depot_model.Rules.{IsSound};
ghost use Rattle.depot_rows.specs.depot_model.Steps.Reverting as model;
ghost use Rattle.depot_rows.specs.Deed.{opening_of as opening_of_deed};
ghost use Rattle.depot_rows.specs.Standing.{HasRows};
ghost use Rattle.named_files.specs.Asked.{IsAsker};
ghost use Rattle.reply_rows.specs.Made.{IsMade};
ghost use Rattle.opened_files.specs.Locks.{Reads};

use crate::locking::over_selected;
use command_parts::reopened_change_refusal;
use depot_rows::Opening;
use depot_rows::model::{Caller, FileArgument, Row};
use depot_rows::paths::{DepotPath, Text};
use depot_rows::protections::Level;
use depot_rows::tables::Tables;
use file_openings::opening_of;
use file_steps::FileAct;
use named_files::Asker;
use opening_parts::right_refusal;
use opening_reads::reopened_in;
use reply_rows::{RowBuilder, Step};
use std::alloc::{AllocError, Global};

/// What `reopen` does with a file.
#[derive(Drop)]
struct Reopening<'a> {
    caller: &'a Caller,
    asker: &'a Asker,
    change: Option<u32>,
    file_type: &'a Option<Text>,
}

/// The row of a file that is opened anew.
fn reopen_row(alloc: Global, opening: &Opening) -> Result<Row, AllocError>
    ensures { IfOk result (λ row. row ≡ model.reopen_row (opening_of_deed opening.now)) }
{
    let row = RowBuilder::new(alloc).path(b"depotFile", &opening.path)?;
    let row = row.change(b"change", opening.change)?;
    let row = row.text(b"type", opening.file_type.as_bytes())?;
    Ok(row.row())
}

impl<'a> FileAct for Reopening<'a> {
    ghost use Rattle.depot_rows.specs.depot_model.Steps.Reverting.{reopen_file as step_of_file};
    ghost use Rattle.opened_files.specs.Locks.{Reads};

    ghost reads = { λ reopening rows d. Reads reopening.caller.now reopening.asker.now rows d };

    ghost acts = { λ reopening d argument path. step_of_file d reopening.caller.now reopening.change reopening.file_type.now path };

    ghost is_later = { λ reopening d e. Unit {0} };

    fn act(
        &self,
        alloc: Global,
        tables: &Tables,
        _argument: &FileArgument,
        path: &DepotPath,
    ) -> Result<Step, AllocError> {
        let client = &self.caller.client;
        let Some(row) = opening_of(alloc, tables, client, path)? else {
            return Ok(Step::new(alloc));
        };
        if let Some(told) = right_refusal(alloc, self.asker, path, Level(3))? {
            return Step::tells(alloc, told);
        }
        // the bytes of a path are one
        let _bytes = path.as_bytes();
        let opening = reopened_in(alloc, client, path, row, self.change, self.file_type)?;
        let told = reopen_row(alloc, &opening)?;
        Step::opens(alloc, opening, told)
    }

    ghost first = { λ reopening d. tt };

    ghost next = { λ reopening d e argument path later. tt };
}

/// `reopen [-c CHANGE] [-t TYPE] FILE...`: moves files that the client has opened into another change, or gives them
/// another type, from the tables of changes and opened files alone. The one error is want of memory.
pub fn reopen(
    alloc: Global,
    tables: &Tables,
    caller: &Caller,
    asker: &Asker,
    change: Option<u32>,
    file_type: &Option<Text>,
    arguments: &[FileArgument],
) -> Result<Step, AllocError>
    ensures { IfOk result (λ step. (d : List Deed) → IsSound d → IsAsker d caller.now asker.now →
        HasRows (rows_of tables.now) d table_ids.Change →
        HasRows (rows_of tables.now) d table_ids.Working →
        IsMade (rows_of tables.now) d d (model.reopen d caller.now change file_type.now arguments.now) step) }
{
    if let Some(row) = reopened_change_refusal(alloc, tables, caller, change)? {
        return Step::tells(alloc, row);
    }
    let reopening = Reopening {
        caller,
        asker,
        change,
        file_type,
    };
    over_selected(alloc, tables, caller, asker, None, arguments, &reopening)
}
