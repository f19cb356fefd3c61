//! `lock` and `unlock` (Command-Line Reference, "p4 lock", "p4 unlock"), and what is done with the opened files that
//! arguments name.

ghost use Rattle.std.specs.Prelude.{◌≡◌, ◌∷◌, [], List, IfOk, codes};
ghost use Rattle.std.specs.Option.{option_copied};
ghost use Rattle.depot_rows.specs.db_records.declared.table.TableId.TheVariants as table_ids;
ghost use Rattle.depot_rows.specs.table_changes.Changed.{AllRows, rows_of};
ghost use Rattle.depot_rows.specs.depot_model.Arguments.{over as over_in, within_files as within_files_in};
ghost use Rattle.depot_rows.specs.depot_model.Deeds.{Deed};
ghost use Rattle.depot_rows.specs.depot_model.Rows.{path_field as field_of_path, row as row_with, text_field as field_of_text};
ghost use Rattle.depot_rows.specs.depot_model.Rules.{IsSound};
ghost use Rattle.depot_rows.specs.depot_model.Steps.Reverting as model;
ghost use Rattle.depot_rows.specs.Standing.{HasRows};
ghost use Rattle.named_files.specs.Asked.{IsAsker};
ghost use Rattle.reply_rows.specs.Made.{IsMade};
ghost use Rattle.opened_files.specs.Locks.{Reads, other_of as other_in};

use depot_rows::model::{Caller, FileArgument, Row};
use depot_rows::paths::{DepotPath, Name};
use depot_rows::protections::Level;
use depot_rows::tables::Tables;
use file_steps::{FileAct, over, within_files};
use named_files::{Asker, SelectedFiles};
use opening_parts::right_refusal;
use opening_reads::held;
use reply_rows::{RowBuilder, Step, locked_row};
use revision_reads::holder_of;
use std::alloc::{AllocError, Global};

/// What is done with the files that the client has opened and that arguments name, in the change where one is given,
/// from the table of opened files and those that `act` reads alone. The one error is want of memory.
pub(crate) fn over_selected<A: FileAct>(
    alloc: Global,
    tables: &Tables,
    caller: &Caller,
    asker: &Asker,
    change: Option<u32>,
    arguments: &[FileArgument],
    act: &A,
) -> Result<Step, AllocError>
    requires { (rows : AllRows) (d : List Deed) → Reads caller.now asker.now rows d → A.reads act.now rows d }
    ensures { IfOk result (λ step. (d : List Deed) → IsSound d → IsAsker d caller.now asker.now →
        HasRows (rows_of tables.now) d table_ids.Working → IsMade (rows_of tables.now) d d
        (within_files_in (over_in (model.selected d caller.now change) model.not_open (A.acts act.now d) []
        arguments.now)) step) }
{
    let files = SelectedFiles {
        caller,
        asker,
        change,
    };
    let done = over(alloc, tables, &files, act, arguments)?;
    let step = within_files(alloc, done)?;
    Ok(step)
}

/// The row of a file with which something was done.
fn action_row(alloc: Global, path: &DepotPath, action: &[u8]) -> Result<Row, AllocError>
    ensures { IfOk result (λ row. row ≡
        row_with (field_of_path (codes "depotFile") path.now ∷ field_of_text (codes "action") action.now ∷ [])) }
{
    let row = RowBuilder::new(alloc).path(b"depotFile", path)?;
    let row = row.text(b"action", action)?;
    Ok(row.row())
}

/// What `lock` does with a file.
#[derive(Drop)]
struct Locking<'a> {
    caller: &'a Caller,
    asker: &'a Asker,
}

/// The other client that has a lock.
fn other_of<'a>(client: &Name, who: &'a Option<Name>) -> Option<&'a Name>
    ensures { option_copied result ≡ other_in client.now who.now }
{
    match who {
        Some(who) => {
            if who.as_bytes() == client.as_bytes() {
                None
            } else {
                Some(who)
            }
        }
        None => None,
    }
}

impl<'a> FileAct for Locking<'a> {
    ghost use Rattle.depot_rows.specs.depot_model.Steps.Reverting.{lock_file as step_of_file};
    ghost use Rattle.opened_files.specs.Locks.{Reads, StaysFree};
    ghost use Rattle.opened_files.specs.Staying.{lock_stays};

    ghost reads = { λ locking rows d. Reads locking.caller.now locking.asker.now rows d };

    ghost acts = { λ locking d argument path. step_of_file d locking.caller.now path };

    ghost is_later = { λ locking d e. StaysFree locking.caller.now.client d e };

    fn act(
        &self,
        alloc: Global,
        tables: &Tables,
        _argument: &FileArgument,
        path: &DepotPath,
    ) -> Result<Step, AllocError> {
        if let Some(row) = right_refusal(alloc, self.asker, path, Level(4))? {
            return Step::tells(alloc, row);
        }
        let client = &self.caller.client;
        let who = holder_of(alloc, tables, path)?;
        if let Some(other) = other_of(client, &who) {
            let row = locked_row(alloc, path, other)?;
            return Step::tells(alloc, row);
        }
        // the bytes of a path are one
        let _bytes = path.as_bytes();
        let file = held(client, path)?;
        let row = action_row(alloc, path, b"locked")?;
        Step::holds(alloc, file, row)
    }

    ghost first = { λ locking d path free. free };

    ghost next = { λ locking d e argument path later. lock_stays d e locking.caller.now path later };
}

/// `lock [-c CHANGE] FILE...`: locks files that the client has opened, in the change where one is given, so that no
/// other client submits them, from the table of opened files alone. The one error is want of memory.
pub fn lock(
    alloc: Global,
    tables: &Tables,
    caller: &Caller,
    asker: &Asker,
    change: Option<u32>,
    arguments: &[FileArgument],
) -> Result<Step, AllocError>
    ensures { IfOk result (λ step. (d : List Deed) → IsSound d → IsAsker d caller.now asker.now →
        HasRows (rows_of tables.now) d table_ids.Working →
        IsMade (rows_of tables.now) d d (model.lock d caller.now change arguments.now) step) }
{
    let locking = Locking { caller, asker };
    over_selected(alloc, tables, caller, asker, change, arguments, &locking)
}

/// What `unlock` does with a file.
#[derive(Drop)]
struct Unlocking<'a> {
    caller: &'a Caller,
    asker: &'a Asker,
}

/// Whether the caller's client has a lock.
fn is_own(caller: &Caller, who: &Option<Name>) -> bool
    ensures { result ≡ model.is_held_by caller.now who.now }
{
    match who {
        Some(who) => who.as_bytes() == caller.client.as_bytes(),
        None => false,
    }
}

impl<'a> FileAct for Unlocking<'a> {
    ghost use Rattle.depot_rows.specs.depot_model.Steps.Reverting.{unlock_file as step_of_file};
    ghost use Rattle.opened_files.specs.Locks.{Reads};

    ghost reads = { λ unlocking rows d. Reads unlocking.caller.now unlocking.asker.now rows d };

    ghost acts = { λ unlocking d argument path. step_of_file d unlocking.caller.now path };

    ghost is_later = { λ unlocking d e. Unit {0} };

    fn act(
        &self,
        alloc: Global,
        tables: &Tables,
        _argument: &FileArgument,
        path: &DepotPath,
    ) -> Result<Step, AllocError> {
        if let Some(row) = right_refusal(alloc, self.asker, path, Level(4))? {
            return Step::tells(alloc, row);
        }
        let who = holder_of(alloc, tables, path)?;
        if !is_own(self.caller, &who) {
            return Ok(Step::new(alloc));
        }
        // the bytes of a path are one
        let _bytes = path.as_bytes();
        let file = held(&self.caller.client, path)?;
        let row = action_row(alloc, path, b"unlocked")?;
        Step::frees(alloc, file, row)
    }

    ghost first = { λ unlocking d. tt };

    ghost next = { λ unlocking d e argument path later. tt };
}

/// `unlock [-c CHANGE] FILE...`: frees the client's locks of files that it has opened, in the change where one is
/// given, from the table of opened files alone. The one error is want of memory.
pub fn unlock(
    alloc: Global,
    tables: &Tables,
    caller: &Caller,
    asker: &Asker,
    change: Option<u32>,
    arguments: &[FileArgument],
) -> Result<Step, AllocError>
    ensures { IfOk result (λ step. (d : List Deed) → IsSound d → IsAsker d caller.now asker.now →
        HasRows (rows_of tables.now) d table_ids.Working →
        IsMade (rows_of tables.now) d d (model.unlock d caller.now change arguments.now) step) }
{
    let unlocking = Unlocking { caller, asker };
    over_selected(alloc, tables, caller, asker, change, arguments, &unlocking)
}
