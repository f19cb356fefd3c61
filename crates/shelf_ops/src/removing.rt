//! `shelve -d` (Command-Line Reference, "p4 shelve", option -d).

ghost use Rattle.std.specs.Prelude.{◌≡◌, ◌∷◌, [], List, IfOk};
ghost use Rattle.depot_rows.specs.db_records.declared.table.TableId.TheVariants as table_ids;
ghost use Rattle.depot_rows.specs.table_changes.Changed.{AllRows, rows_of};
ghost use Rattle.depot_rows.specs.depot_model.Deeds.{Deed as ModelDeed};
ghost use Rattle.depot_rows.specs.depot_model.Rules.{IsSound};
ghost use Rattle.depot_rows.specs.depot_model.Steps.Shelving as model;
ghost use Rattle.depot_rows.specs.Standing.{HasRows};
ghost use Rattle.named_files.specs.Asked.{IsAsker};
ghost use Rattle.reply_rows.specs.Made.{IsMade, does};
ghost use Rattle.shelf_ops.specs.Removed.{removal, removed_row as row_of_removed};

use crate::forms::gone_form;
use crate::keeping::{shelf_name, shelf_refusal};
use crate::kept_set::KeptFiles;
use crate::limits::within_forms;
use command_parts::change_refusal;
use depot_rows::forms::Form;
use depot_rows::model::{Caller, FileArgument, Row};
use depot_rows::paths::{DepotPath, Text};
use depot_rows::protections::Level;
use depot_rows::tables::Tables;
use depot_rows::{Deed, SpecKind};
use file_steps::{FileAct, over_all};
use named_files::Asker;
use opening_parts::right_refusal;
use reply_rows::{RowBuilder, Step};
use std::alloc::{AllocError, Global};

/// What `shelve -d` does with a file.
#[derive(Drop)]
struct Removing<'a> {
    caller: &'a Caller,
    asker: &'a Asker,
    change: u32,
}

/// The step that saves the form of a shelved file, with a row.
pub(crate) fn saves(alloc: Global, name: Text, form: Form, row: Row) -> Result<Step, AllocError>
    ensures { IfOk result (λ step. step ≡ does (Deed.Spec SpecKind.Shelf name form ∷ []) row) }
{
    let mut step = Step::tells(alloc, row)?;
    step.deeds.spec(SpecKind::Shelf, name, form)?;
    Ok(step)
}

/// The row of a file that is kept no more.
fn removed_row(alloc: Global, path: &DepotPath) -> Result<Row, AllocError>
    ensures { IfOk result (λ row. row ≡ row_of_removed path.now) }
{
    let row = RowBuilder::new(alloc).path(b"depotFile", path)?;
    let row = row.text(b"action", b"deleted")?;
    Ok(row.row())
}

/// The step by which a file is kept in a change no more.
fn remove(alloc: Global, change: u32, path: &DepotPath) -> Result<Step, AllocError>
    ensures { IfOk result (λ step. (all : AllRows) (d e : List ModelDeed) →
        IsMade all d e (removal change path.now) step) }
{
    let row = removed_row(alloc, path)?;
    let name = shelf_name(alloc, change, path)?;
    let form = gone_form(alloc, change, path)?;
    saves(alloc, name, form, row)
}

impl<'a> FileAct for Removing<'a> {
    ghost use Rattle.depot_rows.specs.depot_model.Steps.Shelving.{unkeep};
    ghost use Rattle.shelf_ops.specs.Sets.{KeptReads};

    ghost reads = { λ removing rows d. KeptReads removing.caller.now removing.asker.now rows d };

    ghost acts = { λ removing d argument path. unkeep d removing.caller.now removing.change path };

    ghost is_later = { λ removing d e. Unit {0} };

    fn act(
        &self,
        alloc: Global,
        _tables: &Tables,
        _argument: &FileArgument,
        path: &DepotPath,
    ) -> Result<Step, AllocError> {
        if let Some(row) = right_refusal(alloc, self.asker, path, Level(3))? {
            return Step::tells(alloc, row);
        }
        remove(alloc, self.change, path)
    }

    ghost first = { λ removing d. tt };

    ghost next = { λ removing d e argument path later. tt };
}

/// `shelve -d -c N [FILE...]`: files are kept in a change no more. It is refused where the change isn't a pending one
/// of the caller's user and client, or keeps no file that the caller may list. It reads the tables of forms and changes
/// alone, and of the forms of shelved files those of the change alone. The one error is want of memory.
pub fn shelve_delete(
    alloc: Global,
    tables: &Tables,
    caller: &Caller,
    asker: &Asker,
    change: u32,
    arguments: &[FileArgument],
) -> Result<Step, AllocError>
    ensures { IfOk result (λ step. (d : List ModelDeed) → IsSound d → IsAsker d caller.now asker.now →
        HasRows (rows_of tables.now) d table_ids.Domain →
        HasRows (rows_of tables.now) d table_ids.Change →
        IsMade (rows_of tables.now) d d (model.shelve_delete d caller.now change arguments.now) step) }
{
    if let Some(row) = change_refusal(alloc, tables, caller, change)? {
        return Step::tells(alloc, row);
    }
    if let Some(row) = shelf_refusal(alloc, tables, asker, change)? {
        return Step::tells(alloc, row);
    }
    let files = KeptFiles {
        caller,
        asker,
        change,
    };
    let removing = Removing {
        caller,
        asker,
        change,
    };
    let done = over_all(alloc, tables, &files, &removing, arguments)?;
    within_forms(alloc, done)
}
