//! `tag` and `labelsync` (Command-Line Reference, "p4 tag", "p4 labelsync").

ghost use Rattle.std.specs.Prelude.{List, IfOk};
ghost use Rattle.depot_rows.specs.db_records.declared.table.TableId.TheVariants as table_ids;
ghost use Rattle.depot_rows.specs.table_changes.Changed.{rows_of};
ghost use Rattle.depot_rows.specs.depot_model.Deeds.{Deed};
ghost use Rattle.depot_rows.specs.depot_model.Rules.{IsSound};
ghost use Rattle.depot_rows.specs.depot_model.Steps.Tagging as model;
ghost use Rattle.depot_rows.specs.Standing.{HasRows};
ghost use Rattle.named_files.specs.Asked.{IsAsker};
ghost use Rattle.named_files.specs.declared.listing.Listing.TheVariants.{Submitted};
ghost use Rattle.named_files.specs.Sets.{ShownReads};
ghost use Rattle.reply_rows.specs.Made.{IsMade};
ghost use Rattle.label_ops.specs.Tagged.{tagged, taken_files};

use crate::making::make_label;
use crate::taking::{Taking, TakingFiles, labelling_of};
use depot_rows::model::{Caller, FileArgument, Labelling};
use depot_rows::paths::Name;
use depot_rows::tables::Tables;
use file_steps::{walk_over, walk_over_all, within_files};
use named_files::{Asker, Listing, ShownFiles};
use newest_revisions::SeenRows;
use reply_rows::{Step, label_locked_row, no_such_label_row};
use row_reads::{is_label, is_locked_label};
use std::alloc::{AllocError, Global};

/// What is done with the submitted files that arguments name, and without arguments with `all` files or with none.
fn take_files<'a>(
    alloc: Global,
    tables: &'a Tables,
    taking: Taking<'a>,
    all: bool,
    arguments: &[FileArgument],
) -> Result<Step, AllocError>
    ensures { IfOk result (λ step. (d : List Deed) →
        ShownReads taking.entry.caller.now taking.entry.asker.now Submitted (rows_of tables.now) d →
        IsMade (rows_of tables.now) d d (taken_files all taking.entry.labelling taking.entry.have d
        taking.entry.caller.now taking.entry.label.now arguments.now) step) }
{
    let files = ShownFiles {
        caller: taking.caller,
        asker: taking.asker,
        listing: &Listing::Submitted,
    };
    let mut walk = TakingFiles {
        taking,
        heads: SeenRows::none(alloc),
    };
    if all {
        return walk_over_all(alloc, tables, &files, &mut walk, arguments);
    }
    walk_over(alloc, tables, &files, &mut walk, arguments)
}

/// What `tag` does, where the label isn't locked.
fn tag_all(
    alloc: Global,
    tables: &Tables,
    caller: &Caller,
    asker: &Asker,
    label: &Name,
    removes: bool,
    arguments: &[FileArgument],
) -> Result<Step, AllocError>
    ensures { IfOk result (λ step. (d : List Deed) → ShownReads caller.now asker.now Submitted (rows_of tables.now) d →
        IsMade (rows_of tables.now) d d (tagged d caller.now label.now removes arguments.now) step) }
{
    let mut made = make_label(alloc, tables, label)?;
    let taking = Taking {
        caller,
        asker,
        label,
        labelling: labelling_of(removes),
        have: false,
    };
    let more = take_files(alloc, tables, taking, false, arguments)?;
    made.add(more)?;
    let step = within_files(alloc, made)?;
    Ok(step)
}

/// `tag -l LABEL [-d] FILE...`: the label has the files at the revisions that the arguments choose, with `-d` no more;
/// it is made where it is absent. It is refused where the label is locked. It reads the tables of forms, have lists,
/// labels, changes and revisions, and of each file that is named its rows alone. The one error is want of memory.
pub fn tag(
    alloc: Global,
    tables: &Tables,
    caller: &Caller,
    asker: &Asker,
    label: &Name,
    removes: bool,
    arguments: &[FileArgument],
) -> Result<Step, AllocError>
    ensures { IfOk result (λ step. (d : List Deed) → IsSound d → IsAsker d caller.now asker.now →
        HasRows (rows_of tables.now) d table_ids.Domain →
        HasRows (rows_of tables.now) d table_ids.Have → HasRows (rows_of tables.now) d table_ids.Label →
        HasRows (rows_of tables.now) d table_ids.Change →
        HasRows (rows_of tables.now) d table_ids.Rev →
        IsMade (rows_of tables.now) d d (model.tag d caller.now label.now removes arguments.now) step) }
{
    let locked = is_locked_label(alloc, tables, label)?;
    if locked {
        let row = label_locked_row(alloc, label)?;
        let refused = Step::tells(alloc, row)?;
        return Ok(refused);
    }
    let step = tag_all(alloc, tables, caller, asker, label, removes, arguments)?;
    Ok(step)
}

/// `labelsync -l LABEL [-a or -d] [FILE...]`: the label has the files at the revisions that the arguments choose, for
/// an argument without one at those of the client's have list, and loses the other files that are named; with `-a` it
/// keeps them, and with `-d` it loses all that are named. It is refused where the label isn't saved, or is locked. It
/// reads the tables of forms, have lists, labels, changes and revisions, and of each file that is named its rows alone.
/// The one error is want of memory.
pub fn labelsync(
    alloc: Global,
    tables: &Tables,
    caller: &Caller,
    asker: &Asker,
    label: &Name,
    labelling: Labelling,
    arguments: &[FileArgument],
) -> Result<Step, AllocError>
    ensures { IfOk result (λ step. (d : List Deed) → IsSound d → IsAsker d caller.now asker.now →
        HasRows (rows_of tables.now) d table_ids.Domain →
        HasRows (rows_of tables.now) d table_ids.Have → HasRows (rows_of tables.now) d table_ids.Label →
        HasRows (rows_of tables.now) d table_ids.Change →
        HasRows (rows_of tables.now) d table_ids.Rev →
        IsMade (rows_of tables.now) d d (model.labelsync d caller.now label.now labelling arguments.now) step) }
{
    let there = is_label(alloc, tables, label)?;
    if !there {
        let row = no_such_label_row(alloc, label)?;
        let absent = Step::tells(alloc, row)?;
        return Ok(absent);
    }
    let locked = is_locked_label(alloc, tables, label)?;
    if locked {
        let told = label_locked_row(alloc, label)?;
        let refused = Step::tells(alloc, told)?;
        return Ok(refused);
    }
    let taking = Taking {
        caller,
        asker,
        label,
        labelling,
        have: true,
    };
    let whole = take_files(alloc, tables, taking, true, arguments)?;
    let step = within_files(alloc, whole)?;
    Ok(step)
}
