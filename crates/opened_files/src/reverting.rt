//! `revert` (Command-Line Reference, "p4 revert").

ghost use Rattle.std.specs.Prelude.{◌≡◌, ℕ, [], ◌∷◌, ◌++◌, List, IfOk, OnOk, flat_map, if◌then◌else◌};
ghost use Rattle.std.specs.Option.{option_to_list};
ghost use Rattle.depot_rows.specs.db_records.declared.table.TableId.TheVariants as table_ids;
ghost use Rattle.depot_rows.specs.table_changes.Changed.{rows_of};
ghost use Rattle.depot_rows.specs.depot_model.Arguments.{is_in};
ghost use Rattle.depot_rows.specs.depot_model.Deeds.{Deed};
ghost use Rattle.depot_rows.specs.depot_model.Rules.{IsSound};
ghost use Rattle.depot_rows.specs.depot_model.Step.{Step as ModelStep, both, nothing};
ghost use Rattle.depot_rows.specs.depot_model.Steps.Reverting as model;
ghost use Rattle.depot_rows.specs.Standing.{HasRows};
ghost use Rattle.named_files.specs.Asked.{IsAsker};
ghost use Rattle.reply_rows.specs.Made.{IsMade};
ghost use Rattle.opened_files.specs.Reverts.{AreAlike, IsReverted, Reads, shut_row as row_of_shut};

use crate::partners::partner_of;
use depot_rows::model::{Caller, FileArgument, Row};
use depot_rows::paths::DepotPath;
use depot_rows::protections::Level;
use depot_rows::tables::Tables;
use file_steps::{PathSet, named_by, not_open, within_files};
use named_files::{Asker, SelectedFiles};
use opening_parts::{own_path, right_refusal};
use opening_reads::held;
use reply_rows::{RowBuilder, Step};
use row_reads::have_of;
use std::alloc::{AllocError, Global};

/// With the revision that the client has, if it has one.
fn with_have(row: RowBuilder, have: u32) -> Result<RowBuilder, AllocError>
    ensures { IfOk result (λ more. more ≡ row ++ model.have_field have) }
{
    if have == 0 {
        return Ok(row);
    }
    let row = row.number(b"haveRev", u64::from(have))?;
    Ok(row)
}

/// The row of a file that is opened no more.
fn shut_row(alloc: Global, path: &DepotPath, have: u32) -> Result<Row, AllocError>
    ensures { IfOk result (λ row. row ≡ row_of_shut path.now have) }
{
    let row = RowBuilder::new(alloc).path(b"depotFile", path)?;
    let row = with_have(row, have)?;
    let row = row.text(b"action", b"reverted")?;
    Ok(row.row())
}

/// The step by which the client has a file opened no more; the resolves that it owes for the file end with it.
fn shut(
    alloc: Global,
    tables: &Tables,
    caller: &Caller,
    path: &DepotPath,
) -> Result<Step, AllocError>
    ensures { IfOk result (λ step. (d e : List Deed) → HasRows (rows_of tables.now) d table_ids.Have →
        IsMade (rows_of tables.now) d e (model.shut d caller.now path.now) step) }
{
    // the bytes of a path are one
    let _bytes = path.as_bytes();
    let have = have_of(alloc, tables, &caller.client, path)?;
    let file = held(&caller.client, path)?;
    let row = shut_row(alloc, path, have)?;
    Step::shuts(alloc, file, row)
}

/// The other end of a move, which goes along with a file that the caller may open.
fn end_along(
    alloc: Global,
    tables: &Tables,
    caller: &Caller,
    asker: &Asker,
    path: &DepotPath,
) -> Result<Option<DepotPath>, AllocError>
    ensures { IfOk result (λ other. (d : List Deed) → Reads caller.now asker.now (rows_of tables.now) d →
        path.now ∷ option_to_list other ≡ model.both_ends d caller.now path.now) }
{
    if !asker.may(path, Level(3)) {
        return Ok(None);
    }
    let other = partner_of(alloc, tables, &caller.client, path)?;
    Ok(other)
}

/// What is done with a file that wasn't taken.
fn revert_file(
    alloc: Global,
    tables: &Tables,
    caller: &Caller,
    asker: &Asker,
    path: &DepotPath,
    other: &Option<DepotPath>,
) -> Result<Step, AllocError>
    ensures { IfOk result (λ step. (d e : List Deed) → Reads caller.now asker.now (rows_of tables.now) d →
        path.now ∷ option_to_list other.now ≡ model.both_ends d caller.now path.now →
        IsMade (rows_of tables.now) d e (model.revert_file d caller.now path.now) step) }
{
    if let Some(row) = right_refusal(alloc, asker, path, Level(3))? {
        return Step::tells(alloc, row);
    }
    let mut step = shut(alloc, tables, caller, path)?;
    let Some(other) = other else {
        return Ok(step);
    };
    let more = shut(alloc, tables, caller, other)?;
    step.add(more)?;
    Ok(step)
}

/// Takes a file with its other end.
fn take_ends(
    taken: &mut PathSet,
    path: &DepotPath,
    other: Option<DepotPath>,
) -> Result<(), AllocError>
    ensures { OnOk result ((seen : List (List ℕ)) → AreAlike taken.old seen →
        AreAlike taken.new ((path.now ∷ option_to_list other) ++ seen)) }
{
    let file = own_path(path)?;
    taken.insert(file)?;
    match other {
        Some(other) => {
            taken.insert(other)?;
            Ok(())
        }
        None => Ok(()),
    }
}

/// Reverts a file, unless it was taken, and takes it.
fn add_file(
    alloc: Global,
    tables: &Tables,
    caller: &Caller,
    asker: &Asker,
    step: &mut Step,
    taken: &mut PathSet,
    path: &DepotPath,
) -> Result<(), AllocError>
    ensures { OnOk result ((d : List Deed) (done : ModelStep) (seen : List (List ℕ)) →
        Reads caller.now asker.now (rows_of tables.now) d →
        IsReverted (rows_of tables.now) d done seen step.old taken.old →
        IsReverted (rows_of tables.now) d (both done (if is_in seen path.now then nothing else model.revert_file d caller.now path.now)) (model.both_ends d caller.now path.now ++ seen)
        step.new taken.new) }
{
    let other = end_along(alloc, tables, caller, asker, path)?;
    if taken.contains(path) {
        take_ends(taken, path, other)?;
        return Ok(());
    }
    let more = revert_file(alloc, tables, caller, asker, path, &other)?;
    step.add(more)?;
    take_ends(taken, path, other)?;
    Ok(())
}

/// Does so with files.
fn add_files(
    alloc: Global,
    tables: &Tables,
    caller: &Caller,
    asker: &Asker,
    step: &mut Step,
    taken: &mut PathSet,
    paths: &[DepotPath],
) -> Result<(), AllocError>
    ensures { OnOk result ((d : List Deed) (done : ModelStep) (seen : List (List ℕ)) →
        Reads caller.now asker.now (rows_of tables.now) d →
        IsReverted (rows_of tables.now) d done seen step.old taken.old →
        IsReverted (rows_of tables.now) d (both done (model.revert_files d caller.now seen paths.now)) (flat_map (model.both_ends d caller.now) paths.now ++ seen) step.new taken.new) }
{
    let mut rest = paths;
    while let [path, after @ ..] = rest {
        add_file(alloc, tables, caller, asker, step, taken, path)?;
        rest = after;
    }
    Ok(())
}

/// Does so with the files that an argument names, and tells where it names none.
fn add_argument(
    alloc: Global,
    tables: &Tables,
    files: &SelectedFiles<'_>,
    step: &mut Step,
    taken: &mut PathSet,
    argument: &FileArgument,
) -> Result<(), AllocError>
    ensures { OnOk result ((d : List Deed) (done : ModelStep) (seen : List (List ℕ)) →
        Reads files.now.caller.now files.now.asker.now (rows_of tables.now) d →
        IsReverted (rows_of tables.now) d done seen step.old taken.old →
        IsReverted (rows_of tables.now) d
        (both done (model.revert_named d files.now.caller.now seen argument.now (model.selected d files.now.caller.now files.now.change argument.now)))
        (flat_map (model.both_ends d files.now.caller.now) (model.selected d files.now.caller.now files.now.change argument.now) ++ seen) step.new taken.new) }
{
    let paths = named_by(alloc, tables, files, argument)?;
    if paths.is_empty() {
        let more = not_open(alloc, argument)?;
        step.add(more)?;
        return Ok(());
    }
    add_files(
        alloc,
        tables,
        files.caller,
        files.asker,
        step,
        taken,
        paths.as_slice(),
    )?;
    Ok(())
}

/// `revert` of an asker, whatever the number of the files that it changes.
fn revert_over(
    alloc: Global,
    tables: &Tables,
    files: &SelectedFiles<'_>,
    arguments: &[FileArgument],
) -> Result<Step, AllocError>
    ensures { IfOk result (λ step. (d : List Deed) →
        Reads files.now.caller.now files.now.asker.now (rows_of tables.now) d →
        IsMade (rows_of tables.now) d d (model.revert_over d files.now.caller.now files.now.change [] arguments.now) step) }
{
    let mut step = Step::new(alloc);
    let mut taken = PathSet::new(alloc);
    let mut rest = arguments;
    while let [argument, after @ ..] = rest {
        add_argument(alloc, tables, files, &mut step, &mut taken, argument)?;
        rest = after;
    }
    Ok(step)
}

/// `revert [-c CHANGE] FILE...`: the client has files opened no more, in the change where one is given, each with the
/// other end of its move, from the tables of have lists and opened files alone. The have list stays. The one error is
/// want of memory.
pub fn revert(
    alloc: Global,
    tables: &Tables,
    caller: &Caller,
    asker: &Asker,
    change: Option<u32>,
    arguments: &[FileArgument],
) -> Result<Step, AllocError>
    ensures { IfOk result (λ step. (d : List Deed) → IsSound d → IsAsker d caller.now asker.now →
        HasRows (rows_of tables.now) d table_ids.Have →
        HasRows (rows_of tables.now) d table_ids.Working →
        IsMade (rows_of tables.now) d d (model.revert d caller.now change arguments.now) step) }
{
    let files = SelectedFiles {
        caller,
        asker,
        change,
    };
    let done = revert_over(alloc, tables, &files, arguments)?;
    within_files(alloc, done)
}
