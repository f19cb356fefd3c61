//! `dirs` (Command-Line Reference, "p4 dirs").

ghost use Rattle.std.specs.Prelude.{◌≡◌, ◌++◌, ◌∷◌, [], not, List, IfOk, OnOk, if◌then◌else◌};
ghost use Rattle.std.specs.List.{list_any};
ghost use Rattle.depot_rows.specs.depot_path.Bytes.{same};
ghost use Rattle.depot_rows.specs.db_records.declared.table.TableId.TheVariants as table_ids;
ghost use Rattle.depot_rows.specs.table_changes.Changed.{rows_of};
ghost use Rattle.depot_rows.specs.depot_model.Deeds.{Deed};
ghost use Rattle.depot_rows.specs.depot_model.Rules.{IsSound};
ghost use Rattle.depot_rows.specs.depot_model.Steps.History as model;
ghost use Rattle.depot_rows.specs.Standing.{HasRows};
ghost use Rattle.named_files.specs.Asked.{IsAsker};
ghost use Rattle.reply_rows.specs.Made.{IsMade};
ghost use Rattle.history_query.specs.Directories.{missing_rows, new_rows, taken_after, text_row, texts_of, told_after};

use crate::directories::directories;
use crate::texts::TextSet;
use depot_rows::model::{Caller, FileArgument, Row};
use depot_rows::paths::{Sequence, Text};
use depot_rows::tables::Tables;
use named_files::Asker;
use reply_rows::{RowBuilder, Step, no_such_file_row};
use std::alloc::{AllocError, Global};

/// The row of a directory, as it is printed.
fn dir_row(alloc: Global, directory: &Text) -> Result<Row, AllocError>
    ensures { IfOk result (λ row. row ≡ text_row directory.now) }
{
    let row = RowBuilder::new(alloc).text(b"dir", directory.as_bytes())?;
    Ok(row.row())
}

/// Adds the row of a directory, unless it was taken before.
fn add_row(
    alloc: Global,
    rows: &mut Sequence<Row>,
    taken: &TextSet,
    directory: &Text,
) -> Result<(), AllocError>
    ensures { OnOk result (rows.new ≡ rows.old ++ (if not (list_any (same directory.now) taken.now) then text_row directory.now ∷ [] else [])) }
{
    if !taken.contains(directory) {
        rows.push(dir_row(alloc, directory)?)?;
    }
    Ok(())
}

/// Adds the rows of directories that were not taken before.
fn add_rows(
    alloc: Global,
    rows: &mut Sequence<Row>,
    taken: &TextSet,
    directories: &[Text],
) -> Result<(), AllocError>
    ensures { OnOk result (rows.new ≡ rows.old ++ new_rows taken.now directories.now) }
{
    let mut rest = directories;
    while let [directory, after @ ..] = rest {
        add_row(alloc, rows, taken, directory)?;
        rest = after;
    }
    Ok(())
}

/// Adds the row of an argument that names no directory.
fn add_missing(
    alloc: Global,
    rows: &mut Sequence<Row>,
    argument: &FileArgument,
    directories: &[Text],
) -> Result<(), AllocError>
    ensures { OnOk result (rows.new ≡ rows.old ++ missing_rows argument.now directories.now) }
{
    match directories {
        [] => {
            rows.push(no_such_file_row(alloc, argument.text.as_bytes())?)?;
            Ok(())
        }
        [_, ..] => Ok(()),
    }
}

/// Takes directories.
fn take(taken: &mut TextSet, directories: Sequence<Text>) -> Result<(), AllocError>
    ensures { OnOk result (taken.new ≡ taken_after taken.old directories) }
{
    for directory in directories.into_vec() {
        taken.insert(directory)?;
    }
    Ok(())
}

/// Adds the rows of an argument's directories, and takes them.
fn add_argument(
    alloc: Global,
    tables: &Tables,
    caller: &Caller,
    asker: &Asker,
    rows: &mut Sequence<Row>,
    taken: &mut TextSet,
    argument: &FileArgument,
) -> Result<(), AllocError>
    ensures rows { OnOk result ((d : List Deed) → IsSound d → IsAsker d caller.now asker.now →
        HasRows (rows_of tables.now) d table_ids.Rev →
        rows.new ≡ rows.old ++ (missing_rows argument.now (texts_of d caller.now argument.now) ++ new_rows taken.old (texts_of d caller.now argument.now))) }
    ensures taken { OnOk result ((d : List Deed) → IsSound d → IsAsker d caller.now asker.now →
        HasRows (rows_of tables.now) d table_ids.Rev →
        taken.new ≡ taken_after taken.old (texts_of d caller.now argument.now)) }
{
    let found = directories(alloc, tables, caller, asker, &argument.spec.pattern)?;
    add_missing(alloc, rows, argument, found.as_slice())?;
    add_rows(alloc, rows, taken, found.as_slice())?;
    take(taken, found)?;
    Ok(())
}

/// The rows of arguments.
fn rows_for(
    alloc: Global,
    tables: &Tables,
    caller: &Caller,
    asker: &Asker,
    arguments: &[FileArgument],
) -> Result<Sequence<Row>, AllocError>
    ensures { IfOk result (λ rows. (d : List Deed) → IsSound d → IsAsker d caller.now asker.now →
        HasRows (rows_of tables.now) d table_ids.Rev →
        rows ≡ told_after d caller.now [] arguments.now) }
{
    let mut rows = Sequence::new(alloc);
    let mut taken = TextSet::new(alloc);
    let mut rest = arguments;
    while let [argument, after @ ..] = rest {
        add_argument(
            alloc, tables, caller, asker, &mut rows, &mut taken, argument,
        )?;
        rest = after;
    }
    Ok(rows)
}

/// `dirs DIR...`: the directories of files that aren't deleted, or of the places at which the client shows them, which
/// fit an argument, each once, by the asker's rights and view and from the table of revisions alone. The one error is
/// want of memory.
pub fn dirs(
    alloc: Global,
    tables: &Tables,
    caller: &Caller,
    asker: &Asker,
    arguments: &[FileArgument],
) -> Result<Step, AllocError>
    ensures { IfOk result (λ step. (d : List Deed) → IsSound d → IsAsker d caller.now asker.now →
        HasRows (rows_of tables.now) d table_ids.Rev →
        IsMade (rows_of tables.now) d d (model.dirs d caller.now arguments.now) step) }
{
    let rows = rows_for(alloc, tables, caller, asker, arguments)?;
    let mut step = Step::new(alloc);
    step.rows = rows;
    Ok(step)
}
