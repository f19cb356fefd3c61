//! The changes that made the revisions that arguments select (Command-Line Reference, "p4 changes").

ghost use Rattle.std.specs.Prelude.{◌≡◌, ◌++◌, ℕ, [], false, List, IfOk, OnOk, flat_map, if◌then◌else◌, length, ◌==◌, ◌∷◌};
ghost use Rattle.std.specs.Option.{option_to_list};
ghost use Rattle.depot_rows.specs.db_records.declared.table.TableId.TheVariants as table_ids;
ghost use Rattle.depot_rows.specs.table_changes.Changed.{rows_of};
ghost use Rattle.depot_rows.specs.depot_model.declared.refusal.Refusal.TheVariants.{NoSuchFile};
ghost use Rattle.depot_rows.specs.depot_model.Arguments.{is_in, named, not_in, submitted};
ghost use Rattle.depot_rows.specs.depot_model.Deeds.{Deed};
ghost use Rattle.depot_rows.specs.depot_model.Refusals.{refusal_row};
ghost use Rattle.depot_rows.specs.depot_model.Rules.{IsSound};
ghost use Rattle.depot_rows.specs.depot_model.Steps.Changes.{change_at, made_of, made_over, missing};
ghost use Rattle.depot_rows.specs.Standing.{HasRows};
ghost use Rattle.named_files.specs.Sets.{ShownReads};
ghost use Rattle.named_files.specs.declared.listing.Listing.TheVariants.{Submitted};
ghost use Rattle.revision_reads.specs.Choice.{HaveRows, wanted_tables};
ghost use Rattle.change_lists.specs.Listed.{made_in_file};

use depot_rows::model::{Caller, FileArgument, Row};
use depot_rows::paths::{DepotPath, Sequence};
use depot_rows::tables::Tables;
use file_steps::{PathSet, named_by};
use named_files::{Asker, Listing, ShownFiles};
use reply_rows::no_such_file_row;
use revision_reads::{in_range, revision_of};
use std::alloc::{AllocError, Global};

/// Adds the number of the change that made a revision, if there is that one.
fn push_change(
    alloc: Global,
    tables: &Tables,
    made: &mut Vec<u32>,
    path: &DepotPath,
    rev: &u32,
) -> Result<(), AllocError>
    ensures { OnOk result ((d : List Deed) → HasRows (rows_of tables.now) d table_ids.Rev →
        made.new.items ≡ made.old.items ++ option_to_list (change_at d path.now rev.now)) }
{
    let row = revision_of(alloc, tables, path, *rev)?;
    if let Some(row) = row {
        made.push(row.change)?;
    }
    Ok(())
}

/// Adds those of revisions of a file.
fn push_changes(
    alloc: Global,
    tables: &Tables,
    made: &mut Vec<u32>,
    path: &DepotPath,
    revs: &[u32],
) -> Result<(), AllocError>
    ensures { OnOk result ((d : List Deed) → HasRows (rows_of tables.now) d table_ids.Rev →
        made.new.items ≡ made.old.items ++ flat_map (λ rev. option_to_list (change_at d path.now rev)) revs.now) }
{
    let mut rest = revs;
    while let [rev, later @ ..] = rest {
        push_change(alloc, tables, made, path, rev)?;
        rest = later;
    }
    Ok(())
}

/// Adds those of the revisions of a file that an argument selects, unless the file was taken.
fn push_file(
    alloc: Global,
    tables: &Tables,
    caller: &Caller,
    made: &mut Vec<u32>,
    taken: &PathSet,
    argument: &FileArgument,
    path: &DepotPath,
) -> Result<(), AllocError>
    ensures { OnOk result ((d : List Deed) → IsSound d → HasRows (rows_of tables.now) d table_ids.Rev →
        HasRows (rows_of tables.now) d table_ids.Change →
        HaveRows (rows_of tables.now) d (wanted_tables argument.now.spec.wanted) →
        made.new.items ≡ made.old.items ++ made_in_file d caller.now argument.now taken.now path.now) }
{
    if taken.contains(path) {
        return Ok(());
    }
    let wanted = &argument.spec.wanted;
    let revs = in_range(alloc, tables, caller, path, wanted)?;
    push_changes(alloc, tables, made, path, &revs)?;
    Ok(())
}

/// Adds those of files.
fn push_files(
    alloc: Global,
    tables: &Tables,
    caller: &Caller,
    made: &mut Vec<u32>,
    taken: &PathSet,
    argument: &FileArgument,
    paths: &[DepotPath],
) -> Result<(), AllocError>
    ensures { OnOk result ((d : List Deed) → IsSound d → HasRows (rows_of tables.now) d table_ids.Rev →
        HasRows (rows_of tables.now) d table_ids.Change →
        HaveRows (rows_of tables.now) d (wanted_tables argument.now.spec.wanted) →
        made.new.items ≡ made.old.items ++ flat_map (made_in_file d caller.now argument.now taken.now) paths.now) }
{
    let mut rest = paths;
    while let [path, later @ ..] = rest {
        push_file(alloc, tables, caller, made, taken, argument, path)?;
        rest = later;
    }
    Ok(())
}

/// Adds the refusal of an argument that names none of some files.
fn push_missing(
    alloc: Global,
    rows: &mut Sequence<Row>,
    argument: &FileArgument,
    paths: &[DepotPath],
) -> Result<(), AllocError>
    ensures { OnOk result (rows.new ≡ rows.old ++ (if length paths.now == 0 then refusal_row (NoSuchFile argument.now.text) ∷ [] else [])) }
{
    if paths.is_empty() {
        rows.push(no_such_file_row(alloc, argument.text.as_bytes())?)?;
    }
    Ok(())
}

/// Adds files to those that were taken.
fn take(taken: &mut PathSet, paths: Sequence<DepotPath>) -> Result<(), AllocError>
    ensures { OnOk result ((path : List ℕ) → is_in taken.new path ≡ is_in (taken.old ++ paths) path) }
{
    for path in paths.into_vec() {
        taken.insert(path)?;
    }
    Ok(())
}

/// The submitted files that an argument names, in path order.
fn named_files_of(
    alloc: Global,
    tables: &Tables,
    caller: &Caller,
    asker: &Asker,
    argument: &FileArgument,
) -> Result<Sequence<DepotPath>, AllocError>
    ensures { IfOk result (λ paths. (d : List Deed) → ShownReads caller.now asker.now Submitted (rows_of tables.now) d →
        paths ≡ named false d caller.now (submitted d) argument.now) }
{
    let listing = Listing::Submitted;
    let files = ShownFiles {
        caller,
        asker,
        listing: &listing,
    };
    let found = named_by(alloc, tables, &files, argument);
    drop(listing);
    let paths = found?;
    Ok(paths)
}

/// Adds what an argument gives, after files that were taken.
fn push_argument(
    alloc: Global,
    tables: &Tables,
    caller: &Caller,
    asker: &Asker,
    rows: &mut Sequence<Row>,
    made: &mut Vec<u32>,
    taken: &mut PathSet,
    argument: &FileArgument,
) -> Result<(), AllocError>
    ensures rows { OnOk result ((d : List Deed) → ShownReads caller.now asker.now Submitted (rows_of tables.now) d →
        rows.new ≡ rows.old ++ missing d caller.now argument.now) }
    ensures made { OnOk result ((d : List Deed) → ShownReads caller.now asker.now Submitted (rows_of tables.now) d →
        made.new.items ≡ made.old.items ++
        made_of d caller.now argument.now (not_in taken.old (named false d caller.now (submitted d) argument.now))) }
    ensures taken { OnOk result ((d : List Deed) → ShownReads caller.now asker.now Submitted (rows_of tables.now) d →
        (path : List ℕ) →
        is_in taken.new path ≡ is_in (taken.old ++ named false d caller.now (submitted d) argument.now) path) }
{
    let paths = named_files_of(alloc, tables, caller, asker, argument)?;
    push_missing(alloc, rows, argument, paths.as_slice())?;
    push_files(
        alloc,
        tables,
        caller,
        made,
        taken,
        argument,
        paths.as_slice(),
    )?;
    take(taken, paths)?;
    Ok(())
}

/// Adds the refusals of the arguments that name no file, and gives the numbers of the changes that made the revisions
/// that the others select, each file by the first argument that names it.
pub(crate) fn changes_made(
    alloc: Global,
    tables: &Tables,
    caller: &Caller,
    asker: &Asker,
    rows: &mut Sequence<Row>,
    arguments: &[FileArgument],
) -> Result<Vec<u32>, AllocError>
    ensures rows { OnOk result ((d : List Deed) → ShownReads caller.now asker.now Submitted (rows_of tables.now) d →
        rows.new ≡ rows.old ++ flat_map (missing d caller.now) arguments.now) }
    ensures made { IfOk result (λ made. (d : List Deed) →
        ShownReads caller.now asker.now Submitted (rows_of tables.now) d →
        made.items ≡ made_over d caller.now [] arguments.now) }
{
    let mut made = Vec::new(alloc);
    let mut taken = PathSet::new(alloc);
    let mut rest = arguments;
    while let [argument, later @ ..] = rest {
        push_argument(
            alloc, tables, caller, asker, rows, &mut made, &mut taken, argument,
        )?;
        rest = later;
    }
    Ok(made)
}
