//! The loop over the files that arguments name.

ghost use Rattle.std.specs.Prelude.{◌≡◌, List, [], ◌∷◌, ◌++◌, filter, flat_map, not, if◌then◌else◌, IfOk, OnOk};
ghost use Rattle.std.specs.List.{list_any};
ghost use Rattle.depot_rows.specs.table_changes.Changed.{rows_of};
ghost use Rattle.depot_rows.specs.depot_model.declared.command.FileArgument.{FileArgument as Argument};
ghost use Rattle.depot_rows.specs.depot_model.Arguments.{each_or, everything, not_in, over as over_in, over_all as over_all_in};
ghost use Rattle.depot_rows.specs.depot_model.Deeds.{Deed};
ghost use Rattle.depot_rows.specs.depot_model.Step.{Step as ModelStep, all_of, both, nothing, tells};
ghost use Rattle.reply_rows.specs.Made.{IsMade};
ghost use Rattle.file_steps.specs.Goes.{Goes};

use crate::acts::{FileAct, Placeless, WalkAct};
use crate::sets::FileSet;
use depot_rows::model::FileArgument;
use depot_rows::paths::{DepotPath, FileSpec, Sequence, Text};
use depot_rows::tables::Tables;
use reply_rows::Step;
use std::alloc::{AllocError, Global};

/// Whether one of the arguments names a file.
fn is_taken<S: FileSet>(
    alloc: Global,
    tables: &Tables,
    set: &S,
    earlier: &[FileArgument],
    path: &DepotPath,
) -> Result<bool, AllocError>
    ensures { IfOk result (λ taken. (d : List Deed) → S.reads set.now (rows_of tables.now) d →
        taken ≡ list_any (λ a. S.names set.now d a path.now) earlier.now) }
{
    let mut rest = earlier;
    while let [argument, after @ ..] = rest {
        if set.is_named(alloc, tables, argument, path)? {
            return Ok(true);
        }
        rest = after;
    }
    Ok(false)
}

/// Adds a file, if an argument names it.
fn add_named<S: FileSet>(
    alloc: Global,
    tables: &Tables,
    set: &S,
    argument: &FileArgument,
    paths: &mut Sequence<DepotPath>,
    path: DepotPath,
) -> Result<(), AllocError>
    ensures { OnOk result ((d : List Deed) → S.reads set.now (rows_of tables.now) d → paths.new ≡ paths.old ++ (if S.names set.now d argument.now path then path ∷ [] else [])) }
{
    let named = set.is_named(alloc, tables, argument, &path)?;
    if named {
        paths.push(path)?;
    }
    Ok(())
}

/// Those of some files that an argument names, in their order. The one error is want of memory.
pub fn named_among<S: FileSet>(
    alloc: Global,
    tables: &Tables,
    set: &S,
    argument: &FileArgument,
    candidates: Sequence<DepotPath>,
) -> Result<Sequence<DepotPath>, AllocError>
    ensures { IfOk result (λ paths. (d : List Deed) → S.reads set.now (rows_of tables.now) d →
        paths ≡ filter (S.names set.now d argument.now) candidates) }
{
    let mut paths = Sequence::new(alloc);
    for path in candidates.into_vec() {
        add_named(alloc, tables, set, argument, &mut paths, path)?;
    }
    Ok(paths)
}

/// The files that an argument names, in path order. The one error is want of memory.
pub fn named_by<S: FileSet>(
    alloc: Global,
    tables: &Tables,
    set: &S,
    argument: &FileArgument,
) -> Result<Sequence<DepotPath>, AllocError>
    ensures { IfOk result (λ paths. (d : List Deed) → S.reads set.now (rows_of tables.now) d →
        paths ≡ filter (S.names set.now d argument.now) (S.files set.now d)) }
{
    let candidates = set.candidates(alloc, tables, argument)?;
    let named = named_among(alloc, tables, set, argument, candidates)?;
    Ok(named)
}

/// Does what is done with a file that an argument names, unless an earlier one names it.
fn add_file<'t, S: FileSet, A: WalkAct<'t, S>>(
    alloc: Global,
    tables: &'t Tables,
    set: &S,
    act: &mut A,
    step: &mut Step,
    earlier: &[FileArgument],
    argument: &FileArgument,
    path: &DepotPath,
) -> Result<(), AllocError>
    ensures step { OnOk result ((d : List Deed) (model : ModelStep) → S.reads set.now (rows_of tables.now) d →
        Goes (A.stands act.old set.now argument.now (rows_of tables.now) d) (rows_of tables.now) d d model step.old →
        Goes (A.stands act.new set.now argument.now (rows_of tables.now) d) (rows_of tables.now) d d (both model (if list_any (λ a. S.names set.now d a path.now) earlier.now then nothing else A.acts act.old d argument.now path.now)) step.new) }
    ensures same { OnOk result (A.acts act.new ≡ A.acts act.old) }
{
    let taken = is_taken(alloc, tables, set, earlier, path)?;
    if taken {
        return Ok(());
    }
    let more = act.act(alloc, tables, argument, path)?;
    step.add(more)?;
    Ok(())
}

/// Does so with files that an argument names.
fn add_files<'t, S: FileSet, A: WalkAct<'t, S>>(
    alloc: Global,
    tables: &'t Tables,
    set: &S,
    act: &mut A,
    step: &mut Step,
    earlier: &[FileArgument],
    argument: &FileArgument,
    paths: &[DepotPath],
) -> Result<(), AllocError>
    ensures step { OnOk result ((d : List Deed) (model : ModelStep) → S.reads set.now (rows_of tables.now) d →
        Goes (A.stands act.old set.now argument.now (rows_of tables.now) d) (rows_of tables.now) d d model step.old →
        Goes (A.stands act.new set.now argument.now (rows_of tables.now) d) (rows_of tables.now) d d (both model (all_of (A.acts act.old d argument.now) (filter (λ path. not (list_any (λ a. S.names set.now d a path) earlier.now)) paths.now))) step.new) }
    ensures same { OnOk result (A.acts act.new ≡ A.acts act.old) }
{
    let mut rest = paths;
    while let [path, after @ ..] = rest {
        add_file(alloc, tables, set, act, step, earlier, argument, path)?;
        rest = after;
    }
    Ok(())
}

/// Does what is done for an argument, after earlier ones.
fn add_argument<'t, S: FileSet, A: WalkAct<'t, S>>(
    alloc: Global,
    tables: &'t Tables,
    set: &S,
    act: &mut A,
    step: &mut Step,
    earlier: &[FileArgument],
    argument: &FileArgument,
) -> Result<(), AllocError>
    ensures step { OnOk result ((before : Argument) (d : List Deed) (model : ModelStep) →
        S.reads set.now (rows_of tables.now) d →
        Goes (A.stands act.old set.now before (rows_of tables.now) d) (rows_of tables.now) d d model step.old →
        Goes (A.stands act.new set.now argument.now (rows_of tables.now) d) (rows_of tables.now) d d (both model (each_or (tells (S.rows_without set.now argument.now)) (A.acts act.old d argument.now)
        (filter (S.names set.now d argument.now) (S.files set.now d))
        (not_in (flat_map (λ a. filter (S.names set.now d a) (S.files set.now d)) earlier.now) (filter (S.names set.now d argument.now) (S.files set.now d))))) step.new) }
    ensures same { OnOk result (A.acts act.new ≡ A.acts act.old) }
{
    let paths = act.find(alloc, tables, set, argument)?;
    if paths.is_empty() {
        let more = set.missing(alloc, argument)?;
        step.add(more)?;
        return Ok(());
    }
    add_files(
        alloc,
        tables,
        set,
        act,
        step,
        earlier,
        argument,
        paths.as_slice(),
    )?;
    Ok(())
}

/// What a command does with the files that its arguments name, where it goes on from file to file: by argument, and
/// then by path, each file once. The one error is want of memory.
pub fn walk_over<'t, S: FileSet, A: WalkAct<'t, S>>(
    alloc: Global,
    tables: &'t Tables,
    set: &S,
    act: &mut A,
    arguments: &[FileArgument],
) -> Result<Step, AllocError>
    ensures { IfOk result (λ step. (before : Argument) (d : List Deed) → S.reads set.now (rows_of tables.now) d →
        A.stands act.old set.now before (rows_of tables.now) d d →
        IsMade (rows_of tables.now) d d (over_in (λ a. filter (S.names set.now d a) (S.files set.now d)) (λ a. tells (S.rows_without set.now a)) (A.acts act.old d) [] arguments.now) step) }
{
    let mut step = Step::new(alloc);
    for i in 0..arguments.len() {
        let earlier = &arguments[..i];
        let argument = &arguments[i];
        add_argument(alloc, tables, set, act, &mut step, earlier, argument)?;
    }
    Ok(step)
}

/// What a command does with the files that its arguments name: by argument, and then by path, each file once
/// (Command-Line Reference, "File specifications"). The one error is want of memory.
pub fn over<S: FileSet, A: FileAct>(
    alloc: Global,
    tables: &Tables,
    set: &S,
    act: &A,
    arguments: &[FileArgument],
) -> Result<Step, AllocError>
    ensures { IfOk result (λ step. (d : List Deed) → S.reads set.now (rows_of tables.now) d →
        A.reads act.now (rows_of tables.now) d →
        IsMade (rows_of tables.now) d d (over_in (λ a. filter (S.names set.now d a) (S.files set.now d)) (λ a. tells (S.rows_without set.now a)) (A.acts act.now d) [] arguments.now) step) }
{
    let mut placeless = Placeless { act };
    let step = walk_over(alloc, tables, set, &mut placeless, arguments)?;
    Ok(step)
}

/// The argument `//...`.
fn whole(alloc: Global) -> Result<FileArgument, AllocError>
    ensures { IfOk result (λ argument. argument ≡ everything) }
{
    match FileSpec::read(alloc, b"//...") {
        Ok(spec) => Ok(FileArgument {
            text: Text::from_bytes(alloc, b"//...")?,
            spec,
        }),
        Err(_) => Err(AllocError),
    }
}

/// What it does with all files, where it is given no argument.
fn walk_over_everything<'t, S: FileSet, A: WalkAct<'t, S>>(
    alloc: Global,
    tables: &'t Tables,
    set: &S,
    act: &mut A,
) -> Result<Step, AllocError>
    ensures { IfOk result (λ step. (before : Argument) (d : List Deed) → S.reads set.now (rows_of tables.now) d →
        A.stands act.old set.now before (rows_of tables.now) d d →
        IsMade (rows_of tables.now) d d (over_in (λ a. filter (S.names set.now d a) (S.files set.now d)) (λ _. nothing) (A.acts act.old d) [] (everything ∷ [])) step) }
{
    let mut step = Step::new(alloc);
    let argument = whole(alloc)?;
    let paths = act.find(alloc, tables, set, &argument)?;
    add_files(
        alloc,
        tables,
        set,
        act,
        &mut step,
        &[],
        &argument,
        paths.as_slice(),
    )?;
    Ok(step)
}

/// What a command does with the files that its arguments name, where it goes on from file to file: by argument, and
/// then by path, each file once. Without arguments these are `//...`, and no row is given where there is no file. The
/// one error is want of memory.
pub fn walk_over_all<'t, S: FileSet, A: WalkAct<'t, S>>(
    alloc: Global,
    tables: &'t Tables,
    set: &S,
    act: &mut A,
    arguments: &[FileArgument],
) -> Result<Step, AllocError>
    ensures { IfOk result (λ step. (before : Argument) (d : List Deed) → S.reads set.now (rows_of tables.now) d →
        A.stands act.old set.now before (rows_of tables.now) d d →
        IsMade (rows_of tables.now) d d (over_all_in (λ a. filter (S.names set.now d a) (S.files set.now d)) (λ a. tells (S.rows_without set.now a)) (A.acts act.old d) arguments.now) step) }
{
    if arguments.is_empty() {
        walk_over_everything(alloc, tables, set, act)
    } else {
        walk_over(alloc, tables, set, act, arguments)
    }
}

/// The same for what keeps no place: without arguments these are `//...`, and no row is given where there is no file.
pub fn over_all<S: FileSet, A: FileAct>(
    alloc: Global,
    tables: &Tables,
    set: &S,
    act: &A,
    arguments: &[FileArgument],
) -> Result<Step, AllocError>
    ensures { IfOk result (λ step. (d : List Deed) → S.reads set.now (rows_of tables.now) d →
        A.reads act.now (rows_of tables.now) d →
        IsMade (rows_of tables.now) d d (over_all_in (λ a. filter (S.names set.now d a) (S.files set.now d)) (λ a. tells (S.rows_without set.now a)) (A.acts act.now d) arguments.now) step) }
{
    let mut placeless = Placeless { act };
    let step = walk_over_all(alloc, tables, set, &mut placeless, arguments)?;
    Ok(step)
}
