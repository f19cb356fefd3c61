//! The loop over the files that arguments spell.

ghost use Rattle.std.specs.Prelude.{◌≡◌, ◌++◌, ℕ, List, [], true, if◌then◌else◌, IfOk, OnOk};
ghost use Rattle.std.specs.List.{list_all};
ghost use Rattle.depot_rows.specs.table_changes.Changed.{rows_of};
ghost use Rattle.depot_rows.specs.depot_model.Arguments.{each_or, is_in, not_in, over as over_in};
ghost use Rattle.depot_rows.specs.depot_model.Deeds.{Deed};
ghost use Rattle.depot_rows.specs.depot_model.Step.{Step as ModelStep, all_of, both, nothing, tells};
ghost use Rattle.depot_rows.specs.depot_model.WellFormed.{spells_path};
ghost use Rattle.reply_rows.specs.Made.{IsMade};
ghost use Rattle.file_steps.specs.Goes.{Goes};

use crate::acts::FileAct;
use crate::finders::FileFinder;
use crate::paths::PathSet;
use depot_rows::model::FileArgument;
use depot_rows::paths::{DepotPath, Sequence};
use depot_rows::tables::Tables;
use reply_rows::Step;
use std::alloc::{AllocError, Global};

/// Adds files to those that were taken.
fn take(taken: &mut PathSet, paths: Sequence<DepotPath>) -> Result<(), AllocError>
    ensures { OnOk result ((path : List ℕ) → is_in taken.new path ≡ is_in (taken.old ++ paths) path) }
{
    for path in paths.into_vec() {
        taken.insert(path)?;
    }
    Ok(())
}

/// Does what is done with a file that an argument spells, unless it was taken.
fn add_file<A: FileAct>(
    alloc: Global,
    tables: &Tables,
    act: &A,
    step: &mut Step,
    taken: &PathSet,
    argument: &FileArgument,
    path: &DepotPath,
) -> Result<(), AllocError>
    ensures { OnOk result ((d : List Deed) (model : ModelStep) → A.reads act.now (rows_of tables.now) d →
        Goes (A.is_later act.now d) (rows_of tables.now) d d model step.old →
        Goes (A.is_later act.now d) (rows_of tables.now) d d (both model (if is_in taken.now path.now then nothing else A.acts act.now d argument.now path.now)) step.new) }
{
    if taken.contains(path) {
        return Ok(());
    }
    let more = act.act(alloc, tables, argument, path)?;
    step.add(more)?;
    Ok(())
}

/// Does so with files that an argument spells.
fn add_files<A: FileAct>(
    alloc: Global,
    tables: &Tables,
    act: &A,
    step: &mut Step,
    taken: &PathSet,
    argument: &FileArgument,
    paths: &[DepotPath],
) -> Result<(), AllocError>
    ensures { OnOk result ((d : List Deed) (model : ModelStep) → A.reads act.now (rows_of tables.now) d →
        Goes (A.is_later act.now d) (rows_of tables.now) d d model step.old →
        Goes (A.is_later act.now d) (rows_of tables.now) d d (both model (all_of (A.acts act.now d argument.now) (not_in taken.now paths.now))) step.new) }
{
    let mut rest = paths;
    while let [path, after @ ..] = rest {
        add_file(alloc, tables, act, step, taken, argument, path)?;
        rest = after;
    }
    Ok(())
}

/// Does what is done for an argument.
fn add_argument<F: FileFinder, A: FileAct>(
    alloc: Global,
    tables: &Tables,
    finder: &F,
    act: &A,
    step: &mut Step,
    taken: &mut PathSet,
    argument: &FileArgument,
) -> Result<(), AllocError>
    ensures goes { OnOk result ((d : List Deed) (model : ModelStep) → spells_path argument.now ≡ true →
        F.reads finder.now (rows_of tables.now) d → A.reads act.now (rows_of tables.now) d →
        Goes (A.is_later act.now d) (rows_of tables.now) d d model step.old →
        Goes (A.is_later act.now d) (rows_of tables.now) d d (both model (each_or (tells (F.rows_without finder.now argument.now)) (A.acts act.now d argument.now)
        (F.found finder.now d argument.now) (not_in taken.old (F.found finder.now d argument.now)))) step.new) }
    ensures taken { OnOk result ((d : List Deed) → spells_path argument.now ≡ true →
        F.reads finder.now (rows_of tables.now) d → (path : List ℕ) →
        is_in taken.new path ≡ is_in (taken.old ++ F.found finder.now d argument.now) path) }
{
    let paths = finder.find(alloc, tables, argument)?;
    if paths.is_empty() {
        let more = finder.missing(alloc, argument)?;
        step.add(more)?;
        return Ok(());
    }
    add_files(alloc, tables, act, step, taken, argument, paths.as_slice())?;
    take(taken, paths)?;
    Ok(())
}

/// What a command does with the files that its arguments spell, each of them a path: by argument, each file once
/// (Command-Line Reference, "File specifications"). The one error is want of memory.
pub fn over_found<F: FileFinder, A: FileAct>(
    alloc: Global,
    tables: &Tables,
    finder: &F,
    act: &A,
    arguments: &[FileArgument],
) -> Result<Step, AllocError>
    ensures { IfOk result (λ step. (d : List Deed) → list_all spells_path arguments.now ≡ true →
        F.reads finder.now (rows_of tables.now) d → A.reads act.now (rows_of tables.now) d →
        IsMade (rows_of tables.now) d d (over_in (F.found finder.now d) (λ a. tells (F.rows_without finder.now a)) (A.acts act.now d) [] arguments.now) step) }
{
    let mut step = Step::new(alloc);
    let mut taken = PathSet::new(alloc);
    let mut rest = arguments;
    while let [argument, after @ ..] = rest {
        add_argument(alloc, tables, finder, act, &mut step, &mut taken, argument)?;
        rest = after;
    }
    Ok(step)
}
