//! The limit of 10,000 changed files.

ghost use Rattle.std.specs.Prelude.{◌≡◌, ◌≤◌, List, IfOk, IfSome, OnOk, None, insert, length, nat_lt, reverse};
ghost use Rattle.std.specs.Option.{option_copied, option_to_list};
ghost use Rattle.depot_rows.specs.table_changes.Changed.{AllRows};
ghost use Rattle.depot_rows.specs.depot_model.Arguments.{within_files as within_files_in};
ghost use Rattle.depot_rows.specs.depot_model.Deeds.{Deed as ModelDeed};
ghost use Rattle.depot_rows.specs.depot_model.Sorted.{all_inserted, path_inserted};
ghost use Rattle.depot_rows.specs.depot_model.Step.{Step as ModelStep};
ghost use Rattle.reply_rows.specs.Made.{IsMade};
ghost use Rattle.file_steps.specs.Limits.{changed_by, files_changed};

use depot_rows::Deed;
use depot_rows::model::Limit;
use depot_rows::paths::DepotPath;
use reply_rows::{Step, limit_row};
use std::alloc::{AllocError, Global};
use std::cmp::Ordering;

/// The most files that a command changes.
const FILES: usize = 10_000;

/// The file that a deed changes.
fn changed_path(deed: &Deed) -> Option<&DepotPath>
    ensures { option_to_list (option_copied result) ≡ changed_by deed.now }
{
    match deed {
        Deed::Open(opening) => Some(&opening.path),
        Deed::Shut(held) => Some(&held.path),
        Deed::Hold(held) => Some(&held.path),
        Deed::Free(held) => Some(&held.path),
        Deed::Got(held, _) => Some(&held.path),
        Deed::Tag(_, path, _) => Some(path),
        Deed::Owe(owing) => Some(&owing.path),
        Deed::Paid(held, _, _) => Some(&held.path),
        _ => None,
    }
}

/// Where a path goes among paths of which the last is the first in path order, None where it is there. It looks at them
/// from the last on.
fn place_for(paths: &[DepotPath], path: &DepotPath) -> Option<usize>
    ensures within { IfSome result (λ at. at ≤ length paths.now) }
    ensures some { IfSome result (λ at. reverse (insert paths.now at path.now) ≡
        path_inserted path.now (reverse paths.now)) }
    ensures none { result ≡ None → reverse paths.now ≡ path_inserted path.now (reverse paths.now) }
{
    let mut at = paths.len();
    while at > 0 {
        match path.compare(&paths[at - 1]) {
            Ordering::Equal => return None,
            Ordering::Less => return Some(at),
            Ordering::Greater => at -= 1,
        }
    }
    Some(0)
}

/// Puts a path in its place, unless it is there.
fn insert_path(paths: &mut Vec<DepotPath>, path: &DepotPath) -> Result<(), AllocError>
    ensures { OnOk result (reverse paths.new.items ≡ path_inserted path.now (reverse paths.old.items)) }
{
    let Some(at) = place_for(paths, path) else {
        return Ok(());
    };
    let copy = path.clone()?;
    paths.insert(at, copy)?;
    Ok(())
}

/// Adds the file that a deed changes.
fn add_changed(paths: &mut Vec<DepotPath>, deed: &Deed) -> Result<(), AllocError>
    ensures { OnOk result (reverse paths.new.items ≡ all_inserted (changed_by deed.now) (reverse paths.old.items)) }
{
    if let Some(path) = changed_path(deed) {
        insert_path(paths, path)?;
    }
    Ok(())
}

/// Whether deeds change more than 10,000 files. Where they are no more, no file is looked at.
fn change_too_many(alloc: Global, deeds: &[Deed]) -> Result<bool, AllocError>
    ensures { IfOk result (λ many. many ≡ nat_lt 10000 (length (files_changed deeds.now))) }
{
    if deeds.len() <= FILES {
        return Ok(false);
    }
    let mut paths = Vec::new(alloc);
    let mut at = deeds.len();
    while at > 0 {
        at -= 1;
        add_changed(&mut paths, &deeds[at])?;
        if paths.len() > FILES {
            return Ok(true);
        }
    }
    Ok(false)
}

/// The step, or where it changes more than 10,000 files, its refusal. The one error is want of memory.
pub fn within_files(alloc: Global, step: Step) -> Result<Step, AllocError>
    ensures { IfOk result (λ made. (all : AllRows) (d e : List ModelDeed) (model : ModelStep) →
        IsMade all d e model step → IsMade all d e (within_files_in model) made) }
{
    let many = change_too_many(alloc, step.deeds.as_slice())?;
    if many {
        let row = limit_row(alloc, Limit::Files)?;
        let refused = Step::tells(alloc, row)?;
        return Ok(refused);
    }
    Ok(step)
}
