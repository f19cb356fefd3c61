//! Arguments that name no file.

ghost use Rattle.std.specs.Prelude.{List, IfOk};
ghost use Rattle.depot_rows.specs.table_changes.Changed.{AllRows};
ghost use Rattle.depot_rows.specs.depot_model.Arguments.{no_file as no_file_in};
ghost use Rattle.depot_rows.specs.depot_model.Deeds.{Deed};
ghost use Rattle.depot_rows.specs.depot_model.Steps.Reverting.{not_open as not_open_in};
ghost use Rattle.reply_rows.specs.Made.{IsMade};

use depot_rows::model::FileArgument;
use reply_rows::{Step, no_such_file_row, not_open_row};
use std::alloc::{AllocError, Global};

/// The refusal of an argument that names no file. The one error is want of memory.
pub fn no_file(alloc: Global, argument: &FileArgument) -> Result<Step, AllocError>
    ensures { IfOk result (λ step. (all : AllRows) (d e : List Deed) → IsMade all d e (no_file_in argument.now) step) }
{
    let row = no_such_file_row(alloc, argument.text.as_bytes())?;
    let step = Step::tells(alloc, row)?;
    Ok(step)
}

/// The refusal of an argument that names no opened file. The one error is want of memory.
pub fn not_open(alloc: Global, argument: &FileArgument) -> Result<Step, AllocError>
    ensures { IfOk result (λ step. (all : AllRows) (d e : List Deed) → IsMade all d e (not_open_in argument.now) step) }
{
    let row = not_open_row(alloc, argument.text.as_bytes())?;
    let step = Step::tells(alloc, row)?;
    Ok(step)
}
