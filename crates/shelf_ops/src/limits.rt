//! The limits of the forms that a command saves.

ghost use Rattle.std.specs.Prelude.{◌≡◌, ◌/◌, List, IfOk, map, nat_lt, sum};
ghost use Rattle.depot_rows.specs.table_changes.Changed.{AllRows};
ghost use Rattle.depot_rows.specs.depot_model.Deeds.{Deed as ModelDeed};
ghost use Rattle.depot_rows.specs.depot_model.Step.{Step as ModelStep};
ghost use Rattle.depot_rows.specs.depot_model.Steps.Shelving.{within_forms as within_forms_in};
ghost use Rattle.reply_rows.specs.Made.{IsMade};
ghost use Rattle.shelf_ops.specs.Sizes.{size_by};

use depot_rows::Deed;
use depot_rows::model::Limit;
use reply_rows::{Step, limit_row};
use row_reads::form_value;
use std::alloc::{AllocError, Global};

/// The most forms that a command saves.
const FORMS: usize = 10_000;

/// The most bytes of blocks in the forms that a command saves.
const BYTES: usize = 16_777_216;

/// The bytes of the block in the form that a deed saves.
fn size_of(deed: &Deed) -> usize
    ensures { result ≡ size_by deed.now }
{
    match deed {
        Deed::Spec(_, _, form) => form_value(form, "Content").len() / 2,
        _ => 0,
    }
}

/// Whether the blocks in the forms that deeds save have more bytes than a command may save.
fn are_large(deeds: &[Deed]) -> bool
    ensures { result ≡ nat_lt 16777216 (sum (map size_by deeds.now)) }
{
    let mut left = BYTES;
    let mut rest = deeds;
    while let [deed, later @ ..] = rest {
        let size = size_of(deed);
        if size > left {
            return true;
        }
        left -= size;
        rest = later;
    }
    false
}

/// The step, or where it saves more than 10,000 forms or more than 16,777,216 bytes of blocks, its refusal. The one
/// error is want of memory.
pub(crate) fn within_forms(alloc: Global, step: Step) -> Result<Step, AllocError>
    ensures { IfOk result (λ made. (all : AllRows) (d e : List ModelDeed) (model : ModelStep) →
        IsMade all d e model step → IsMade all d e (within_forms_in model) made) }
{
    let many = step.deeds.as_slice().len() > FORMS;
    if many {
        let row = limit_row(alloc, Limit::Files)?;
        let refused = Step::tells(alloc, row)?;
        return Ok(refused);
    }
    let large = are_large(step.deeds.as_slice());
    if large {
        let row = limit_row(alloc, Limit::Shelf)?;
        let refused = Step::tells(alloc, row)?;
        return Ok(refused);
    }
    Ok(step)
}
