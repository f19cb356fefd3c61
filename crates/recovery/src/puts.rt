//! The puts of a checkpoint, one after another.

ghost use Rattle.std.specs.Prelude.{◌≡◌, ◌↔◌, [], ◌∷◌, ◌++◌, List, IfOk, IsTrue, IsFalse, OnOk};
ghost use Rattle.depot_rows.specs.db_records.declared.change.Change.{Change};
ghost use Rattle.depot_rows.specs.table_changes.Changed.{changed_by, no_rows};
ghost use Rattle.depot_rows.specs.table_changes.Drafts.{rows_of_draft};
ghost use Rattle.recovery.specs.Holding.{ArePuts};
ghost use Rattle.recovery.specs.Reading.{HasPut, IsLastOf};

use depot_rows::changes::TablesDraft;
use depot_rows::records::{Change, Op};
use std::alloc::{AllocError, Global};

/// Whether a change puts a row above the last one that was put.
fn follows(last: &Option<Change>, change: &Change) -> bool
    ensures { (puts : List Change) → ArePuts puts → IsLastOf puts last.now →
        IsTrue result ↔ ArePuts (puts ++ change.now ∷ []) }
{
    if change.op != Op::Put {
        return false;
    }
    match last {
        Some(last) => last.row.compare(&change.row).is_lt(),
        None => true,
    }
}

/// Makes the put that waits in a draft, if there is one.
pub(crate) fn put_waiting(
    alloc: Global,
    draft: &mut TablesDraft,
    waiting: Option<Change>,
) -> Result<(), AllocError>
    requires { (puts : List Change) × HasPut puts waiting (rows_of_draft draft.old) }
    ensures { (puts : List Change) → HasPut puts waiting (rows_of_draft draft.old) →
        OnOk result (rows_of_draft draft.new ≡ changed_by no_rows puts) }
{
    match waiting {
        Some(change) => draft.take(alloc, change),
        None => Ok(()),
    }
}

/// Has a change wait to be made in a draft, where it puts a row above the one of the put that waited, which it makes.
/// Tells whether it does. The one error is want of memory, after which nothing is said of the draft.
pub(crate) fn put_above(
    alloc: Global,
    draft: &mut TablesDraft,
    last: &mut Option<Change>,
    change: Change,
) -> Result<bool, AllocError>
    requires { (puts : List Change) × HasPut puts last.old (rows_of_draft draft.old) }
    ensures above { (puts : List Change) → HasPut puts last.old (rows_of_draft draft.old) →
        IfOk result (λ above. IsTrue above → HasPut (puts ++ change ∷ []) last.new (rows_of_draft draft.new)) }
    ensures none { (puts : List Change) → HasPut puts last.old (rows_of_draft draft.old) →
        IfOk result (λ above. IsFalse above → ArePuts (puts ++ change ∷ []) → ⊥) }
{
    if !follows(last, &change) {
        drop(change);
        return Ok(false);
    }
    put_waiting(alloc, draft, last.replace(change))?;
    Ok(true)
}
