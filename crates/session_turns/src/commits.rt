//! The place of a commit.

ghost use Rattle.std.specs.Prelude.{◌≡◌, ◌<◌, ℕ, List, IfOk, OnErr, OnOk, vec_len, vec_capacity};
ghost use Rattle.depot_rows.specs.depot_model.Deeds.{Deed};
ghost use Rattle.depot_rows.specs.depot_model.Places.{Placed};
ghost use Rattle.depot_rows.specs.depot_model.declared.request.Request.{Request as AnyRequest};
ghost use Rattle.depot_rows.specs.table_changes.Changed.{changed_by, rows_of};
ghost use Rattle.lock_core.specs.Core.{IsReady, Shows};
ghost use Rattle.lock_machine.specs.Machine.{State};
ghost use Rattle.run_parties.specs.command_core.declared.outcome.Outcome.{Outcome as AnyOutcome};
ghost use Rattle.run_parties.specs.serial_depot.Running.{CanTake, HasRun};
ghost use Rattle.session_turns.specs.Drawn.{ended};
ghost use Rattle.session_turns.specs.Taking.{FaultsAreCounted, IsBehind, IsDue, IsPlaced, IsUnplaced, finish_for};

use command_core::Outcome;
use depot_rows::model::{Answer, Place};
use depot_rows::tables::Tables;
use lock_core::{Finish, LockCore};
use outside_api::{Disk, Gate};
use serial_depot::SerialDepot;
use std::alloc::{AllocError, Global};

/// The tables after the commit that a party has at hand, with room behind the order for its place.
fn tables_with_room(
    alloc: Global,
    party: u32,
    core: &LockCore,
    order: &mut Vec<Place>,
) -> Result<Tables, AllocError>
    ensures rows { IfOk result (λ after. (start : List Deed) (s : State) (request : AnyRequest) (outcome : AnyOutcome) →
        IsReady start s core.now party request outcome →
        rows_of after ≡ changed_by (rows_of core.now.tables) outcome.changes) }
    ensures room { OnOk result (vec_len order.new < vec_capacity order.new) }
    ensures same { order.new.items ≡ order.old.items }
{
    order.reserve(1)?;
    core.tables_after(alloc, party)
}

/// Makes the commit that a party has at hand, for whose outcome there may have been no memory: gives its request a
/// place in the depot, and puts the place behind the order. The one error is want of memory, and then it has no place.
pub(crate) fn place_commit<D: Disk, G: Gate>(
    alloc: Global,
    party: u32,
    gate: &G,
    outcome: Result<Outcome, AllocError>,
    core: &LockCore,
    depot: &mut SerialDepot<D>,
    order: &mut Vec<Place>,
) -> Result<Answer, AllocError>
    requires can { CanTake D.says depot.old }
    ensures can { CanTake D.says depot.new }
    ensures placed { (since : ℕ) (start : List Deed) (places : List Placed) (s : State) (request : AnyRequest) →
        HasRun D.says depot.old since start places →
        (due : IsDue start s core.now depot.old party request outcome) →
        IfOk result (IsPlaced D.says since start places request due.found depot.old depot.new) }
    ensures behind { IfOk result (λ answer. IsBehind outcome answer order.old.items order.new.items) }
    ensures unplaced { OnErr result (IsUnplaced D.says depot.old depot.new order.old.items order.new.items) }
    ensures counted { FaultsAreCounted D.says depot.old depot.new order.old.items order.new.items }
{
    let outcome = match outcome {
        Ok(outcome) => outcome,
        Err(error) => return Err(error),
    };
    let Some(request) = core.request(party) else {
        drop(outcome);
        return Err(AllocError);
    };
    let changed = match tables_with_room(alloc, party, core, order) {
        Ok(changed) => changed,
        Err(error) => {
            drop(outcome);
            return Err(error);
        }
    };
    match depot.place_outcome(alloc, gate, request, outcome, Some(changed)) {
        Ok(answer) => {
            order.push(answer.place).unwrap();
            Ok(answer)
        }
        Err(error) => Err(error),
    }
}

/// How the commit of an answer ends.
pub(crate) fn how_of(answer: &Result<Answer, AllocError>) -> Finish
    ensures { result ≡ finish_for answer.now }
{
    match answer {
        Ok(answer) => {
            if answer.place.fault {
                Finish::Fault
            } else {
                Finish::Done
            }
        }
        Err(_) => Finish::NoMemory,
    }
}

/// Has a party whose sink failed take no further command.
pub(crate) fn stop_if(core: &mut LockCore, party: u32, failed: bool)
    ensures tables { core.new.tables ≡ core.old.tables }
    ensures shows { (start : List Deed) (s : State) → Shows start core.old s →
        Shows start core.new (ended s party failed) }
{
    if !failed {
        return;
    }
    core.stop(party);
}
