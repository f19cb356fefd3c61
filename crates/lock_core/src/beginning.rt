//! The parties before their first turns.

ghost use Rattle.std.specs.Prelude.{◌≡◌, IfOk, IsTrue, List};
ghost use Rattle.depot_rows.specs.table_changes.Changed.{rows_of};
ghost use Rattle.depot_rows.specs.depot_model.Deeds.{Deed};
ghost use Rattle.depot_rows.specs.Standing.{Stand};
ghost use Rattle.sound_requests.specs.Asked.{is_typed};
ghost use Rattle.lock_machine.specs.Machine.{Commit};
ghost use Rattle.lock_machine.specs.Runs.{beginning, idle};
ghost use Rattle.lock_core.specs.Core.{AllProperIn, Shows, all_items};
ghost use Rattle.lock_core.specs.Parties.{AreTyped, IsFresh, IsShown};

use crate::machine::LockCore;
use crate::party::Party;
use crate::work::Work;
use command_needs::request_needs;
use depot_rows::model::Request;
use depot_rows::tables::Tables;
use lock_machine::Stage;
use sound_requests::requests_are_typed;
use std::alloc::{AllocError, Global};

/// A command that isn't begun.
fn fresh_work(request: Request) -> Work
    ensures fresh { IsFresh result }
    ensures request { result.request ≡ request }
    ensures typed { IsTrue (is_typed request) }
{
    requests_are_typed(&request);
    let needs = request_needs(&request);
    Work {
        request,
        needs,
        done: 0,
        stage: Stage::Gathering,
        second: false,
        stale: false,
        room: None,
    }
}

/// A party with these requests.
fn idle_party(alloc: Global, requests: Vec<Request>) -> Result<Party, AllocError>
    ensures shown { IfOk result (λ party. (order : List Commit) → IsShown order party (idle requests.items)) }
    ensures typed { IfOk result (λ party. AreTyped requests.items) }
{
    let mut left = Vec::new(alloc);
    for request in requests {
        left.push(fresh_work(request))?;
    }
    left.reverse();
    Ok(Party { left, work: None })
}

impl LockCore {
    /// The parties that ask these requests, each in its order, over these tables; none has begun. The one error is want
    /// of memory.
    pub fn new(
        alloc: Global,
        tables: Tables,
        requests: Vec<Vec<Request>>,
    ) -> Result<LockCore, AllocError>
        ensures tables { IfOk result (λ core. core.tables ≡ tables) }
        ensures shows { IfOk result (λ core. (start : List Deed) → Stand (rows_of tables) start →
            AllProperIn (all_items requests.items) →
            Shows start core (beginning (all_items requests.items))) }
    {
        let mut parties = Vec::new(alloc);
        for party in requests {
            parties.push(idle_party(alloc, party)?)?;
        }
        Ok(LockCore { tables, parties })
    }
}
