//! The session of one party, on a thread of its own.

ghost use Rattle.std.specs.Prelude.{◌≡◌, ◌≤◌, ◌<◌, ℕ, List, [], length, false, true};
ghost use Rattle.std.specs.List.{AllByRecursion};
ghost use Rattle.depot_model.specs.Deeds.{Deed};
ghost use Rattle.outside_api.specs.Count.{HasRisen};
ghost use Rattle.party_threads.specs.Entries.{AreNumbered, HasTaken, IsAnswered};
ghost use Rattle.run_parties.specs.Served.{IsEnd};
ghost use Rattle.session_loop.specs.Taking.{IsProper};

use depot_model::{Answer, Request};
use locked_tables::PartyPass;
use outside_api::{Clock, Disk, Gate, Sink};
use run_parties::give;
use session_loop::SessionRun;
use shared_depot::{Serving, SharedDepot};
use std::alloc::{AllocError, Global};
use std::sync::Wait;

/// Has a command of a party taken at the moment that the clock gives now, and gives its reply to the
/// party's sink. Answers whether the sink has failed.
fn take_command<R: Wait, D: Disk, K: Sink, C: Clock, G: Gate, N: Serving>(
    rt: &R,
    alloc: Global,
    depot: &SharedDepot<D, N>,
    clock: &C,
    gate: &G,
    pass: &mut PartyPass<N>,
    sink: &mut K,
    mut request: Request,
) -> bool
    requires party { request.party ≡ pass.old.party }
    requires proper { (since : ℕ) (start : List Deed) → N.begins since start → IsProper request }
    ensures answered { IsAnswered (C.says.may_give clock.now) N.begins pass.old pass.new request (K.says.given sink.old)
        (K.says.given sink.new) result }
    ensures counts { K.says.faults sink.old ≤ K.says.faults sink.new }
    ensures cause { result ≡ true → HasRisen (K.says.faults sink.old) (K.says.faults sink.new) }
{
    let number = request.number;
    request.moment = clock.now();
    match depot.take(rt, alloc, gate, pass, request) {
        Ok(Answer { place: _, reply }) => give(sink, Ok(reply), number),
        Err(_) => give(sink, Err(AllocError), number),
    }
}

/// Has the commands of a party taken, one after another, each at the moment that the clock gives then,
/// as long as its sink takes the replies. A command that finds no memory is answered so, has no place,
/// and the party goes on.
pub(crate) fn take_commands<R: Wait, D: Disk, K: Sink, C: Clock, G: Gate, N: Serving>(
    rt: &R,
    alloc: Global,
    depot: &SharedDepot<D, N>,
    clock: &C,
    gate: &G,
    pass: &mut PartyPass<N>,
    sink: &mut K,
    requests: Vec<Request>,
) -> SessionRun
    requires fresh { pass.old.list ≡ [] }
    requires few { length requests.items ≤ 67108864 }
    requires numbered { AreNumbered pass.old.party requests.items }
    requires proper { (since : ℕ) (start : List Deed) → N.begins since start → AllByRecursion IsProper requests.items }
    ensures party { pass.new.party ≡ pass.old.party }
    ensures taken { HasTaken (C.says.may_give clock.now) N.begins pass.old.party requests.items result
        (K.says.given sink.old) (K.says.given sink.new) pass.new.list }
    ensures end { IsEnd K.says (length requests.items) result sink.old sink.new }
{
    let mut commands = 0;
    for request in requests {
        commands += 1;
        if take_command(rt, alloc, depot, clock, gate, pass, sink, request) {
            return SessionRun {
                commands,
                failed: true,
            };
        }
    }
    SessionRun {
        commands,
        failed: false,
    }
}
