//! Taking the commands of a session, one after another.

ghost use Rattle.std.specs.Prelude.{◌≡◌, ◌≤◌, ◌<◌, ◌^◌, ◌-◌, ℕ, List, Option, Some, [], length, map, slice_get, true, false, vec_len, vec_capacity, IfOk, OnOk, OnErr};
ghost use Rattle.outside_api.specs.Count.{HasCause, HasRisen};
ghost use Rattle.depot_model.specs.Deeds.{Deed};
ghost use Rattle.depot_model.specs.Places.{Placed};
ghost use Rattle.depot_model.specs.declared.request.Session.{Session};
ghost use Rattle.depot_runs.specs.Run.{placed};
ghost use Rattle.session_loop.specs.Asking.{AreProper, AreWellFormed};
ghost use Rattle.session_loop.specs.Served.{AreCaused, IsTaken, IsAnswered, IsServed, StandWithoutFaults};

use crate::requests::request;
use crate::taker::Taker;
use depot_model::paths::Text;
use depot_model::{Answer, Asked, Caller, Place, Session};
use outside_api::{Clock, Gate, Sink};
use std::alloc::{AllocError, Global};
use wire_text::{GiveFault, give_all, give_memory};

/// How far a session came.
#[derive(Clone, Copy, PartialEq, Eq)]
pub struct SessionRun {
    /// How many of its commands were taken.
    pub commands: u32,
    /// Whether its sink failed in the reply to the last of them.
    pub failed: bool,
}

/// Makes room for a place, so that the value may be used up.
fn with_room<T: Drop>(order: &mut Vec<Place>, value: T) -> Result<T, AllocError>
    ensures value { IfOk result (λ kept. kept ≡ value) }
    ensures room { OnOk result (vec_len order.new < vec_capacity order.new) }
    ensures same { order.new.items ≡ order.old.items }
{
    order.reserve(1)?;
    Ok(value)
}

/// Takes a command: it gets its place, which goes to the end of the order, and its reply. Without
/// memory for all of that nothing is done.
fn take_command<T: Taker, G: Gate>(
    alloc: Global,
    place: Place,
    caller: &Caller,
    asked: Asked,
    gate: &G,
    taker: &mut T,
    order: &mut Vec<Place>,
) -> Result<Text, AllocError>
    requires { T.can_take taker.old }
    ensures can { T.can_take taker.new }
    ensures ok { (since : ℕ) (start : List Deed) (places : List Placed) → T.has_run taker.old since start places →
        AreProper asked.command asked.contents →
        IfOk result (IsTaken (λ moment. moment ≡ place.moment) (T.has_run taker.new since) place.party place.number caller.now asked start places order.old.items order.new.items) }
    ensures nothing { (since : ℕ) (start : List Deed) (places : List Placed) → T.has_run taker.old since start places →
        OnErr result (T.has_run taker.new since start places) }
    ensures same_order { OnErr result (order.new.items ≡ order.old.items) }
    ensures stand { StandWithoutFaults (T.faults taker.old) (T.faults taker.new) (T.content_faults taker.old) (T.content_faults taker.new) order.old.items order.new.items }
    ensures cause { AreCaused (T.faults taker.old) (T.faults taker.new) (T.content_faults taker.old) (T.content_faults taker.new) order.old.items order.new.items }
{
    let request = with_room(order, request(&place, caller, asked)?)?;
    let Answer { place, reply } = taker.take(alloc, gate, request)?;
    order.push(place).unwrap();
    Ok(reply)
}

/// Takes a command and gives its reply.
fn answer<T: Taker, K: Sink, G: Gate>(
    alloc: Global,
    place: Place,
    caller: &Caller,
    asked: Asked,
    gate: &G,
    sink: &mut K,
    taker: &mut T,
    order: &mut Vec<Place>,
) -> Result<(), GiveFault>
    requires { T.can_take taker.old }
    ensures can { T.can_take taker.new }
    ensures answered { (since : ℕ) (start : List Deed) (places : List Placed) → T.has_run taker.old since start places →
        AreProper asked.command asked.contents →
        IsAnswered (λ moment. moment ≡ place.moment) (T.has_run taker.new since) place.party place.number caller.now asked start places order.old.items order.new.items (K.says.given sink.old) (K.says.given sink.new) result }
    ensures stand { StandWithoutFaults (T.faults taker.old) (T.faults taker.new) (T.content_faults taker.old) (T.content_faults taker.new) order.old.items order.new.items }
    ensures places { AreCaused (T.faults taker.old) (T.faults taker.new) (T.content_faults taker.old) (T.content_faults taker.new) order.old.items order.new.items }
    ensures cause { HasCause (K.says.faults sink.old) (K.says.faults sink.new) result }
{
    let number = place.number;
    match take_command(alloc, place, caller, asked, gate, taker, order) {
        Ok(text) => give_all(sink, text.as_bytes()),
        Err(_) => give_memory(sink, number),
    }
}

/// Takes the commands of a session and gives their replies, as long as the sink takes them. A command
/// that finds no memory is answered so, has no place, and the session goes on. So does a command
/// whose commit failed, at a fault place.
pub fn run_session<T: Taker, K: Sink, C: Clock, G: Gate>(
    alloc: Global,
    party: u32,
    session: Session,
    clock: &C,
    gate: &G,
    sink: &mut K,
    taker: &mut T,
    order: &mut Vec<Place>,
) -> SessionRun
    requires can { T.can_take taker.old }
    requires few { length session.commands < 2 ^ 32 }
    requires no_places { order.old.items ≡ [] }
    ensures can { T.can_take taker.new }

    // From each depot from which the taker begins, where the commands are well-formed.
    ensures served { (sessions : List (Option Session)) (since : ℕ) (start : List Deed) →
        slice_get sessions (party - 1) ≡ Some (Some session) → AreWellFormed session.commands →
        T.has_run taker.old since start [] →
        IsServed (C.says.may_give clock.now) sessions start party result.commands result.failed (K.says.given sink.old) (K.says.given sink.new) order.new.items }
    ensures ran { (sessions : List (Option Session)) (since : ℕ) (start : List Deed) →
        slice_get sessions (party - 1) ≡ Some (Some session) → AreWellFormed session.commands →
        T.has_run taker.old since start [] →
        T.has_run taker.new since start (map (placed sessions) order.new.items) }

    ensures all { result.failed ≡ false → result.commands ≡ length session.commands }
    ensures within { result.commands ≤ length session.commands }
    ensures counts { K.says.faults sink.old ≤ K.says.faults sink.new }
    ensures cause { result.failed ≡ true → HasRisen (K.says.faults sink.old) (K.says.faults sink.new) }

    // There are at most as many fault places as the taker's two counts rose, and where there is none the counts stand.
    ensures stand { StandWithoutFaults (T.faults taker.old) (T.faults taker.new) (T.content_faults taker.old) (T.content_faults taker.new) [] order.new.items }
    ensures faults { AreCaused (T.faults taker.old) (T.faults taker.new) (T.content_faults taker.old) (T.content_faults taker.new) [] order.new.items }
{
    let Session { caller, commands } = session;
    let mut count = 0;
    for asked in commands.into_vec() {
        count += 1;
        let place = Place {
            party,
            number: count,
            moment: clock.now(),
            fault: false,
        };
        match answer(alloc, place, &caller, asked, gate, sink, taker, order) {
            Ok(()) => {}
            Err(_) => {
                return SessionRun {
                    commands: count,
                    failed: true,
                };
            }
        }
    }
    SessionRun {
        commands: count,
        failed: false,
    }
}
