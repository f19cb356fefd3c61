//! The requests that sessions make of their commands.

ghost use Rattle.std.specs.Prelude.{◌≡◌, ◌<◌, ◌^◌, length, IfOk};
ghost use Rattle.depot_runs.specs.Run.{request_of};
ghost use Rattle.session_loop.specs.Asking.{commands_of};
ghost use Rattle.session_loop.specs.Requests.{AreRequests, AreRequestsOf, IsRequest};

use depot_model::{Asked, Caller, Place, Request, Session};
use outside_api::Clock;
use std::alloc::{AllocError, Global};

/// The request of a place, by a caller of its own.
fn request_by(place: &Place, caller: Caller, asked: Asked) -> Request
    ensures { result ≡ request_of place.now caller asked }
{
    let Asked {
        command,
        input,
        contents,
    } = asked;
    Request {
        caller,
        party: place.party,
        number: place.number,
        moment: place.moment,
        command,
        input,
        contents,
    }
}

/// The request of a place.
pub(crate) fn request(place: &Place, caller: &Caller, asked: Asked) -> Result<Request, AllocError>
    ensures { IfOk result (λ request. request ≡ request_of place.now caller.now asked) }
{
    match caller.copy() {
        Ok(caller) => Ok(request_by(place, caller, asked)),
        Err(error) => {
            drop(asked);
            Err(error)
        }
    }
}

/// The request of a command, with the moment that the clock gives now.
fn request_now<C: Clock>(
    party: u32,
    number: u32,
    caller: &Caller,
    asked: Asked,
    clock: &C,
) -> Result<Request, AllocError>
    ensures { IfOk result (IsRequest (C.says.may_give clock.now) party number caller.now asked) }
{
    let place = Place {
        party,
        number,
        moment: clock.now(),
        fault: false,
    };
    let request = request(&place, caller, asked)?;
    Ok(request)
}

/// The requests of the commands of a session, or of a replica's script, in order and numbered from 1, each with the
/// moment that the clock gives then. The one error is want of memory.
pub fn requests_of<C: Clock>(
    alloc: Global,
    party: u32,
    session: Session,
    clock: &C,
) -> Result<Vec<Request>, AllocError>
    requires { length session.commands < 2 ^ 32 }
    ensures { IfOk result (λ requests. AreRequests (C.says.may_give clock.now) party 1 session.caller session.commands requests.items) }
{
    let Session { caller, commands } = session;
    let mut requests = Vec::new(alloc);
    let mut number = 0;
    for asked in commands.into_vec() {
        number += 1;
        let request = request_now(party, number, &caller, asked, clock)?;
        requests.push(request)?;
    }
    Ok(requests)
}

/// The requests of the commands of a session, in order and numbered from 1, each with the moment that the clock gives
/// then. A script without a head makes none. The one error is want of memory.
pub fn session_requests<C: Clock>(
    alloc: Global,
    party: u32,
    session: Option<Session>,
    clock: &C,
) -> Result<Vec<Request>, AllocError>
    requires { length (commands_of session) < 2 ^ 32 }
    ensures { IfOk result (λ requests. AreRequestsOf (C.says.may_give clock.now) party session requests.items) }
{
    match session {
        Some(session) => requests_of(alloc, party, session, clock),
        None => Ok(Vec::new(alloc)),
    }
}
