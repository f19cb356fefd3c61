//! What the parties of a run ask.

ghost use Rattle.std.specs.Prelude.{◌≤◌, ◌<◌, ◌^◌, length, map, All, IfOk};
ghost use Rattle.run_parties.specs.Asking.{AreFresh, IsFreshParty};
ghost use Rattle.session_loop.specs.Asking.{commands_of, replica_commands};
ghost use Rattle.session_loop.specs.Requests.{AreRequestsOfAll};

use depot_model::{Request, Session};
use outside_api::Clock;
use replica_turns::ReplicaParty;
use session_loop::{ReplicaScript, session_requests};
use std::alloc::{AllocError, Global};

/// The requests of all sessions, whose parties are numbered from 1.
pub fn all_requests<C: Clock>(
    alloc: Global,
    sessions: Vec<Option<Session>>,
    clock: &C,
) -> Result<Vec<Vec<Request>>, AllocError>
    requires few_parties { length sessions.items < 2 ^ 32 }
    requires few { All (λ session. length (commands_of session) ≤ 67108864) sessions.items }
    ensures { IfOk result (λ requests. AreRequestsOfAll (C.says.may_give clock.now) 1 sessions.items (map (λ own. own.items) requests.items)) }
{
    let mut requests = Vec::new(alloc);
    let mut party = 0;
    for session in sessions {
        party += 1;
        let own = session_requests(alloc, party, session, clock)?;
        requests.push(own)?;
    }
    Ok(requests)
}

/// The replica of a script, if it has the head of one.
fn replica_party<C: Clock>(
    alloc: Global,
    party: u32,
    script: Option<ReplicaScript>,
    clock: &C,
) -> Result<Option<ReplicaParty>, AllocError>
    requires { length (replica_commands script) ≤ 67108864 }
    ensures { IfOk result (IsFreshParty (C.says.may_give clock.now) party script) }
{
    match script {
        None => Ok(None),
        Some(script) => match ReplicaParty::new(alloc, party, script, clock) {
            Ok(replica) => Ok(Some(replica)),
            Err(error) => Err(error),
        },
    }
}

/// The replicas of scripts, whose parties are numbered from 1.
pub fn replica_parties<C: Clock>(
    alloc: Global,
    scripts: Vec<Option<ReplicaScript>>,
    clock: &C,
) -> Result<Vec<Option<ReplicaParty>>, AllocError>
    requires few_parties { length scripts.items < 2 ^ 32 }
    requires few { All (λ script. length (replica_commands script) ≤ 67108864) scripts.items }
    ensures { IfOk result (λ parties. AreFresh (C.says.may_give clock.now) 1 scripts.items parties.items) }
{
    let mut parties = Vec::new(alloc);
    let mut party = 0;
    for script in scripts {
        party += 1;
        let replica = replica_party(alloc, party, script, clock)?;
        parties.push(replica)?;
    }
    Ok(parties)
}
