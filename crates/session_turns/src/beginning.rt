//! What a run begins with.

ghost use Rattle.std.specs.Prelude.{◌≡◌, ◌≤◌, ◌<◌, ◌^◌, length, map, All, IfOk};
ghost use Rattle.run_parties.specs.Asking.{fresh};
ghost use Rattle.run_parties.specs.Served.{total_of};
ghost use Rattle.session_loop.specs.Asking.{commands_of, replica_commands};
ghost use Rattle.session_turns.specs.Beginning.{HasBegun};
ghost use Rattle.session_turns.specs.Running.{AreTotals};

use crate::replicas::Replicas;
use depot_rows::model::Session;
use depot_rows::tables::Tables;
use lock_core::{LockCore, share_tables};
use outside_api::Clock;
use run_parties::all_requests;
use session_loop::{ReplicaScript, SessionRun};
use std::alloc::{AllocError, Global};

/// How many commands a party has.
fn total_of(session: &Option<Session>, script: &Option<ReplicaScript>) -> u32
    requires few { length (commands_of session.now) ≤ 67108864 }
    requires few_replicas { length (replica_commands script.now) ≤ 67108864 }
    ensures { result ≡ total_of session.now script.now }
{
    let commands = match script {
        Some(script) => script.session.commands.len(),
        None => match session {
            Some(session) => session.commands.len(),
            None => 0,
        },
    };
    u32::try_from(commands).unwrap_or(u32::MAX)
}

/// How many commands each party has.
fn totals_of(
    alloc: Global,
    sessions: &[Option<Session>],
    scripts: &[Option<ReplicaScript>],
) -> Result<Vec<u32>, AllocError>
    requires as_many { length scripts.now ≡ length sessions.now }
    requires few { All (λ session. length (commands_of session) ≤ 67108864) sessions.now }
    requires few_replicas { All (λ script. length (replica_commands script) ≤ 67108864) scripts.now }
    ensures count { IfOk result (λ totals. length totals.items ≡ length sessions.now) }
    ensures each { IfOk result (λ totals. AreTotals sessions.now scripts.now totals.items) }
{
    let mut totals = Vec::new(alloc);
    for at in 0..sessions.len() {
        totals.push(total_of(&sessions[at], &scripts[at]))?;
    }
    Ok(totals)
}

/// The runs of parties of which no command is taken yet.
fn fresh_runs(alloc: Global, totals: &[u32]) -> Result<Vec<SessionRun>, AllocError>
    ensures { IfOk result (λ runs. runs.items ≡ map (λ total. fresh) totals.now) }
{
    let mut runs = Vec::new(alloc);
    for _total in totals {
        runs.push(SessionRun {
            commands: 0,
            failed: false,
        })?;
    }
    Ok(runs)
}

/// All that a run has in memory before its first turn.
#[derive(Drop)]
pub(crate) struct Beginning {
    pub(crate) core: LockCore,
    pub(crate) replicas: Replicas,
    pub(crate) totals: Vec<u32>,
    pub(crate) runs: Vec<SessionRun>,
}

impl Beginning {
    /// The beginning of sessions and replicas over the tables of a depot. The one error is want of memory.
    pub(crate) fn new<C: Clock>(
        alloc: Global,
        sessions: Vec<Option<Session>>,
        scripts: Vec<Option<ReplicaScript>>,
        clock: &C,
        tables: &Tables,
    ) -> Result<Beginning, AllocError>
        requires as_many { length scripts.items ≡ length sessions.items }
        requires few_parties { length sessions.items < 2 ^ 32 }
        requires few { All (λ session. length (commands_of session) ≤ 67108864) sessions.items }
        requires few_replicas { All (λ script. length (replica_commands script) ≤ 67108864) scripts.items }
        ensures { IfOk result (HasBegun (C.says.may_give clock.now) sessions.items scripts.items tables.now) }
    {
        let totals = totals_of(alloc, &sessions, &scripts)?;
        let runs = fresh_runs(alloc, &totals)?;
        let replicas = Replicas::new(alloc, scripts, clock)?;
        let requests = all_requests(alloc, sessions, clock)?;
        let tables = share_tables(alloc, tables)?;
        let core = LockCore::new(alloc, tables, requests)?;
        Ok(Beginning {
            core,
            replicas,
            totals,
            runs,
        })
    }
}
