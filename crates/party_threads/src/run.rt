//! The run of all parties.

ghost use Rattle.std.specs.Prelude.{◌≡◌, ◌≤◌, ℕ, List, [], None, true, false, length, map, All, IfErr, IfOk};
ghost use Rattle.archive_file.specs.Archive.{disk_of as archive_disk_of};
ghost use Rattle.depot_model.specs.Deeds.{Deed};
ghost use Rattle.depot_runs.specs.Run.{placed};
ghost use Rattle.disk_journal.specs.Stands.{disk_of};
ghost use Rattle.run_parties.specs.Asking.{AreFresh};
ghost use Rattle.run_parties.specs.Replicas.{AreReplicasServed, AreReplicasTold, OneHasRisen};
ghost use Rattle.run_parties.specs.Served.{AreApart, AreEnds, AreServed};
ghost use Rattle.run_parties.specs.depot_commit.Growing.{Chronicle};
ghost use Rattle.run_parties.specs.replica_turns.Master.{CanBeFollowed, IsMaster, Past};
ghost use Rattle.run_parties.specs.serial_depot.Running.{CanTake, HasRun};
ghost use Rattle.session_loop.specs.Asking.{AreWellFormed, commands_of, replica_commands};
ghost use Rattle.session_loop.specs.Requests.{AreRequestsOfAll};
ghost use Rattle.session_loop.specs.Served.{AreCaused, HaveRisenBy, StandWithoutFaults};
ghost use Rattle.party_threads.specs.Words.{AreFreshWords};

use crate::threads::run_named;
use crate::words::RunWords;
use depot_model::{Place, Request, Session};
use outside_api::{Clock, Disk, Gate, Sink};
use replica_turns::ReplicaParty;
use run_parties::{all_requests, replica_parties};
use serial_depot::SerialDepot;
use session_loop::{ReplicaScript, SessionRun};
use std::alloc::{AllocError, Global};
use std::marker::Brand;
use std::sync::Wait;
use std::thread::Threads;

/// What a run leaves.
#[derive(Drop)]
pub struct ThreadsRun<D: Disk, K> {
    /// How far each party came, in the order of the parties.
    pub runs: Vec<SessionRun>,
    /// The sinks of the parties.
    pub sinks: Vec<K>,
    /// The places of the order.
    pub order: Vec<Place>,
    /// Whether a replica was answered that a disk failed. Such an answer leaves no fault in the order.
    pub lost: bool,
    /// The depot, as the places of the order leave it.
    pub depot: SerialDepot<D>,
}

/// What all parties ask, how many places each may have, and the words of their order.
#[derive(Drop)]
pub(crate) struct Brought {
    /// The requests of each party's session.
    pub(crate) requests: Vec<Vec<Request>>,
    /// The replica of each party that is one.
    pub(crate) replicas: Vec<Option<ReplicaParty>>,
    /// How many places each party may have.
    pub(crate) places: Vec<u64>,
    /// The words.
    pub(crate) words: RunWords,
}

/// How many places each party may have: as many as its session has requests, each of which gets at most one. The one
/// error is want of memory.
fn places_for(alloc: Global, requests: &[Vec<Request>]) -> Result<Vec<u64>, AllocError>
    ensures { IfOk result (λ places. places.items ≡ map (λ own. length own.items) requests.now) }
{
    let mut places = Vec::new(alloc);
    for own in requests {
        places.push(own.len() as u64)?;
    }
    Ok(places)
}

/// The requests of sessions and the replicas of scripts, whose parties are numbered from 1, how many places each party
/// may have, and words for as many parties. The one error is want of memory.
fn bring<C: Clock>(
    alloc: Global,
    sessions: Vec<Option<Session>>,
    scripts: Vec<Option<ReplicaScript>>,
    clock: &C,
) -> Result<Brought, AllocError>
    requires few_parties { length sessions.items ≤ 16 }
    requires as_many { length scripts.items ≡ length sessions.items }
    requires few { All (λ session. length (commands_of session) ≤ 67108864) sessions.items }
    requires few_replicas { All (λ script. length (replica_commands script) ≤ 67108864) scripts.items }
    ensures requests { IfOk result (λ brought. AreRequestsOfAll (C.says.may_give clock.now) 1 sessions.items (map (λ own. own.items) brought.requests.items)) }
    ensures replicas { IfOk result (λ brought. AreFresh (C.says.may_give clock.now) 1 scripts.items brought.replicas.items) }
    ensures places { IfOk result (λ brought. brought.places.items ≡
        map (λ own. length own.items) brought.requests.items) }
    ensures words { IfOk result (λ brought. AreFreshWords (length sessions.items) brought.words) }
{
    let parties = sessions.len() as u32;
    let Ok(words) = RunWords::new(alloc, parties) else {
        drop(sessions);
        drop(scripts);
        return Err(AllocError);
    };
    let Ok(replicas) = replica_parties(alloc, scripts, clock) else {
        drop(sessions);
        return Err(AllocError);
    };
    let Ok(requests) = all_requests(alloc, sessions, clock) else {
        drop(replicas);
        return Err(AllocError);
    };
    match places_for(alloc, &requests) {
        Ok(places) => Ok(Brought {
            requests,
            replicas,
            places,
            words,
        }),
        Err(error) => {
            drop(requests);
            drop(replicas);
            Err(error)
        }
    }
}

/// Takes the commands of sessions and has replicas answer theirs, each party on a thread of its own where one can be
/// started, and gives each reply to the sink of its party. Parties are numbered from 1, in the order of both lists, of
/// which each party has a place in either; one whose script has no head is in neither and asks nothing. All requests
/// are made, and room for their places, before the first thread is started; the moment of a session's command is read
/// when it is taken, that of a replica's before. A command of a session whose commit failed has a fault place; one that
/// finds no memory is answered so and has no place. A replica has the rows of the files inside its filter, as far as it
/// has followed the journal of this depot, while sessions commit; its commands have no place. A party whose sink failed
/// takes no further command. Where no thread can be started, the caller's runs the party. The one error is want of
/// memory before the first thread; it gives back the depot, with which nothing was done.
pub fn run_on_threads<
    R: Threads + Wait + Sync,
    D: Disk + Send,
    K: Sink + Send + Drop,
    C: Clock + Sync,
    G: Gate + Sync,
>(
    rt: &R,
    alloc: Global,
    sessions: Vec<Option<Session>>,
    replicas: Vec<Option<ReplicaScript>>,
    clock: &C,
    gate: &G,
    sinks: Vec<K>,
    depot: SerialDepot<D>,
) -> Result<ThreadsRun<D, K>, SerialDepot<D>>
    requires can { CanTake D.says depot }
    requires as_many { length sinks.items ≡ length sessions.items }
    requires as_many_replicas { length replicas.items ≡ length sessions.items }
    requires apart { AreApart sessions.items replicas.items }
    requires few_parties { length sessions.items ≤ 16 }
    requires few { All (λ session. length (commands_of session) ≤ 67108864) sessions.items }
    requires few_replicas { All (λ script. length (replica_commands script) ≤ 67108864) replicas.items }
    ensures can { IfOk result (λ ran. CanTake D.says ran.depot) }
    ensures unrun { IfErr result (λ kept. kept ≡ depot) }

    // From each depot from which the depot in files begins, where the commands are well-formed.
    ensures served { (since : ℕ) (start : List Deed) →
        All (λ session. AreWellFormed (commands_of session)) sessions.items → HasRun D.says depot since start [] →
        IfOk result (λ ran. AreServed (C.says.may_give clock.now) sessions.items replicas.items start ran.runs.items (map K.says.given sinks.items) (map K.says.given ran.sinks.items) ran.order.items) }
    ensures replicas { (since : ℕ) (start : List Deed) →
        All (λ session. AreWellFormed (commands_of session)) sessions.items →
        All (λ script. AreWellFormed (replica_commands script)) replicas.items → HasRun D.says depot since start [] →
        IfOk result (λ ran. AreReplicasServed D.says (C.says.may_give clock.now) sessions.items replicas.items since start ran.order.items (λ party. None) ran.runs.items ran.lost (λ failures. HaveRisenBy failures (D.says.faults (disk_of depot.journal)) (D.says.faults (disk_of ran.depot.journal)) (D.says.faults (archive_disk_of depot.archive)) (D.says.faults (archive_disk_of ran.depot.archive))) (map K.says.given sinks.items) (map K.says.given ran.sinks.items)) }
    // Along a depot that they follow the replies of replicas are, but for those to `pull`, those of the depot after its
    // first changes, as many as the last `pull` told, cut to their filters; and each `pull` that tells a position took
    // of the journal as it was then.
    ensures told { (past : Past) (since : ℕ) (start : List Deed) (c : Chronicle) →
        All (λ session. AreWellFormed (commands_of session)) sessions.items →
        All (λ script. AreWellFormed (replica_commands script)) replicas.items →
        HasRun D.says depot since start [] → IsMaster D.says past start [] depot c →
        IfOk result (λ ran. AreReplicasTold past start sessions.items replicas.items (C.says.may_give clock.now) ran.order.items (λ party. None) ran.runs.items (map K.says.given sinks.items) (map K.says.given ran.sinks.items)) }
    // From a depot that they follow on, the depot at the end is one that they follow after the places.
    ensures master { (past : Past) (since : ℕ) (start : List Deed) (c : Chronicle) →
        All (λ session. AreWellFormed (commands_of session)) sessions.items → HasRun D.says depot since start [] →
        IsMaster D.says past start [] depot c →
        IfOk result (λ ran. CanBeFollowed D.says past start (map (placed sessions.items) ran.order.items) ran.depot) }
    ensures ran { (since : ℕ) (start : List Deed) →
        All (λ session. AreWellFormed (commands_of session)) sessions.items → HasRun D.says depot since start [] →
        IfOk result (λ ran. HasRun D.says ran.depot since start (map (placed sessions.items) ran.order.items)) }

    ensures ends { IfOk result (λ ran. AreEnds K.says sessions.items replicas.items ran.runs.items sinks.items ran.sinks.items) }

    // There are at most as many fault places as the counts of the two disks rose, and a replica was answered that a
    // disk failed only where one of them rose. Where neither is, both stand.
    ensures faults { IfOk result (λ ran. AreCaused (D.says.faults (disk_of depot.journal)) (D.says.faults (disk_of ran.depot.journal)) (D.says.faults (archive_disk_of depot.archive)) (D.says.faults (archive_disk_of ran.depot.archive)) [] ran.order.items) }
    ensures stand { IfOk result (λ ran. ran.lost ≡ false →
        StandWithoutFaults (D.says.faults (disk_of depot.journal)) (D.says.faults (disk_of ran.depot.journal)) (D.says.faults (archive_disk_of depot.archive)) (D.says.faults (archive_disk_of ran.depot.archive)) [] ran.order.items) }
    ensures lost { IfOk result (λ ran. ran.lost ≡ true →
        OneHasRisen (D.says.faults (disk_of depot.journal)) (D.says.faults (disk_of ran.depot.journal)) (D.says.faults (archive_disk_of depot.archive)) (D.says.faults (archive_disk_of ran.depot.archive))) }
{
    match bring(alloc, sessions, replicas, clock) {
        Err(_) => Err(depot),
        Ok(brought) => run_named::<R, D, K, C, G, Brand>(
            rt, alloc, brought, clock, gate, sinks, depot,
        ),
    }
}
