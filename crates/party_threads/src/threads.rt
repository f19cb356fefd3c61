//! All parties, each on a thread of its own.

ghost use Rattle.std.specs.Prelude.{◌≡◌, ◌≤◌, ◌<◌, ◌+◌, ◌++◌, ◌∷◌, ◌||◌, ◌↔◌, ℕ, List, [], false, length, map, vec_len, vec_capacity, All, IfErr, IfOk};
ghost use Rattle.archive_file.specs.Archive.{disk_of as archive_disk_of};
ghost use Rattle.depot_model.specs.db_records.declared.table.TableId.{TableId};
ghost use Rattle.depot_model.specs.Deeds.{Deed};
ghost use Rattle.disk_journal.specs.Stands.{disk_of};
ghost use Rattle.outside_api.specs.Disk.{Files};
ghost use Rattle.order_words.specs.Seats.{lane_count};
ghost use Rattle.party_marks.specs.Marks.{marks_of};
ghost use Rattle.party_threads.specs.Parties.{AreAsked, AreCollected, HasRunParty, HaveRun, HaveRunAll, IsHeard, IsReady, is_marked};
ghost use Rattle.party_threads.specs.Rooms.{IsRoom};
ghost use Rattle.party_threads.specs.Words.{AreFreshWords};
ghost use Rattle.run_parties.specs.Asking.{left_in};
ghost use Rattle.run_parties.specs.depot_commit.Growing.{Chronicle};
ghost use Rattle.run_parties.specs.replica_turns.Master.{IsMaster, Past};
ghost use Rattle.run_parties.specs.serial_depot.Running.{CanTake, HasRun};
ghost use Rattle.shared_depot.specs.Sharing.{fresh_marks, fresh_passes, places_in};
ghost use Rattle.table_changes.specs.Changed.{rows_of};

use crate::party::{ThreadParty, put_parties};
use crate::run::{Brought, ThreadsRun};
use crate::words::RunWords;
use depot_model::Request;
use outside_api::{Clock, Disk, Gate, Sink};
use replica_turns::ReplicaParty;
use serial_depot::SerialDepot;
use session_loop::SessionRun;
use shared_depot::{Closed, OpenedDepot, Serving, Shared, SharedDepot};
use std::alloc::{AllocError, Global};
use std::sync::Wait;
use std::thread::{Threads, for_each_mut};

/// Runs each party on a thread of its own where one can be started.
fn run_parties<
    R: Threads + Wait + Sync,
    D: Disk + Send,
    K: Sink + Send + Drop,
    C: Clock + Sync,
    G: Gate + Sync,
    N: Serving + Send + Sync,
>(
    rt: &R,
    alloc: Global,
    depot: &SharedDepot<D, N>,
    clock: &C,
    gate: &G,
    parties: &mut [ThreadParty<K, N>],
)
    requires { All (IsReady N.begins) parties.old }
    ensures run { HaveRun D.says N.end N.images
        (C.says.may_give clock.now) K.says N.begins N.masters parties.old parties.new }
    ensures count { length parties.new ≡ length parties.old }
{
    let threads = parties.len().max(1);
    for_each_mut(
        rt,
        parties,
        threads,
        &|_, party: &mut ThreadParty<K, N>|
            requires { IsReady N.begins party.now }
            ensures { HasRunParty D.says N.end N.images
                (C.says.may_give clock.entry.now) K.says N.begins N.masters party.entry.now party.exit.now }
        { party.run(rt, alloc, depot, clock, gate) },
    );
}

/// Hears what a party knows, and puts what it leaves behind what others left. Answers whether it was told that a disk
/// failed. It takes no memory.
fn hear_party<D: Disk, K: Sink + Drop, N: Serving>(
    depot: &mut OpenedDepot<D, N>,
    party: ThreadParty<K, N>,
    runs: &mut Vec<SessionRun>,
    sinks: &mut Vec<K>,
) -> bool
    requires room { vec_len runs.old < vec_capacity runs.old }
    requires room_for_sinks { vec_len sinks.old < vec_capacity sinks.old }
    ensures same { depot.new ≡ depot.old }
    ensures heard { IsHeard depot.old.order party.pass }
    ensures runs { runs.new.items ≡ runs.old.items ++ party.run ∷ [] }
    ensures runs_len { vec_len runs.new ≡ vec_len runs.old + 1 }
    ensures runs_room { vec_capacity runs.old ≤ vec_capacity runs.new }
    ensures sinks { sinks.new.items ≡ sinks.old.items ++ party.sink ∷ [] }
    ensures sinks_len { vec_len sinks.new ≡ vec_len sinks.old + 1 }
    ensures sinks_room { vec_capacity sinks.old ≤ vec_capacity sinks.new }
    ensures told { result ≡ is_marked party }
    ensures marked { marks_of party.marks.party depot.old.marks ≡ marks_of party.marks.party party.marks.list }
{
    let ThreadParty {
        requests,
        replica,
        mut pass,
        mut marks,
        sink,
        run,
    } = party;
    drop(requests);
    drop(replica);
    let told = marks.has_marks();
    depot.hear(&mut pass, &mut marks);
    runs.push(run).unwrap();
    sinks.push(sink).unwrap();
    told
}

/// Whether one of two tests holds.
fn either(first: bool, second: bool) -> bool
    ensures { result ≡ (first || second) }
{
    first || second
}

/// Hears what each party knows, and puts together what the parties leave. Answers whether one was told that a disk
/// failed. It takes no memory.
fn collect<D: Disk, K: Sink + Drop, N: Serving>(
    depot: &mut OpenedDepot<D, N>,
    parties: Vec<ThreadParty<K, N>>,
    runs: &mut Vec<SessionRun>,
    sinks: &mut Vec<K>,
) -> bool
    requires no_runs { runs.old.items ≡ [] }
    requires no_sinks { sinks.old.items ≡ [] }
    requires room { length parties.items ≤ vec_capacity runs.old }
    requires room_for_sinks { length parties.items ≤ vec_capacity sinks.old }
    ensures same { depot.new ≡ depot.old }
    ensures collected { AreCollected depot.old parties.items runs.new.items sinks.new.items result }
{
    let mut lost = false;
    for party in parties {
        let told = hear_party(depot, party, runs, sinks);
        lost = either(lost, told);
    }
    lost
}

/// Room for the parties, and for what they leave.
#[derive(Drop)]
struct Room<K: Sink, N: Serving> {
    parties: Vec<ThreadParty<K, N>>,
    runs: Vec<SessionRun>,
    sinks: Vec<K>,
}

impl<K: Sink + Drop, N: Serving> Room<K, N> {
    /// Room for so many parties. The one error is want of memory.
    fn new(alloc: Global, parties: usize) -> Result<Room<K, N>, AllocError>
        ensures { IfOk result (IsRoom parties) }
    {
        Ok(Room {
            parties: Vec::with_capacity(alloc, parties)?,
            runs: Vec::with_capacity(alloc, parties)?,
            sinks: Vec::with_capacity(alloc, parties)?,
        })
    }
}

/// Runs parties over a shared depot, which it closes behind the last of them.
fn run_and_close<
    R: Threads + Wait + Sync,
    D: Disk + Send,
    K: Sink + Send + Drop,
    C: Clock + Sync,
    G: Gate + Sync,
    N: Serving + Send + Sync,
>(
    rt: &R,
    alloc: Global,
    shared: Shared<D, N>,
    requests: Vec<Vec<Request>>,
    replicas: Vec<Option<ReplicaParty>>,
    clock: &C,
    gate: &G,
    sinks: Vec<K>,
    room: Room<K, N>,
) -> ThreadsRun<D, K>
    requires passes { shared.passes.items ≡ fresh_passes (length requests.items) }
    requires marks { shared.marks.items ≡ fresh_marks (length requests.items) }
    requires lanes { lane_count N.run ≡ 13 + length requests.items }
    requires mark_lanes { lane_count N.marks ≡ 1 + length requests.items }
    requires content_lanes { lane_count N.content_marks ≡ 1 + length requests.items }
    requires as_many { length sinks.items ≡ length requests.items }
    requires as_many_replicas { length replicas.items ≡ length requests.items }
    requires asked { AreAsked N.begins (map (λ own. own.items) requests.items) }
    requires few { All (λ replica. length (left_in replica) ≤ 67108864) replicas.items }
    requires room { IsRoom (length requests.items) room }
    ensures { HaveRunAll D.says N.end N.images
        (C.says.may_give clock.now) K.says N.begins N.masters N.faults N.content_faults
        (map (λ own. own.items) requests.items) replicas.items sinks.items result }
{
    let Room {
        mut parties,
        mut runs,
        sinks: mut left,
    } = room;
    let Shared {
        depot,
        passes,
        marks,
    } = shared;
    put_parties(requests, replicas, passes, marks, sinks, &mut parties);
    run_parties(rt, alloc, &depot, clock, gate, &mut parties);
    let mut opened = depot.open();
    let lost = collect(&mut opened, parties, &mut runs, &mut left);
    let Closed { depot, order } = opened.close();
    ThreadsRun {
        runs,
        sinks: left,
        order,
        lost,
        depot,
    }
}

/// Runs all parties, numbered from 1, over a depot. The one error is want of memory before the first thread; it gives
/// back the depot, with which nothing was done.
pub(crate) fn run_named<
    R: Threads + Wait + Sync,
    D: Disk + Send,
    K: Sink + Send + Drop,
    C: Clock + Sync,
    G: Gate + Sync,
    N: Serving + Send + Sync,
>(
    rt: &R,
    alloc: Global,
    brought: Brought,
    clock: &C,
    gate: &G,
    sinks: Vec<K>,
    depot: SerialDepot<D>,
) -> Result<ThreadsRun<D, K>, SerialDepot<D>>
    requires run { brought.words.places.orders ≡ N.run }
    requires marks { brought.words.marks.orders ≡ N.marks }
    requires content_marks { brought.words.content_marks.orders ≡ N.content_marks }
    requires words { AreFreshWords (length brought.requests.items) brought.words }
    requires few_parties { length brought.requests.items ≤ 16 }
    requires as_many_places { length brought.places.items ≡ length brought.requests.items }
    requires places { (party : ℕ) → N.places party ≡ places_in brought.places.items party }
    requires rows { (table : TableId) → rows_of depot.tables table ≡ N.rows table }
    requires end { depot.tables.archive_end ≡ N.end }
    requires images { (files : Files) → N.images files ↔ D.says.may_leave (archive_disk_of depot.archive) files }
    requires can { CanTake D.says depot }
    requires begins { (since : ℕ) (start : List Deed) → N.begins since start → HasRun D.says depot since start [] }
    requires masters { (past : Past) (start : List Deed) (c : Chronicle) → N.masters past start c →
        IsMaster D.says past start [] depot c }
    requires faults { N.faults ≡ D.says.faults (disk_of depot.journal) }
    requires content_faults { N.content_faults ≡ D.says.faults (archive_disk_of depot.archive) }
    requires as_many { length sinks.items ≡ length brought.requests.items }
    requires as_many_replicas { length brought.replicas.items ≡ length brought.requests.items }
    requires asked { AreAsked N.begins (map (λ own. own.items) brought.requests.items) }
    requires few { All (λ replica. length (left_in replica) ≤ 67108864) brought.replicas.items }
    ensures run { IfOk result (HaveRunAll D.says N.end N.images (C.says.may_give clock.now) K.says N.begins N.masters N.faults N.content_faults (map (λ own. own.items) brought.requests.items) brought.replicas.items sinks.items) }
    ensures kept { IfErr result (λ kept. kept ≡ depot) }
{
    let Brought {
        requests,
        replicas,
        places,
        words,
    } = brought;
    let RunWords {
        places: words,
        marks,
        content_marks,
    } = words;
    match Room::new(alloc, requests.len()) {
        Err(_) => Err(depot),
        Ok(room) => match SharedDepot::<D, N>::new(
            alloc,
            (words.orders, words.order, words.lanes),
            (marks.orders, marks.order, marks.lanes),
            (
                content_marks.orders,
                content_marks.order,
                content_marks.lanes,
            ),
            places.as_slice(),
            depot,
        ) {
            Err(depot) => Err(depot),
            Ok(shared) => Ok(run_and_close(
                rt, alloc, shared, requests, replicas, clock, gate, sinks, room,
            )),
        },
    }
}
