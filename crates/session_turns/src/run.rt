//! The run of all parties.

ghost use Rattle.std.specs.Prelude.{◌≡◌, ◌≤◌, ◌<◌, ◌^◌, ℕ, List, [], true, false, length, map, All, IfErr, IfOk};
ghost use Rattle.archive_file.specs.Archive.{disk_of as archive_disk_of};
ghost use Rattle.depot_rows.specs.depot_model.Deeds.{Deed};
ghost use Rattle.depot_runs.specs.Run.{placed};
ghost use Rattle.disk_journal.specs.Stands.{disk_of};
ghost use Rattle.run_parties.specs.Replicas.{OneHasRisen};
ghost use Rattle.run_parties.specs.Served.{AreApart, AreEnds, AreServed};
ghost use Rattle.run_parties.specs.replica_turns.Master.{CanBeFollowed, IsMaster, Past};
ghost use Rattle.run_parties.specs.depot_commit.Growing.{Chronicle};
ghost use Rattle.run_parties.specs.serial_depot.Running.{CanTake, HasRun};
ghost use Rattle.session_loop.specs.Asking.{AreWellFormed, commands_of, replica_commands};
ghost use Rattle.session_loop.specs.Served.{AreCaused, HaveRisenBy, StandWithoutFaults};
ghost use Rattle.session_turns.specs.Counted.{AreCounted};

use crate::answers::answer_rest;
use crate::beginning::Beginning;
use crate::turns::Turns;
use depot_rows::model::{Place, Session};
use outside_api::{Clock, Disk, Gate, Sink};
use serial_depot::SerialDepot;
use session_loop::{ReplicaScript, SessionRun};
use std::alloc::Global;

/// What a run leaves.
#[derive(Drop)]
pub struct Ran<D: Disk, K> {
    /// How far each party came, in the order of the parties.
    pub runs: Vec<SessionRun>,
    /// The sinks of the parties.
    pub sinks: Vec<K>,
    /// The places of the order.
    pub order: Vec<Place>,
    /// Whether a replica was answered that a disk failed. Such an answer leaves no fault in the order.
    pub lost: bool,
    /// The depot, as the places of the order leave it.
    pub depot: SerialDepot<D>,
}

/// What was handed to a run for which there was no memory. Nothing was done with it.
#[derive(Drop)]
pub struct Unrun<D: Disk, K> {
    /// The sinks of the parties.
    pub sinks: Vec<K>,
    /// The depot.
    pub depot: SerialDepot<D>,
}

/// Takes the commands of sessions and of replicas by turns that the numbers after a seed draw, and gives each reply to
/// the sink of its party. Parties are numbered from 1, in the order of both lists, of which each party has a place in
/// either; one whose script has no head is in neither and asks nothing. All requests are made before the first turn. A
/// command of a session whose commit failed has a fault place; one that finds no memory is answered so and has no
/// place. A replica has the rows of the files inside its filter, as far as it has followed the journal of this depot:
/// each of its turns answers one command, which has no place. A party whose sink failed takes no further command. The
/// one error is want of memory before the first turn, and then nothing is done.
pub fn run_sessions<D: Disk, K: Sink + Drop, C: Clock, G: Gate>(
    alloc: Global,
    seed: u32,
    sessions: Vec<Option<Session>>,
    replicas: Vec<Option<ReplicaScript>>,
    clock: &C,
    gate: &G,
    sinks: Vec<K>,
    depot: SerialDepot<D>,
) -> Result<Ran<D, K>, Unrun<D, K>>
    requires can { CanTake D.says depot }
    requires as_many { length sinks.items ≡ length sessions.items }
    requires as_many_replicas { length replicas.items ≡ length sessions.items }
    requires apart { AreApart sessions.items replicas.items }
    requires few_parties { length sessions.items < 2 ^ 32 }
    requires few { All (λ session. length (commands_of session) ≤ 67108864) sessions.items }
    requires few_replicas { All (λ script. length (replica_commands script) ≤ 67108864) replicas.items }
    ensures can { IfOk result (λ ran. CanTake D.says ran.depot) }
    ensures unrun { IfErr result (λ unrun. (unrun.depot ≡ depot) × (unrun.sinks ≡ sinks)) }

    // From each depot from which the depot in files begins, where the commands are well-formed.
    ensures served { (since : ℕ) (start : List Deed) →
        All (λ session. AreWellFormed (commands_of session)) sessions.items → HasRun D.says depot since start [] →
        IfOk result (λ ran. AreServed (C.says.may_give clock.now) sessions.items replicas.items start ran.runs.items (map K.says.given sinks.items) (map K.says.given ran.sinks.items) ran.order.items) }
    // The order is that of the machine with the turns that the seed draws, and each command of a replica is answered
    // over as many places as it had at its turn. Fault places and replies of a failed disk are together at most as many
    // as the counts of the two disks rose.
    ensures counted { (since : ℕ) (start : List Deed) →
        All (λ session. AreWellFormed (commands_of session)) sessions.items → HasRun D.says depot since start [] →
        IfOk result (λ ran. AreCounted D.says (C.says.may_give clock.now) seed depot sessions.items replicas.items since start ran.order.items ran.runs.items ran.lost (λ failures. HaveRisenBy failures (D.says.faults (disk_of depot.journal)) (D.says.faults (disk_of ran.depot.journal)) (D.says.faults (archive_disk_of depot.archive)) (D.says.faults (archive_disk_of ran.depot.archive))) (map K.says.given sinks.items) (map K.says.given ran.sinks.items)) }
    // From a depot that they follow on, the depot at the end is one that they follow after the places.
    ensures master { (past : Past) (since : ℕ) (start : List Deed) (c : Chronicle) →
        All (λ session. AreWellFormed (commands_of session)) sessions.items → HasRun D.says depot since start [] →
        IsMaster D.says past start [] depot c →
        IfOk result (λ ran. CanBeFollowed D.says past start (map (placed sessions.items) ran.order.items) ran.depot) }
    ensures ran { (since : ℕ) (start : List Deed) →
        All (λ session. AreWellFormed (commands_of session)) sessions.items → HasRun D.says depot since start [] →
        IfOk result (λ ran. HasRun D.says ran.depot since start (map (placed sessions.items) ran.order.items)) }

    ensures ends { IfOk result (λ ran. AreEnds K.says sessions.items replicas.items ran.runs.items sinks.items ran.sinks.items) }

    // Where there is no fault place, and no replica was answered that a disk failed, the counts of the two disks stand.
    // There are at most as many fault places as the counts of the two disks rose, and a replica was answered that a
    // disk failed only where one of them rose.
    ensures stand { IfOk result (λ ran. ran.lost ≡ false →
        StandWithoutFaults (D.says.faults (disk_of depot.journal)) (D.says.faults (disk_of ran.depot.journal)) (D.says.faults (archive_disk_of depot.archive)) (D.says.faults (archive_disk_of ran.depot.archive)) [] ran.order.items) }
    ensures faults { IfOk result (λ ran. AreCaused (D.says.faults (disk_of depot.journal)) (D.says.faults (disk_of ran.depot.journal)) (D.says.faults (archive_disk_of depot.archive)) (D.says.faults (archive_disk_of ran.depot.archive)) [] ran.order.items) }
    ensures lost { IfOk result (λ ran. ran.lost ≡ true →
        OneHasRisen (D.says.faults (disk_of depot.journal)) (D.says.faults (disk_of ran.depot.journal)) (D.says.faults (archive_disk_of depot.archive)) (D.says.faults (archive_disk_of ran.depot.archive))) }
{
    let Beginning {
        core,
        replicas,
        totals,
        runs,
    } = match Beginning::new(alloc, sessions, replicas, clock, depot.tables()) {
        Ok(beginning) => beginning,
        Err(_) => return Err(Unrun { sinks, depot }),
    };
    let mut turns = Turns {
        core,
        replicas,
        totals,
        runs,
        sinks,
        depot,
        order: Vec::new(alloc),
    };
    turns.take_all(alloc, seed, clock, gate);
    let Turns {
        core,
        replicas,
        totals,
        mut runs,
        mut sinks,
        depot,
        order,
    } = turns;
    drop(core);
    let lost = replicas.lost;
    drop(replicas);
    answer_rest(clock, &totals, &mut runs, &mut sinks);
    Ok(Ran {
        runs,
        sinks,
        order,
        lost,
        depot,
    })
}
