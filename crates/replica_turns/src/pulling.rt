//! `pull` among the parties of a run.

ghost use Rattle.std.specs.Prelude.{◌≡◌, ◌<◌, ◌≤◌, ◌∷◌, [], length, true, false, IfOk, OnOk, OnErr};
ghost use Rattle.depot_rows.specs.depot_model.Printed.{printed};
ghost use Rattle.depot_rows.specs.depot_model.Rows.{disk_row};
ghost use Rattle.disk_journal.specs.Stands.{disk_of};
ghost use Rattle.outside_api.specs.Count.{HasRisen};
ghost use Rattle.outside_api.specs.Link.{Fits};
ghost use Rattle.replica_turns.specs.Position.{IsRoom};
ghost use Rattle.replica_turns.specs.Replying.{Follows, IsPullAnswer};
ghost use Rattle.depot_commit.specs.Fetching.{IsFetched};
ghost use Rattle.serial_depot.specs.declared.depot.SerialDepot.{SerialDepot as AnyDepot};

use crate::answers::{fault_reply, loses, tells};
use crate::party::Answered;
use crate::position::Room;
use depot_commit::fetch_texts;
use depot_rows::paths::Text;
use disk_journal::Journal;
use outside_api::{Disk, Fetched};
use replica_pull::{PullFault, Replica};
use std::alloc::{AllocError, Global};

/// How many bytes of the journal are fetched at a time.
const PIECE: usize = 65_536;

/// A buffer of that many bytes.
fn piece(alloc: Global) -> Result<Vec<u8>, AllocError>
    ensures { IfOk result (λ buffer. length buffer.items ≡ 65536) }
{
    let mut buffer = Vec::new(alloc);
    buffer.resize(PIECE, 0)?;
    Ok(buffer)
}

/// Whether a replica found no memory for what was fetched. Where it can't take it for another cause, it stays as it
/// was.
fn follow(
    alloc: Global,
    replica: &mut Replica,
    fetched: Fetched,
    buffer: &[u8],
) -> Result<(), AllocError>
    requires fits { Fits fetched (length buffer.now) }
    requires piece { length buffer.now ≤ 65536 }
    ensures follows { OnOk result (Follows replica.old replica.new fetched buffer.now) }
    ensures kept { OnErr result (replica.new ≡ replica.old) }
{
    match replica.follow(alloc, fetched, buffer) {
        Ok(_) => Ok(()),
        Err(PullFault::Memory) => Err(AllocError),
        Err(_) => Ok(()),
    }
}

/// Answers a `pull` with a buffer, and memory for the reply.
fn pull_into<D: Disk>(
    alloc: Global,
    replica: &mut Replica,
    journal: &mut Journal<D>,
    number: u32,
    of_fault: Text,
    room: Room,
    buffer: &mut [u8],
) -> Result<Answered, AllocError>
    requires some { 0 < length buffer.old }
    requires most { length buffer.old ≤ 65536 }
    requires room { IsRoom room }
    requires of_fault { of_fault ≡ printed (disk_row ∷ []) number }
    ensures answered { (depot : AnyDepot D) → depot.journal ≡ journal.old →
        IfOk result (λ answered. IsPullAnswer (λ been. been ≡ depot) D.says replica.old replica.new number answered.text answered.lost) }
    ensures kept { OnErr result (replica.new ≡ replica.old) }
    ensures fetched { IsFetched D.says journal.old journal.new }
    ensures never_falls { D.says.faults (disk_of journal.old) ≤ D.says.faults (disk_of journal.new) }
    ensures only { IfOk result (λ answered. answered.lost ≡ false →
        D.says.faults (disk_of journal.new) ≡ D.says.faults (disk_of journal.old)) }
    ensures no_memory { OnErr result (D.says.faults (disk_of journal.new) ≡ D.says.faults (disk_of journal.old)) }
    ensures cause { IfOk result (λ answered. answered.lost ≡ true →
        HasRisen (D.says.faults (disk_of journal.old)) (D.says.faults (disk_of journal.new))) }
{
    let (generation, at) = replica.awaits();
    match fetch_texts(journal, generation, at, buffer) {
        Ok(fetched) => {
            follow(alloc, replica, fetched, buffer)?;
            let (generation, changes) = replica.position();
            Ok(tells(room.position(generation, changes, number)))
        }
        Err(_) => Ok(loses(of_fault)),
    }
}

/// Answers the `pull` of that number: what the journal has where the replica awaits its next piece is fetched and
/// followed, and the reply tells how far the replica is then. Where the journal's disk failed, or no memory was left,
/// the replica is as it was.
pub(crate) fn pull<D: Disk>(
    alloc: Global,
    replica: &mut Replica,
    journal: &mut Journal<D>,
    number: u32,
) -> Result<Answered, AllocError>
    ensures answered { (depot : AnyDepot D) → depot.journal ≡ journal.old →
        IfOk result (λ answered. IsPullAnswer (λ been. been ≡ depot) D.says replica.old replica.new number answered.text answered.lost) }
    ensures kept { OnErr result (replica.new ≡ replica.old) }
    ensures fetched { IsFetched D.says journal.old journal.new }
    ensures never_falls { D.says.faults (disk_of journal.old) ≤ D.says.faults (disk_of journal.new) }
    ensures only { IfOk result (λ answered. answered.lost ≡ false →
        D.says.faults (disk_of journal.new) ≡ D.says.faults (disk_of journal.old)) }
    ensures no_memory { OnErr result (D.says.faults (disk_of journal.new) ≡ D.says.faults (disk_of journal.old)) }
    ensures cause { IfOk result (λ answered. answered.lost ≡ true →
        HasRisen (D.says.faults (disk_of journal.old)) (D.says.faults (disk_of journal.new))) }
{
    let of_fault = fault_reply(alloc, number)?;
    let room = Room::take(alloc)?;
    let mut buffer = piece(alloc)?;
    pull_into(alloc, replica, journal, number, of_fault, room, &mut buffer)
}
