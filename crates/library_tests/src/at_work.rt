//! A replica that follows a depot while its parties ask it (`shared_depot`).

ghost use Rattle.std.specs.Prelude.{◌≡◌, ◌≤◌, ◌+◌, ◌↔◌, ℕ, List, [], codes, length, IfSome};
ghost use Rattle.archive_file.specs.Archive.{disk_of as archive_disk_of};
ghost use Rattle.depot_commit.specs.Growing.{Chronicle};
ghost use Rattle.depot_rows.specs.db_records.declared.table.TableId.{TableId};
ghost use Rattle.depot_rows.specs.depot_model.Deeds.{Deed};
ghost use Rattle.depot_rows.specs.table_changes.Changed.{rows_of};
ghost use Rattle.disk_journal.specs.Stands.{disk_of};
ghost use Rattle.order_words.specs.Seats.{fresh_lanes, fresh_order, lane_count};
ghost use Rattle.outside_api.specs.Disk.{Files};
ghost use Rattle.replica_turns.specs.Master.{IsMaster, Past};
ghost use Rattle.serial_depot.specs.Running.{CanTake, HasRun};
ghost use Rattle.session_loop.specs.Taking.{IsProper};
ghost use Rattle.shared_depot.specs.Link.{HasHeardPlaces};
ghost use Rattle.shared_depot.specs.Sharing.{places_in};

use crate::callers::ann;
use crate::calls::{goes_on, whole_replica};
use depot_path::Name;
use depot_rows::model::{Command, Contents, Request, ScriptContents};
use depot_rows::records::TableId;
use depot_rows::tables::Tables;
use journal_groups::Moved;
use locked_tables::{PartyPass, Taken};
use memory_world::{MemoryDisk, OpenGate};
use order_words::{LaneSeat, OrderSeat, Orders};
use outside_api::Disk;
use party_marks::Mark;
use recovery::{Opened, make_files, open_files};
use replica_pull::{PullFault, Replica};
use serial_depot::SerialDepot;
use shared_depot::{BothMarks, Closed, DepotLink, Serving, Shared, SharedDepot};
use std::alloc::Global;
use std::marker::Brand;
use std::sync::{Arc, Wait};
use std::thread::{Threads, join};

/// The name of a counter.
fn build(alloc: Global) -> Option<Name>
    ensures { IfSome result (λ name. name ≡ codes "build") }
{
    match Name::read(alloc, b"build") {
        Ok(name) => Some(name),
        Err(_) => None,
    }
}

/// A request of a party: a counter gets its number.
fn counter_set(alloc: Global, party: u32) -> Option<Request>
    ensures party { IfSome result (λ request. request.party ≡ party) }
    ensures proper { IfSome result IsProper }
{
    let caller = ann(alloc)?;
    let name = build(alloc)?;
    let script = Arc::new(alloc, ScriptContents::new(alloc)).ok()?;
    let contents = Contents::behind(&script, 0).ok()?;
    Some(Request {
        caller,
        party,
        number: 1,
        moment: 1_700_000_000,
        command: Ok(Command::CounterSet {
            name,
            value: party as u64,
        }),
        input: None,
        contents,
    })
}

/// Whether a party's request is taken.
fn asks<D: Disk, N: Serving, R: Wait>(
    rt: &R,
    alloc: Global,
    depot: &SharedDepot<D, N>,
    pass: &mut PartyPass<N>,
) -> bool {
    let Some(request) = counter_set(alloc, pass.party()) else {
        return false;
    };
    match depot.take(rt, alloc, &OpenGate, pass, request) {
        Ok(answer) => {
            drop(answer);
            true
        }
        Err(_) => false,
    }
}

/// What one pull over a link for a party does. The party has its passes back then, and has learnt the places of others.
fn pull_once<D: Disk, N: Serving, R: Wait>(
    rt: &R,
    alloc: Global,
    depot: &SharedDepot<D, N>,
    replica: &mut Replica,
    pass: PartyPass<N>,
    marks: BothMarks<N>,
) -> (Result<Moved, PullFault>, PartyPass<N>, BothMarks<N>)
    ensures { HasHeardPlaces pass result.1 }
{
    let mut link = depot.link(rt, pass, marks);
    let moved = replica.pull(alloc, &mut link);
    let (pass, marks) = link.into_passes();
    (moved, pass, marks)
}

/// Whether the requests of two parties are taken while a replica pulls, each on a thread of its own.
fn asked_meanwhile<D: Disk + Send, N: Serving + Send + Sync, R: Threads + Wait + Sync>(
    rt: &R,
    alloc: Global,
    depot: &SharedDepot<D, N>,
    first: &mut PartyPass<N>,
    second: &mut PartyPass<N>,
    replica: &mut Replica,
    link: &mut DepotLink<'_, D, N, R>,
) -> bool {
    let ((one, other), goes_on) = join(
        rt,
        || {
            join(
                rt,
                || asks(rt, alloc, depot, first),
                || asks(rt, alloc, depot, second),
            )
        },
        || goes_on(alloc, replica, link),
    );
    one && other && goes_on
}

/// Whether a replica finds nothing before the first request, one change behind it, and at last those of all three.
fn follows<D: Disk + Send, N: Serving + Send + Sync, R: Threads + Wait + Sync>(
    rt: &R,
    alloc: Global,
    depot: &SharedDepot<D, N>,
    replica: &mut Replica,
    first: &mut PartyPass<N>,
    second: &mut PartyPass<N>,
    third: PartyPass<N>,
    marks: BothMarks<N>,
) -> bool {
    let (before, mut third, marks) = pull_once(rt, alloc, depot, replica, third, marks);
    let asked = asks(rt, alloc, depot, &mut third);
    let mut link = depot.link(rt, third, marks);
    let behind = replica.pull(alloc, &mut link);
    let meanwhile = asked_meanwhile(rt, alloc, depot, first, second, replica, &mut link);
    let last = replica.pull(alloc, &mut link).is_ok();
    let nothing = replica.pull(alloc, &mut link) == Ok(Moved::Nothing);
    let (_, marks) = link.into_passes();
    before == Ok(Moved::Nothing)
        && asked
        && matches!(
            behind,
            Ok(Moved::Taken {
                changes: 1,
                bytes: _
            })
        )
        && meanwhile
        && last
        && nothing
        && replica.position() == (0, 3)
        && !marks.has_marks()
}

/// Whether both have the same first counter.
fn agree(one: &Tables, other: &Tables) -> bool {
    one.version(TableId::Counter).rows().next() == other.version(TableId::Counter).rows().next()
}

/// Whether a replica follows a depot of three parties, and has its counter once it is closed.
fn follows_to_the_end<D: Disk + Send + Drop, N: Serving + Send + Sync, R: Threads + Wait + Sync>(
    rt: &R,
    alloc: Global,
    shared: Shared<D, N>,
    replica: &mut Replica,
) -> bool {
    let Shared {
        depot,
        mut passes,
        mut marks,
    } = shared;
    let follows = match (passes.pop(), passes.pop(), passes.pop(), marks.pop()) {
        (Some(third), Some(mut second), Some(mut first), Some(marks)) => follows(
            rt,
            alloc,
            &depot,
            replica,
            &mut first,
            &mut second,
            third,
            marks,
        ),
        _ => false,
    };
    drop(passes);
    drop(marks);
    let Closed { depot, order } = depot.open().close();
    let agree = agree(replica.tables(), depot.tables());
    drop(depot);
    follows && agree && order.len() == 3
}

/// The words of an order, and the seats from which they are written.
type Words<E> = (Orders<E>, OrderSeat<E>, Vec<LaneSeat<E>>);

/// Whether it does so where parties that may have so many places share a depot.
fn shares_and_follows<D: Disk + Send + Drop, N: Serving + Send + Sync, R: Threads + Wait + Sync>(
    rt: &R,
    alloc: Global,
    words: Words<Taken>,
    mark_words: Words<Mark>,
    content_words: Words<Mark>,
    places: &[u64],
    depot: SerialDepot<D>,
    replica: &mut Replica,
) -> bool
    requires run { words.0 ≡ N.run }
    requires few { (length places.now ≤ 16) × (lane_count N.run ≡ 13 + length places.now) }
    requires places { (party : ℕ) → N.places party ≡ places_in places.now party }
    requires order { words.1 ≡ fresh_order N.run (13 + length places.now) }
    requires seats { words.2.items ≡ fresh_lanes N.run (13 + length places.now) }
    requires marks { mark_words.0 ≡ N.marks }
    requires mark_lanes { lane_count N.marks ≡ 1 + length places.now }
    requires mark_order { mark_words.1 ≡ fresh_order N.marks (1 + length places.now) }
    requires mark_seats { mark_words.2.items ≡ fresh_lanes N.marks (1 + length places.now) }
    requires content_marks { content_words.0 ≡ N.content_marks }
    requires content_lanes { lane_count N.content_marks ≡ 1 + length places.now }
    requires content_order { content_words.1 ≡ fresh_order N.content_marks (1 + length places.now) }
    requires content_seats { content_words.2.items ≡ fresh_lanes N.content_marks (1 + length places.now) }
    requires rows { (table : TableId) → rows_of depot.tables table ≡ N.rows table }
    requires end { depot.tables.archive_end ≡ N.end }
    requires images { (files : Files) → N.images files ↔ D.says.may_leave (archive_disk_of depot.archive) files }
    requires can { CanTake D.says depot }
    requires begins { (since : ℕ) (start : List Deed) → N.begins since start → HasRun D.says depot since start [] }
    requires masters { (past : Past) (start : List Deed) (c : Chronicle) → N.masters past start c →
        IsMaster D.says past start [] depot c }
    requires faults { N.faults ≡ D.says.faults (disk_of depot.journal) }
    requires content_faults { N.content_faults ≡ D.says.faults (archive_disk_of depot.archive) }
{
    match SharedDepot::<D, N>::new(alloc, words, mark_words, content_words, places, depot) {
        Ok(shared) => follows_to_the_end(rt, alloc, shared, replica),
        Err(depot) => {
            drop(depot);
            false
        }
    }
}

/// The depot of fresh files on these disks.
fn empty_depot<D: Disk + Drop>(
    alloc: Global,
    mut journal: D,
    mut archive: D,
) -> Option<SerialDepot<D>>
    ensures { IfSome result (CanTake D.says) }
{
    make_files(&mut journal, &mut archive).ok()?;
    match open_files(alloc, journal, archive) {
        Ok(
            Opened {
                tables,
                journal,
                archive,
            },
        ) => Some(SerialDepot::new(tables, journal, archive)),
        Err(found) => {
            drop(found);
            None
        }
    }
}

/// Whether a replica follows a depot while parties share it that may have so many places.
fn is_followed<D: Disk + Send + Drop, R: Threads + Wait + Sync>(
    rt: &R,
    alloc: Global,
    places: &[u64],
    depot: SerialDepot<D>,
    replica: &mut Replica,
) -> bool
    requires few { length places.now ≤ 16 }
    requires can { CanTake D.says depot }
{
    let parties = places.len() as u32;
    let words = Orders::new(alloc, 13 + parties);
    let mark_words = Orders::new(alloc, 1 + parties);
    let content_words = Orders::new(alloc, 1 + parties);
    match (words, mark_words, content_words) {
        (Ok(words), Ok(mark_words), Ok(content_words)) => shares_and_follows::<D, Brand, R>(
            rt,
            alloc,
            words,
            mark_words,
            content_words,
            places,
            depot,
            replica,
        ),
        _ => {
            drop(depot);
            false
        }
    }
}

/// Whether a replica follows a depot in memory to the end.
fn follows_in_memory<R: Threads + Wait + Sync>(rt: &R, alloc: Global) -> bool {
    let Some(mut replica) = whole_replica(alloc) else {
        return false;
    };
    let journal = MemoryDisk::new(Vec::new(alloc));
    let archive = MemoryDisk::new(Vec::new(alloc));
    let is_followed = match empty_depot(alloc, journal, archive) {
        Some(depot) => is_followed(rt, alloc, &[1, 1, 1], depot, &mut replica),
        None => false,
    };
    drop(replica);
    is_followed
}

#[test]
fn a_replica_follows_a_depot_at_work(rt: HostRuntime) {
    assert!(rt; follows_in_memory(&rt, rt.alloc()));
}
