//! Making a shared depot.
ghost use Rattle.std.specs.Prelude.{◌≡◌, ◌≤◌, ◌<◌, ◌-◌, ◌+◌, ◌++◌, ◌↔◌, ℕ, List, [], length, IfOk, OnOk};
ghost use Rattle.std.specs.Result.{IfErr};
ghost use Rattle.archive_file.specs.Archive.{disk_of as archive_disk_of};
ghost use Rattle.depot_commit.specs.Growing.{Chronicle};
ghost use Rattle.depot_rows.specs.db_records.declared.table.TableId.{TableId};
ghost use Rattle.depot_rows.specs.depot_model.Deeds.{Deed};
ghost use Rattle.disk_journal.specs.Stands.{disk_of};
ghost use Rattle.outside_api.specs.Disk.{Files};
ghost use Rattle.order_words.specs.Seats.{fresh_lanes, fresh_order, lane_count};
ghost use Rattle.replica_turns.specs.Master.{IsMaster, Past};
ghost use Rattle.serial_depot.specs.Running.{CanTake, HasRun};
ghost use Rattle.depot_rows.specs.table_changes.Changed.{rows_of};
ghost use Rattle.locked_tables.specs.Known.{all_places};
ghost use Rattle.shared_depot.specs.Sharing.{fresh_marks, fresh_passes, places_in};

use crate::both_marks::BothMarks;
use crate::common::CommonDepot;
use crate::of_archive::OfArchive;
use crate::serving::Serving;
use crate::shared::SharedDepot;
use crate::stored_archive::StoredArchive;
use crate::written_journal::{WrittenJournal, share_tables};
use depot_rows::tables::Tables;
use locked_tables::{
    LockedArchive, LockedJournal, Naming, OrderWords, PartyPass, PlacedOrder, TableLocks, Taken,
};
use order_words::{LaneSeat, OrderSeat, Orders};
use outside_api::Disk;
use party_marks::{Mark, MarkPass, MarkWords, Marking, Marks};
use serial_depot::SerialDepot;
use std::alloc::{AllocError, Global};
use std::sync::Mutex;

/// A depot that threads share, and the passes of the parties, which are numbered from 1.
#[derive(Drop)]
pub struct Shared<D: Disk, N: Serving> {
    pub depot: SharedDepot<D, N>,
    pub passes: Vec<PartyPass<N>>,
    pub marks: Vec<BothMarks<N>>,
}

/// How many places a party may have.
fn place_count(places: &[u64], party: u32) -> u64
    requires { 1 ≤ party }
    ensures { result ≡ places_in places.now party }
{
    places.get(party as usize - 1).copied().unwrap_or(0)
}

/// How many places the first so many parties may have. The one error is that they are too many for any
/// memory.
fn total_places(places: &[u64], parties: u32) -> Result<u64, AllocError>
    ensures { IfOk result (λ total. total ≡ all_places (places_in places.now) parties) }
{
    if parties == 0 {
        return Ok(0);
    }
    let before = total_places(places, parties - 1)?;
    before
        .checked_add(place_count(places, parties))
        .ok_or(AllocError)
}

/// Makes the passes of the first so many parties of their seats, which are the last.
fn make_passes<N: Naming>(
    lanes: &mut Vec<LaneSeat<Taken>>,
    passes: &mut Vec<PartyPass<N>>,
    places: &[u64],
    count: u32,
) -> Result<(), AllocError>
    requires few { (count ≤ 16) × (count + 13 ≤ lane_count N.run) }
    requires seats { lanes.old.items ≡ fresh_lanes N.run (count + 13) }
    requires places { (party : ℕ) → N.places party ≡ places_in places.now party }
    ensures seats { OnOk result (lanes.new.items ≡ fresh_lanes N.run 13) }
    ensures passes { OnOk result (passes.new.items ≡ passes.old.items ++ fresh_passes count) }
{
    if count == 0 {
        return Ok(());
    }
    let Some(seat) = lanes.pop() else {
        return Err(AllocError);
    };
    make_passes(lanes, passes, places, count - 1)?;
    passes.push(PartyPass::new(seat, count, place_count(places, count)))?;
    Ok(())
}

/// Makes the passes for marks of the first so many parties, in the same way. No party has the first lane.
fn make_mark_passes<N: Marking>(
    lanes: &mut Vec<LaneSeat<Mark>>,
    passes: &mut Vec<MarkPass<N>>,
    count: u32,
) -> Result<(), AllocError>
    requires few { (count ≤ 16) × (count < lane_count N.marks) }
    requires seats { lanes.old.items ≡ fresh_lanes N.marks (1 + count) }
    ensures { OnOk result (passes.new.items ≡ passes.old.items ++ fresh_marks count) }
{
    if count == 0 {
        return Ok(());
    }
    let Some(seat) = lanes.pop() else {
        return Err(AllocError);
    };
    make_mark_passes(lanes, passes, count - 1)?;
    passes.push(MarkPass::new(seat, count))?;
    Ok(())
}

/// Makes the passes for marks of so many parties of the seats of their lanes, before which is one more.
fn mark_passes<N: Marking>(
    alloc: Global,
    mut lanes: Vec<LaneSeat<Mark>>,
    count: u32,
) -> Result<Vec<MarkPass<N>>, AllocError>
    requires few { (count ≤ 16) × (count < lane_count N.marks) }
    requires seats { lanes.items ≡ fresh_lanes N.marks (1 + count) }
    ensures { IfOk result (λ passes. passes.items ≡ fresh_marks count) }
{
    let mut passes = Vec::new(alloc);
    make_mark_passes(&mut lanes, &mut passes, count)?;
    Ok(passes)
}

/// The passes of parties for both kinds of marks, party by party.
fn pair_passes<N: Serving>(
    alloc: Global,
    journal: Vec<MarkPass<N>>,
    archive: Vec<MarkPass<OfArchive<N>>>,
    count: u32,
) -> Result<Vec<BothMarks<N>>, AllocError>
    requires journal { journal.items ≡ fresh_marks count }
    requires archive { archive.items ≡ fresh_marks count }
    ensures { IfOk result (λ passes. passes.items ≡ fresh_marks count) }
{
    let mut archive = archive;
    let mut journal = journal;
    let mut passes = Vec::new(alloc);
    pair_first(&mut journal, &mut archive, &mut passes, count)?;
    Ok(passes)
}

/// Pairs the passes of the first so many parties, which are the last of the two lists.
fn pair_first<N: Serving>(
    journal: &mut Vec<MarkPass<N>>,
    archive: &mut Vec<MarkPass<OfArchive<N>>>,
    passes: &mut Vec<BothMarks<N>>,
    count: u32,
) -> Result<(), AllocError>
    requires journal { journal.old.items ≡ fresh_marks count }
    requires archive { archive.old.items ≡ fresh_marks count }
    ensures { OnOk result (passes.new.items ≡ passes.old.items ++ fresh_marks count) }
{
    if count == 0 {
        return Ok(());
    }
    let Some(first) = journal.pop() else {
        return Err(AllocError);
    };
    let Some(second) = archive.pop() else {
        return Err(AllocError);
    };
    pair_first(journal, archive, passes, count - 1)?;
    passes.push(BothMarks::new(first, second))?;
    Ok(())
}

/// What lies behind the locks of the tables, the seats of the archive's lane and of the journal's, the order,
/// and the passes.
#[derive(Drop)]
struct Parts<N: Naming> {
    tables: TableLocks<N>,
    archive: LockedArchive<N>,
    journal: LockedJournal<N>,
    order: PlacedOrder<N>,
    passes: Vec<PartyPass<N>>,
}

/// Makes them of the seats. The one error is want of memory.
fn make_parts<N: Naming>(
    alloc: Global,
    order: OrderSeat<Taken>,
    mut lanes: Vec<LaneSeat<Taken>>,
    places: &[u64],
    tables: &Tables,
) -> Result<Parts<N>, AllocError>
    requires few { (length places.now ≤ 16) × (length places.now + 13 ≤ lane_count N.run) }
    requires order { (order.run ≡ N.run) × (order.list ≡ []) }
    requires seats { lanes.items ≡ fresh_lanes N.run (length places.now + 13) }
    requires places { (party : ℕ) → N.places party ≡ places_in places.now party }
    requires rows { (table : TableId) → rows_of tables.now table ≡ N.rows table }
    requires end { tables.now.archive_end ≡ N.end }
    ensures passes { IfOk result (λ parts. parts.passes.items ≡ fresh_passes (length places.now)) }
    ensures archive { IfOk result (λ parts. parts.archive ≡ []) }
    ensures journal { IfOk result (λ parts. parts.journal ≡ []) }
    ensures order { IfOk result (λ parts. parts.order ≡ []) }
{
    let mut passes = Vec::new(alloc);
    let total = total_places(places, 16)?;
    let order = PlacedOrder::new(alloc, order, total as usize)?;
    make_passes(&mut lanes, &mut passes, places, places.len() as u32)?;
    let Some(seat) = lanes.pop() else {
        return Err(AllocError);
    };
    let journal = LockedJournal::new(seat);
    let Some(seat) = lanes.pop() else {
        return Err(AllocError);
    };
    let archive = LockedArchive::new(seat, tables.archive_end());
    let tables = TableLocks::new(alloc, lanes, tables)?;
    Ok(Parts {
        tables,
        archive,
        journal,
        order,
        passes,
    })
}

/// The passes for both kinds of marks of so many parties. The one error is want of memory.
fn both_passes<N: Serving>(
    alloc: Global,
    journal: Vec<LaneSeat<Mark>>,
    archive: Vec<LaneSeat<Mark>>,
    count: u32,
) -> Result<Vec<BothMarks<N>>, AllocError>
    requires few { (count ≤ 16) × (count < lane_count N.marks) × (count < lane_count N.content_marks) }
    requires journal { journal.items ≡ fresh_lanes N.marks (1 + count) }
    requires archive { archive.items ≡ fresh_lanes N.content_marks (1 + count) }
    ensures { IfOk result (λ passes. passes.items ≡ fresh_marks count) }
{
    let journal = mark_passes(alloc, journal, count)?;
    let archive = mark_passes(alloc, archive, count)?;
    pair_passes(alloc, journal, archive, count)
}

impl<D: Disk, N: Serving> SharedDepot<D, N> {
    /// Shares a depot in files among parties, up to 16, each of which may have so many places, with the
    /// words that were made for them: those of `Orders::new` with 13 lanes more than parties, and for the
    /// marks of each of the two disks with one more. Where memory is wanting, the depot is given back as it
    /// was.
    pub fn new(
        alloc: Global,
        words: (Orders<Taken>, OrderSeat<Taken>, Vec<LaneSeat<Taken>>),
        mark_words: (Orders<Mark>, OrderSeat<Mark>, Vec<LaneSeat<Mark>>),
        content_words: (Orders<Mark>, OrderSeat<Mark>, Vec<LaneSeat<Mark>>),
        places: &[u64],
        depot: SerialDepot<D>,
    ) -> Result<Shared<D, N>, SerialDepot<D>>
        requires run { words.0 ≡ N.run }
        requires few { (length places.now ≤ 16) × (lane_count N.run ≡ 13 + length places.now) }
        requires places { (party : ℕ) → N.places party ≡ places_in places.now party }
        requires order { words.1 ≡ fresh_order N.run (13 + length places.now) }
        requires seats { words.2.items ≡ fresh_lanes N.run (13 + length places.now) }
        requires marks { mark_words.0 ≡ N.marks }
        requires mark_lanes { lane_count N.marks ≡ 1 + length places.now }
        requires mark_order { mark_words.1 ≡ fresh_order N.marks (1 + length places.now) }
        requires mark_seats { mark_words.2.items ≡ fresh_lanes N.marks (1 + length places.now) }
        requires content_marks { content_words.0 ≡ N.content_marks }
        requires content_lanes { lane_count N.content_marks ≡ 1 + length places.now }
        requires content_order { content_words.1 ≡ fresh_order N.content_marks (1 + length places.now) }
        requires content_seats { content_words.2.items ≡ fresh_lanes N.content_marks (1 + length places.now) }
        requires rows { (table : TableId) → rows_of depot.tables table ≡ N.rows table }
        requires end { depot.tables.archive_end ≡ N.end }
        requires images { (files : Files) → N.images files ↔ D.says.may_leave (archive_disk_of depot.archive) files }
        requires can { CanTake D.says depot }
        requires begins { (since : ℕ) (start : List Deed) → N.begins since start → HasRun D.says depot since start [] }
        requires masters { (past : Past) (start : List Deed) (c : Chronicle) → N.masters past start c →
            IsMaster D.says past start [] depot c }
        requires faults { N.faults ≡ D.says.faults (disk_of depot.journal) }
        requires content_faults { N.content_faults ≡ D.says.faults (archive_disk_of depot.archive) }
        ensures passes { IfOk result (λ shared. shared.passes.items ≡ fresh_passes (length places.now)) }
        ensures mark_passes { IfOk result (λ shared. shared.marks.items ≡ fresh_marks (length places.now)) }
        ensures back { IfErr result (λ given. given ≡ depot) }
    {
        let (mark_orders, mark_order, mark_lanes) = mark_words;
        let (content_orders, content_order, content_lanes) = content_words;
        let parties = places.len() as u32;
        let Ok(marks) = both_passes(alloc, mark_lanes, content_lanes, parties) else {
            return Err(depot);
        };
        let (orders, order, lanes) = words;
        let Ok(shown) = share_tables(alloc, &depot.tables) else {
            return Err(depot);
        };
        match make_parts(alloc, order, lanes, places, &depot.tables) {
            Err(_) => Err(depot),
            Ok(parts) => {
                let Parts {
                    tables: locks,
                    archive: archive_lane,
                    journal: journal_lane,
                    order,
                    passes,
                } = parts;
                let SerialDepot {
                    tables,
                    journal,
                    archive,
                } = depot;
                let archive = StoredArchive::new(archive_lane, archive, Marks::new(content_order));
                let common = CommonDepot::new(order, shown);
                let journal = WrittenJournal::new(
                    journal_lane,
                    tables,
                    journal,
                    Marks::new(mark_order),
                );
                Ok(Shared {
                    depot: SharedDepot {
                        words: OrderWords::new(orders),
                        tables: locks,
                        archive: Mutex::new(archive),
                        journal: Mutex::new(journal),
                        common: Mutex::new(common),
                        mark_words: MarkWords::new(mark_orders),
                        content_words: MarkWords::new(content_orders),
                    },
                    passes,
                    marks,
                })
            }
        }
    }
}
