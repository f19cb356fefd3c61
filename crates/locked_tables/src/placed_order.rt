//! What lies behind the lock of the order.
ghost use Rattle.std.specs.Prelude.{◌≡◌, ◌≤◌, ◌-◌, ◌^◌, [], map, if◌then◌else◌, true, not, IfOk, IsTrue};
ghost use Rattle.std.specs.List.{AllByRecursion};
ghost use mathlib.Core.List.{IsPrefix};
ghost use Rattle.depot_model.specs.db_records.declared.table.TableId.{TableId};
ghost use Rattle.table_changes.specs.Changed.{changed_by};
ghost use Rattle.locked_tables.specs.Held.{AllHaveLearnt, AllNext, AllStill, OnlyChange, lanes_next};
ghost use Rattle.locked_tables.specs.Known.{GoesOnWithout, HasPlaceLeft, IsStill, all_places, is_touched};
ghost use Rattle.locked_tables.specs.Placing.{TakesPlace, TouchesLanes};
ghost use Rattle.locked_tables.specs.Taken.{archive_lane, changes_of, end_after, journal_lane, of_party, place_of, rows_after, IsParty};

use crate::held_lanes::{ArchiveLane, JournalLane};
use crate::held_table::HeldTable;
use crate::locked_archive::LockedArchive;
use crate::locked_journal::LockedJournal;
use crate::naming::Naming;
use crate::party_pass::PartyPass;
use crate::peek::Peek;
use crate::placing::{learn_tables, touch_tables};
use crate::taken::Taken;
use crate::words::OrderWords;
use depot_model::Place;
use order_words::OrderSeat;
use std::alloc::{AllocError, Global};
use std::marker::{Model, PhantomData};
use table_changes::tables::Version;

/// The seat of the order, with the places of the order. Contracts see the list of all places. Each
/// entry touches the lane of each table that it changes, and of the parties' lanes that of its own
/// party alone. No party has more places than it may have, and there is room for all of them.
#[derive(Drop)]
pub struct PlacedOrder<N: Naming> {
    seat: OrderSeat<Taken>,
    places: Vec<Place>,
    /// By a table's number, the last place that touched it, or 0.
    touched: [u64; 11],
    of: PhantomData<N>,
}

impl<N: Naming> Model for PlacedOrder<N> {
    ghost use Rattle.std.specs.Prelude.{◌≡◌, ◌≤◌, ℕ, List, map, length, vec_capacity};
    ghost use Rattle.std.specs.List.{AllByRecursion};
    ghost use Rattle.locked_tables.specs.Known.{HaveLastTouches, all_places};
    ghost use Rattle.locked_tables.specs.Taken.{of_party, place_of, TouchesItsParty, TouchesItsTables};
    ghost use Rattle.locked_tables.specs.declared.taken.Taken.{Taken};

    ghost Value = { List Taken };

    ghost view = { λ o. o.seat.list };

    ghost invariant = { λ o. (o.seat.run ≡ N.run) × (o.places.items ≡ map place_of o.seat.list) × AllByRecursion TouchesItsTables o.seat.list × AllByRecursion (TouchesItsParty N.run) o.seat.list × ((party : ℕ) → length (of_party party o.seat.list) ≤ N.places party) × (all_places N.places 16 ≤ vec_capacity o.places) × HaveLastTouches o.touched o.seat.list };
}

impl<N: Naming> PlacedOrder<N> {
    /// An order without a place, with room for all that parties may have. The one error is want of
    /// memory.
    pub fn new(
        alloc: Global,
        seat: OrderSeat<Taken>,
        room: usize,
    ) -> Result<PlacedOrder<N>, AllocError>
        requires seat { (seat.run ≡ N.run) × (seat.list ≡ []) }
        requires room { all_places N.places 16 ≤ room }
        ensures { IfOk result (λ order. order ≡ []) }
    {
        Ok(PlacedOrder {
            seat,
            places: Vec::with_capacity(alloc, room)?,
            touched: [0; 11],
            of: PhantomData,
        })
    }

    /// The party learns all places so far. Each of its own was known to it.
    pub fn tell(&mut self, words: &OrderWords<N>, pass: &mut PartyPass<N>)
        ensures same { self.new ≡ self.old }
        ensures told { pass.new ≡ record pass.old { list = self.old } }
        ensures begins { IsPrefix pass.old.list self.old }
        ensures own { of_party pass.old.party self.old ≡ of_party pass.old.party pass.old.list }
    {
        words.orders.learn(&mut self.seat, &mut pass.seat);
    }

    /// Shows a version of a table that is as it is after the whole order, for a comparison later.
    /// The one error is that there are too many shares.
    pub fn look(&mut self, words: &OrderWords<N>, version: &Version) -> Result<Peek<N>, AllocError>
        requires { version.now.rows ≡ rows_after N.rows self.old version.now.table }
        ensures same { self.new ≡ self.old }
        ensures peek { IfOk result (λ peek. peek ≡ record { table = version.now.table; list = self.old }) }
    {
        let version = version.share()?;
        let places = self.seat.places();
        let note = words.orders.note(&mut self.seat);
        Ok(Peek::of(note, places, version))
    }

    /// Whether no place touched a table since it was looked at. It then is after the whole order
    /// as it was seen.
    pub fn judge(&mut self, words: &OrderWords<N>, peek: Peek<N>) -> bool
        ensures same { self.new ≡ self.old }
        ensures begins { IsPrefix peek.list self.old }
        ensures still { IsTrue result → IsStill N.rows self.old peek }
        ensures judged { result ≡ not (is_touched self.old peek) }
    {
        let Peek {
            note,
            places,
            version,
            of: _,
        } = peek;
        words.orders.order_meet(&mut self.seat, note);
        self.touched[version.table().number()] <= places
    }

    /// The held tables learn the whole order. Each is after it as it was after the places that it
    /// knew.
    pub fn learn_held(&mut self, words: &OrderWords<N>, held: &mut [HeldTable<'_, N>])
        ensures same { self.new ≡ self.old }
        ensures learnt { AllHaveLearnt self.old held.old held.new }
        ensures still { AllStill N.rows self.old held.old }
    {
        learn_tables(words, &mut self.seat, held);
    }

    /// The archive's lane learns the whole order, after which as much of the archive is used as
    /// after the places that it knew: none behind these touches it.
    pub fn learn_archive(&mut self, words: &OrderWords<N>, archive: &mut LockedArchive<N>)
        ensures same { self.new ≡ self.old }
        ensures learnt { archive.new ≡ self.old }
        ensures behind { GoesOnWithout archive_lane archive.old self.old }
        ensures still { end_after N.end self.old ≡ end_after N.end archive.old }
    {
        words.orders.learn(&mut self.seat, &mut archive.seat);
    }

    /// The journal's lane learns the whole order: none behind the places that it knew touches it.
    pub fn learn_journal(&mut self, words: &OrderWords<N>, journal: &mut LockedJournal<N>)
        ensures same { self.new ≡ self.old }
        ensures learnt { journal.new ≡ self.old }
        ensures behind { GoesOnWithout journal_lane journal.old self.old }
    {
        words.orders.learn(&mut self.seat, &mut journal.seat);
    }

    /// Gives a command of the party the next place of the order, and puts the prepared versions in
    /// the place of those that it changes. Where the archive's lane is held, as much of the archive is
    /// used then as it says. Answers the lanes that it touches: those of the archive and of the journal
    /// that are held, the party's, and those of the tables that are changed.
    pub fn place<A: ArchiveLane<N>, J: JournalLane<N>>(
        &mut self,
        words: &OrderWords<N>,
        held: &mut [HeldTable<'_, N>],
        archive: &mut A,
        journal: &mut J,
        pass: &mut PartyPass<N>,
        taken: Taken,
    ) -> u32
        requires room { HasPlaceLeft N.places pass.old }
        requires party { taken.request.party ≡ pass.old.party }
        requires fits { A.is_held ≡ true → taken.end ≤ 2 ^ 63 - 1 }
        requires next { AllNext N.rows taken.changes held.old }
        requires only { OnlyChange taken.changes (lanes_next held.old) }
        ensures placed { TakesPlace self.old self.new pass.old pass.new (record taken { lanes = result }) }
        ensures touches { TouchesLanes N.run (record taken { lanes = result }) A.is_held J.is_held pass.old.party (lanes_next held.old) }
        ensures archive { A.Learns self.old self.new archive.old archive.new }
        ensures journal { J.Learns self.old self.new journal.old journal.new }
        ensures rows { (table : TableId) →
            rows_after N.rows self.new table ≡ changed_by (rows_after N.rows self.old) taken.changes table }
        ensures end { end_after N.end self.new ≡ (if A.is_held then taken.end else end_after N.end self.old) }
    {
        let place = taken.place();
        let lanes = archive.place(words, &mut self.seat, held, journal, pass, taken);
        self.places.push_reserved(place);
        touch_tables(&mut self.touched, lanes, self.seat.places());
        lanes
    }

    /// The rows of the tables after the order are those after all its changes.
    pub fn rows_are_changed(&self)
        ensures { (table : TableId) → rows_after N.rows self.now table ≡ changed_by N.rows (changes_of self.now) table }
    {
        let _count = self.places.len();
    }

    /// Each place is of a party of the run.
    pub fn parties_are_of_run(&self)
        ensures { AllByRecursion (λ taken. IsParty N.run taken.request.party) self.now }
    {
        let _count = self.places.len();
    }

    /// The places, in order. It takes no memory.
    pub fn into_places(self) -> Vec<Place>
        ensures { result.items ≡ map place_of self }
    {
        let PlacedOrder {
            seat: _,
            places,
            touched: _,
            of: _,
        } = self;
        places
    }
}
