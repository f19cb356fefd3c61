//! The words, and each kind of step on them.
ghost use Rattle.std.specs.Prelude.{◌≡◌, ℕ, ◌+◌, ◌-◌, ◌^◌, ◌<◌, ◌≤◌, true, false, [], ◌∷◌, ◌++◌, length, IfOk, IsTrue, IsFalse};
ghost use mathlib.Core.List.{IsPrefix};
ghost use Rattle.order_words.specs.Lanes.{has_lane, last_touch, is_among};
ghost use Rattle.order_words.specs.Seats.{lane_count, fresh_order, fresh_lane, fresh_lanes, order_note, lane_note, checked_with, longer};

use crate::lanes::Entry;
use crate::plays::{
    Announce, Append, Check, LaneLearns, Look, MakeLane, OrderLearns, ReadNote, Rest, WriteNote,
};
use crate::rule::LaneRule;
use crate::seats::{LaneSeat, Note, OrderSeat};
use crate::view::View;
use atomic_table::Table;
use std::alloc::{AllocError, Global};
use std::marker::Model;

/// The words of one order, which all its threads share. Contracts see which run of words it is.
#[derive(Drop)]
pub struct Orders<E: Entry> {
    table: Table<E, View<E>, u32, LaneRule, Global>,
}

impl<E: Entry> Model for Orders<E> {
    ghost use Rattle.std.specs.Prelude.{◌≡◌, ◌+◌};
    ghost use Rattle.atomic_table.specs.Seated.{table_id_coded};
    ghost use Rattle.order_words.specs.Seats.{Run};

    ghost Value = { Run };

    ghost coded = { table_id_coded };

    ghost view = { λ o. o.table.shared.table_id };

    ghost invariant = { λ o. o.table.shared.table_id.words ≡ o.table.shared.key + 1 };
}

impl<E: Entry> Orders<E> {
    /// Words for so many lanes, with the seat of the order, which has no place yet, and the seat
    /// of each lane in rising order. The only error is want of memory; no other call takes any.
    pub fn new(
        alloc: Global,
        lanes: u32,
    ) -> Result<(Orders<E>, OrderSeat<E>, Vec<LaneSeat<E>>), AllocError>
        requires { (1 ≤ lanes) × (lanes ≤ 32) }
        ensures words { IfOk result (λ r. lane_count r.0 ≡ lanes) }
        ensures order { IfOk result (λ r. r.1 ≡ fresh_order r.0 lanes) }
        ensures seats { IfOk result (λ r. r.2.items ≡ fresh_lanes r.0 lanes) }
    {
        let (orders, mut seat) = Orders::open(alloc, lanes)?;
        let seats = orders.make_all(alloc, &mut seat, lanes)?;
        Ok((orders, seat, seats))
    }

    // No lane is made yet.
    fn open(alloc: Global, lanes: u32) -> Result<(Orders<E>, OrderSeat<E>), AllocError>
        ensures { IfOk result (λ r. (lane_count r.0 ≡ lanes) × (r.1 ≡ fresh_order r.0 0)) }
    {
        let words = Vec::from_elem(alloc, 0u64, lanes as usize + 1)?;
        let (table, seat) = Table::of_words(alloc, words.as_slice(), &lanes)?;
        Ok((Orders { table }, OrderSeat { seat, places: 0 }))
    }

    fn make_all(
        &self,
        alloc: Global,
        seat: &mut OrderSeat<E>,
        lanes: u32,
    ) -> Result<Vec<LaneSeat<E>>, AllocError>
        requires { (seat.old ≡ fresh_order self.now 0) × (lane_count self.now ≡ lanes) }
        ensures { IfOk result (λ r. (seat.new ≡ fresh_order self.entry.now lanes) ×
            (r.items ≡ fresh_lanes self.entry.now lanes)) }
    {
        let mut seats = Vec::with_capacity(alloc, lanes as usize)?;
        for lane in 0..lanes {
            seats.push(self.make(seat, lane))?;
        }
        Ok(seats)
    }

    fn make(&self, seat: &mut OrderSeat<E>, lane: u32) -> LaneSeat<E>
        requires run { seat.old.run ≡ self.now }
        requires room { (seat.old.made ≡ lane) × (lane < lane_count self.now) }
        ensures order { seat.new ≡ record seat.old { made = lane + 1 } }
        ensures lane { result ≡ fresh_lane self.now lane }
    {
        LaneSeat {
            seat: self.table.shared.split_seat::<MakeLane>(&mut seat.seat),
            lane,
        }
    }

    /// A note of the whole order, for a lane's seat to meet.
    pub fn note(&self, seat: &mut OrderSeat<E>) -> Note<E>
        requires { seat.old.run ≡ self.now }
        ensures same { seat.new ≡ seat.old }
        ensures note { result ≡ order_note seat.old }
    {
        Note {
            seat: self.table.shared.split_seat::<WriteNote>(&mut seat.seat),
        }
    }

    /// A note of what the seat of a lane knows, the lane's word too.
    pub fn lane_note(&self, seat: &mut LaneSeat<E>) -> Note<E>
        requires { seat.old.run ≡ self.now }
        ensures same { seat.new ≡ seat.old }
        ensures note { result ≡ lane_note seat.old }
    {
        Note {
            seat: self.table.shared.split_seat::<WriteNote>(&mut seat.seat),
        }
    }

    /// The seat of a lane takes in a note. To a seat at rest no note tells of a later place that
    /// touches its lane, since there is none.
    pub fn meet(&self, seat: &mut LaneSeat<E>, note: Note<E>)
        requires { (seat.old.run ≡ self.now) × (note.run ≡ self.now) }
        ensures met { seat.new ≡ record seat.old { list = longer seat.old.list note.list } }
        ensures longer { IsPrefix seat.old.list seat.new.list × IsPrefix note.list seat.new.list }
        ensures rests { IsTrue seat.old.resting → last_touch E.lanes seat.old.lane seat.new.list ≡ seat.old.word }
    {
        let Note { seat: told } = note;
        self.table
            .shared
            .join_seat::<ReadNote>(&mut seat.seat, told);
        self.table.shared.load::<LaneLearns>(&mut seat.seat, 0);
    }

    /// The seat of the order takes in a note, of which it has all places already. Where the note
    /// says that its lane is announced for the next place, the lane is checked.
    pub fn order_meet(&self, seat: &mut OrderSeat<E>, note: Note<E>)
        requires { (seat.old.run ≡ self.now) × (note.run ≡ self.now) }
        ensures met { seat.new ≡ record seat.old { checked = checked_with (length seat.old.list) note.lane note.word seat.old.checked } }
        ensures begins { IsPrefix note.list seat.old.list }
    {
        let Note { seat: told } = note;
        self.table
            .shared
            .join_seat::<ReadNote>(&mut seat.seat, told);
        self.table.shared.load::<OrderLearns>(&mut seat.seat, 0);
    }

    /// Announces that the next place will touch the lane. The lane's seat is at rest no more.
    pub fn announce(&self, seat: &mut LaneSeat<E>, place: u64)
        requires run { seat.old.run ≡ self.now }
        requires rest { IsTrue seat.old.resting }
        requires next { place ≡ length seat.old.list + 1 }
        ensures { seat.new ≡ record seat.old { word = place; resting = false } }
    {
        self.table
            .shared
            .store::<Announce>(&mut seat.seat, seat.lane as usize + 1, place);
    }

    /// The word of a lane. Where it is the next place, the lane is checked.
    pub fn check(&self, seat: &mut OrderSeat<E>, lane: u32) -> u64
        requires run { seat.old.run ≡ self.now }
        requires lane { lane < lane_count self.now }
        ensures checked { seat.new ≡ record seat.old { checked = checked_with (length seat.old.list) lane result seat.old.checked } }
        ensures low { last_touch E.lanes lane seat.old.list ≤ result }
        ensures high { result ≤ length seat.old.list + 1 }
        ensures known { IsTrue (is_among lane seat.old.checked) → result ≡ length seat.old.list + 1 }
    {
        self.table
            .shared
            .load::<Check>(&mut seat.seat, lane as usize + 1)
    }

    /// Puts an entry at the next place, and answers the place. Each lane that the entry touches
    /// has to be checked. It is one step on word 0, which always finds the number of the places
    /// before.
    pub fn append(&self, seat: &mut OrderSeat<E>, entry: E) -> u64
        requires run { seat.old.run ≡ self.now }
        requires room { length seat.old.list < 2 ^ 64 - 1 }
        requires checked { (lane : ℕ) → IsTrue (has_lane (E.lanes entry) lane) →
            IsTrue (is_among lane seat.old.checked) }
        ensures place { result ≡ length seat.old.list + 1 }
        ensures appended { seat.new ≡ record seat.old { list = seat.old.list ++ entry ∷ []; checked = [] } }
        ensures touched { (lane : ℕ) → IsTrue (has_lane (E.lanes entry) lane) →
            last_touch E.lanes lane seat.new.list ≡ result }
        ensures untouched { (lane : ℕ) → IsFalse (has_lane (E.lanes entry) lane) →
            last_touch E.lanes lane seat.new.list ≡ last_touch E.lanes lane seat.old.list }
    {
        let place = seat.places + 1;
        self.table
            .shared
            .compare_exchange_with::<Append>(&mut seat.seat, 0, seat.places, place, &entry);
        seat.places = place;
        place
    }

    /// The seat of a lane is at rest again, once it has learnt of the place that it announced.
    pub fn rest(&self, seat: &mut LaneSeat<E>)
        requires run { seat.old.run ≡ self.now }
        requires placed { seat.old.word ≤ last_touch E.lanes seat.old.lane seat.old.list }
        ensures rest { seat.new ≡ record seat.old { resting = true } }
        ensures last { last_touch E.lanes seat.old.lane seat.old.list ≡ seat.old.word }
    {
        self.table
            .shared
            .load::<Rest>(&mut seat.seat, seat.lane as usize + 1);
    }

    /// The word of any lane, as the seat of a lane finds it. No place that the seat knows touches
    /// that lane behind it.
    pub fn look(&self, seat: &mut LaneSeat<E>, lane: u32) -> u64
        requires run { seat.old.run ≡ self.now }
        requires lane { lane < lane_count self.now }
        ensures same { seat.new ≡ seat.old }
        ensures low { last_touch E.lanes lane seat.old.list ≤ result }
        ensures own { lane ≡ seat.old.lane → result ≡ seat.old.word }
    {
        self.table
            .shared
            .load::<Look>(&mut seat.seat, lane as usize + 1)
    }
}
