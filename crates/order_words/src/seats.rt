//! The seats of the order and of its lanes, and the notes that carry what they know.
ghost use Rattle.std.specs.Prelude.{◌≡◌, length, IsTrue};
ghost use Rattle.order_words.specs.Lanes.{last_touch};

use crate::lanes::Entry;
use crate::view::View;
use atomic_table::Seat;
use std::marker::Model;

/// The one seat of the order. Contracts see the whole order, how many lanes are made, and which
/// are checked for the next place.
#[derive(Drop)]
pub struct OrderSeat<E: Entry> {
    pub(crate) seat: Seat<E, View<E>>,
    pub(crate) places: u64,
}

impl<E: Entry> Model for OrderSeat<E> {
    ghost use Rattle.std.specs.Prelude.{◌≡◌, [], length};
    ghost use Rattle.order_words.specs.Seats.{OrderState, order_coded};
    ghost use Rattle.order_words.specs.Plays.{order_state, order_view};

    ghost Value = { OrderState E };

    ghost coded = { order_coded E.code };

    ghost view = { λ s. order_state s.seat.table_id s.seat.me.0 };

    ghost invariant = { λ s. (s.seat.me ≡ (order_view (order_state s.seat.table_id s.seat.me.0), [])) × (s.places ≡ length s.seat.me.0.list) };
}

/// The seat of a lane. Contracts see a beginning of the order, the number in the lane's word, and
/// whether the seat is at rest. At rest that number is the last place of the list that touches the
/// lane; otherwise it is the place for which the lane is announced.
#[derive(Drop)]
pub struct LaneSeat<E: Entry> {
    pub(crate) seat: Seat<E, View<E>>,
    pub(crate) lane: u32,
}

impl<E: Entry> Model for LaneSeat<E> {
    ghost use Rattle.std.specs.Prelude.{◌≡◌, ◌+◌, ◌<◌, [], true};
    ghost use Rattle.order_words.specs.Lanes.{last_touch};
    ghost use Rattle.order_words.specs.Seats.{LaneState, lane_coded};
    ghost use Rattle.order_words.specs.Plays.{lane_state, lane_view, lane_of, word_of, resting_of};

    ghost Value = { LaneState E };

    ghost coded = { lane_coded E.code };

    ghost view = { λ s. lane_state s.seat.table_id s.seat.me.0 };

    ghost invariant = { λ s. (s.seat.me ≡ (lane_view (lane_state s.seat.table_id s.seat.me.0), [])) × (s.lane ≡ lane_of s.seat.me.0.role) × (s.lane + 1 < s.seat.table_id.words) × (resting_of s.seat.me.0.role ≡ true → last_touch E.lanes (lane_of s.seat.me.0.role) s.seat.me.0.list ≡ word_of s.seat.me.0.role) };
}

/// What a seat knew when it was asked, for another seat to meet. A note may go to another thread.
/// Contracts see a beginning of the order, and the number that the word of a lane had.
#[derive(Drop)]
pub struct Note<E: Entry> {
    pub(crate) seat: Seat<E, View<E>>,
}

impl<E: Entry> Model for Note<E> {
    ghost use Rattle.std.specs.Prelude.{◌≡◌, []};
    ghost use Rattle.order_words.specs.Seats.{NoteState, note_coded};
    ghost use Rattle.order_words.specs.Plays.{note_state, note_view};

    ghost Value = { NoteState E };

    ghost coded = { note_coded E.code };

    ghost view = { λ s. note_state s.seat.table_id s.seat.me.0 };

    ghost invariant = { λ s. s.seat.me ≡ (note_view (note_state s.seat.table_id s.seat.me.0), []) };
}

impl<E: Entry> OrderSeat<E> {
    /// How many places the order has.
    pub fn places(&self) -> u64
        ensures { result ≡ length self.now.list }
    {
        self.places
    }
}

impl<E: Entry> LaneSeat<E> {
    /// Its lane.
    pub fn lane(&self) -> u32
        ensures lane { result ≡ self.now.lane }
        ensures rests { IsTrue self.now.resting → last_touch E.lanes self.now.lane self.now.list ≡ self.now.word }
    {
        self.lane
    }
}
