//! What is done with the seats of lanes under the lock of the order, in few calls.
ghost use Rattle.std.specs.Prelude.{◌≡◌, ◌+◌, ◌-◌, ◌^◌, ◌<◌, ◌≤◌, true, false, ◌∷◌, length, IsTrue};
ghost use mathlib.Core.List.{IsPrefix};
ghost use Rattle.order_words.specs.Lanes.{last_touch};
ghost use Rattle.order_words.specs.Seats.{checked_with};

use crate::lanes::Entry;
use crate::orders::Orders;
use crate::seats::{LaneSeat, OrderSeat};

impl<E: Entry> Orders<E> {
    // The seat of a lane learns the whole order.
    fn tell_all(&self, order: &mut OrderSeat<E>, lane: &mut LaneSeat<E>)
        requires { (order.old.run ≡ self.now) × (lane.old.run ≡ self.now) }
        ensures order { order.new ≡ record order.old { checked = checked_with (length order.old.list) lane.old.lane lane.old.word order.old.checked } }
        ensures lane { lane.new ≡ record lane.old { list = order.old.list } }
        ensures begins { IsPrefix lane.old.list order.old.list }
        ensures last { IsTrue lane.old.resting → last_touch E.lanes lane.old.lane order.old.list ≡ lane.old.word }
    {
        let known = self.lane_note(lane);
        self.order_meet(order, known);
        let whole = self.note(order);
        self.meet(lane, whole);
    }

    /// The seat of a lane at rest learns the whole order. It knew each place that touches its
    /// lane.
    pub fn learn(&self, order: &mut OrderSeat<E>, lane: &mut LaneSeat<E>)
        requires run { (order.old.run ≡ self.now) × (lane.old.run ≡ self.now) }
        requires rest { IsTrue lane.old.resting }
        ensures order { order.new ≡ order.old }
        ensures lane { lane.new ≡ record lane.old { list = order.old.list } }
        ensures begins { IsPrefix lane.old.list order.old.list }
        ensures last { last_touch E.lanes lane.old.lane order.old.list ≡ lane.old.word }
    {
        self.tell_all(order, lane);
    }

    /// The seat of a lane at rest learns the whole order and announces its next place, and the
    /// order's seat has the lane checked for it.
    pub fn announce_next(&self, order: &mut OrderSeat<E>, lane: &mut LaneSeat<E>)
        requires run { (order.old.run ≡ self.now) × (lane.old.run ≡ self.now) }
        requires rest { IsTrue lane.old.resting }
        requires room { length order.old.list < 2 ^ 64 - 1 }
        ensures order { order.new ≡ record order.old { checked = lane.old.lane ∷ order.old.checked } }
        ensures lane { lane.new ≡ record lane.old { list = order.old.list; word = length order.old.list + 1; resting = false } }
        ensures begins { IsPrefix lane.old.list order.old.list }
        ensures last { last_touch E.lanes lane.old.lane order.old.list ≡ lane.old.word }
    {
        self.learn(order, lane);
        self.announce(lane, order.places() + 1);
        let announced = self.lane_note(lane);
        self.order_meet(order, announced);
    }

    /// The seat of a lane learns the whole order, which has the place that it announced, and is at
    /// rest again.
    pub fn settle(&self, order: &mut OrderSeat<E>, lane: &mut LaneSeat<E>)
        requires run { (order.old.run ≡ self.now) × (lane.old.run ≡ self.now) }
        requires placed { lane.old.word ≤ last_touch E.lanes lane.old.lane order.old.list }
        ensures order { order.new ≡ order.old }
        ensures lane { lane.new ≡ record lane.old { list = order.old.list; resting = true } }
        ensures begins { IsPrefix lane.old.list order.old.list }
        ensures last { last_touch E.lanes lane.old.lane order.old.list ≡ lane.old.word }
    {
        self.tell_all(order, lane);
        self.rest(lane);
    }
}
