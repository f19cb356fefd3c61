//! The order of places, of which memory holds a word a lane.
ghost use Rattle.std.specs.Prelude.{◌≡◌};
ghost use Rattle.order_words.specs.Seats.{lane_count, fresh_order, fresh_lane};

use order_words::{Entry, LaneSeat, OrderSeat, Orders};
use std::test::Fail;

/// A place that touches these lanes.
#[derive(Drop)]
struct Place {
    lanes: u32,
}

impl Entry for Place {
    ghost lanes = { λ place. place.lanes };

    fn lanes(&self) -> u32 {
        self.lanes
    }
}

/// Whether the first place of an order of three lanes, which touches the first of them, is announced, checked and put
/// there, and the seat of the second lane then finds it in the word of the first lane and not in that of the third.
fn places_first(
    orders: &Orders<Place>,
    order: &mut OrderSeat<Place>,
    first: &mut LaneSeat<Place>,
    second: &mut LaneSeat<Place>,
) -> bool
    requires lanes { lane_count orders.now ≡ 3 }
    requires order { order.old ≡ fresh_order orders.now 3 }
    requires first { first.old ≡ fresh_lane orders.now 0 }
    requires second { second.old ≡ fresh_lane orders.now 1 }
{
    orders.announce(first, 1);
    if orders.check(order, 0) != 1 {
        return false;
    }
    let place = orders.append(order, Place { lanes: 1 });
    let note = orders.note(order);
    orders.meet(first, note);
    orders.rest(first);
    place == 1 && orders.look(second, 0) == 1 && orders.look(second, 2) == 0
}

#[test]
fn a_place_is_seen_in_the_words_of_the_lanes_that_it_touches(rt: HostRuntime) -> Result<(), Fail> {
    let (orders, mut order, mut seats) = Orders::new(rt.alloc(), 3)?;
    let is_placed = match seats.as_mut_slice() {
        [first, second, _] => places_first(&orders, &mut order, first, second),
        _ => false,
    };
    drop(seats);
    drop(order);
    drop(orders);
    assert!(rt; is_placed);
    Ok(())
}
