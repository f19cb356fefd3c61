//! What is done with the seats of lanes under the lock of the order.
ghost use Rattle.std.specs.Prelude.{◌≡◌, ◌+◌, ◌-◌, ◌^◌, ◌<◌, ◌≤◌, ℕ, [], ◌∷◌, ◌++◌, length, drop, slice_index_or, if◌then◌else◌, IsTrue};
ghost use Rattle.std.specs.List.{AllByRecursion};
ghost use Rattle.order_words.specs.Lanes.{has_lane};
ghost use Rattle.locked_tables.specs.Known.{IsStill};
ghost use Rattle.locked_tables.specs.Held.{AllHaveLearnt, AllNext, AllStill, HasLearnt, HaveLearntFrom, known_of, lanes_next};
ghost use Rattle.locked_tables.specs.Placing.{AddsLanes, IsAnnounced, IsReadyFor};

use crate::held_table::HeldTable;
use crate::naming::Naming;
use crate::taken::Taken;
use crate::words::OrderWords;
use order_words::{LaneSeat, OrderSeat, with_lane};

/// A held table learns the whole order, and is after it as it was after the places that it knew.
fn learn_table<N: Naming>(
    words: &OrderWords<N>,
    order: &mut OrderSeat<Taken>,
    held: &mut HeldTable<'_, N>,
)
    requires { order.old.run ≡ N.run }
    ensures order { order.new ≡ order.old }
    ensures learnt { HasLearnt order.old.list held.old held.new }
    ensures still { IsStill N.rows order.old.list (known_of held.old) }
{
    let table = &mut *held.guard;
    words.orders.learn(order, &mut table.seat);
}

/// So does each of them from an index on.
fn learn_from<N: Naming>(
    words: &OrderWords<N>,
    order: &mut OrderSeat<Taken>,
    held: &mut [HeldTable<'_, N>],
    from: usize,
)
    requires { order.old.run ≡ N.run }
    ensures order { order.new ≡ order.old }
    ensures learnt { HaveLearntFrom from order.old.list held.old held.new }
    ensures still { AllStill N.rows order.old.list (drop from held.old) }
{
    if from < held.len() {
        learn_table(words, order, &mut held[from]);
        learn_from(words, order, held, from + 1);
    }
}

/// So does each of them.
pub(crate) fn learn_tables<N: Naming>(
    words: &OrderWords<N>,
    order: &mut OrderSeat<Taken>,
    held: &mut [HeldTable<'_, N>],
)
    requires { order.old.run ≡ N.run }
    ensures order { order.new ≡ order.old }
    ensures learnt { AllHaveLearnt order.old.list held.old held.new }
    ensures still { AllStill N.rows order.old.list held.old }
{
    learn_from(words, order, held, 0);
}

/// Announces that the next place will touch the lane of a seat, which is checked then. Answers the
/// lanes that it touches already, each of which is checked, with this one.
pub(crate) fn announce_lane<N: Naming>(
    words: &OrderWords<N>,
    order: &mut OrderSeat<Taken>,
    seat: &mut LaneSeat<Taken>,
    lanes: u32,
) -> u32
    requires ready { IsReadyFor N.run lanes order.old }
    requires run { seat.old.run ≡ N.run }
    requires rest { IsTrue seat.old.resting }
    requires low { seat.old.lane < 32 }
    ensures ready { IsReadyFor N.run result order.new }
    ensures announced { IsAnnounced lanes result order.old order.new seat.old seat.new }
{
    words.orders.announce_next(order, seat);
    with_lane(lanes, seat.lane())
}

/// Gives a command the next place, which touches the lanes that it has already, each of which is
/// checked, and the lane of each held table that is changed; the next version takes the place of
/// that table's. Answers all these lanes.
pub(crate) fn place_tables<N: Naming>(
    words: &OrderWords<N>,
    order: &mut OrderSeat<Taken>,
    held: &mut [HeldTable<'_, N>],
    lanes: u32,
    taken: Taken,
) -> u32
    requires ready { IsReadyFor N.run lanes order.old }
    requires next { AllNext N.rows taken.changes held.old }
    ensures order { order.new ≡ record order.old { list = order.old.list ++ record taken { lanes = result } ∷ []; checked = [] } }
    ensures lanes { AddsLanes lanes (lanes_next held.old) result }
{
    match held.split_first_mut() {
        None => {
            words.orders.append(order, taken.touching(lanes));
            lanes
        }
        Some((first, rest)) => match first.next.take() {
            None => place_tables(words, order, rest, lanes, taken),
            Some(version) => {
                let table = &mut *first.guard;
                let more = announce_lane(words, order, &mut table.seat, lanes);
                let all = place_tables(words, order, rest, more, taken);
                words.orders.settle(order, &mut table.seat);
                table.version = version;
                all
            }
        },
    }
}

/// The last places that touched the tables, once a place that touches these lanes is behind them.
pub(crate) fn touch_tables(touched: &mut [u64; 11], lanes: u32, place: u64)
    ensures { (n : ℕ) → n < 11 →
        slice_index_or touched.new n 0 ≡ (if has_lane lanes n then place else slice_index_or touched.old n 0) }
{
    for number in 0..11 {
        if (lanes >> number) % 2 == 1 {
            touched[number] = place;
        }
    }
}
