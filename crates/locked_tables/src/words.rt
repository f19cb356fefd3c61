//! The words of the order, which all threads share.
ghost use Rattle.std.specs.Prelude.{◌≡◌, ◌≤◌};
ghost use Rattle.order_words.specs.Seats.{lane_count};
ghost use Rattle.locked_tables.specs.Taken.{depot_lanes};

use crate::naming::Naming;
use crate::taken::Taken;
use order_words::Orders;
use std::marker::PhantomData;

/// The words of the run that `N` names. There is one for the order, one for each table, one for
/// the archive, one for the journal, and one for each party.
#[derive(Drop)]
pub struct OrderWords<N: Naming> {
    pub(crate) orders: Orders<Taken>,
    of: PhantomData<N>,
    ghost named: { orders ≡ N.run },
    ghost wide: { depot_lanes ≤ lane_count N.run },
}

impl<N: Naming> OrderWords<N> {
    /// These words.
    pub fn new(orders: Orders<Taken>) -> OrderWords<N>
        requires { (orders ≡ N.run) × (depot_lanes ≤ lane_count N.run) }
    {
        OrderWords {
            orders,
            of: PhantomData,
        }
    }
}
