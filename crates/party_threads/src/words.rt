//! The words of the orders of a run.

ghost use Rattle.std.specs.Prelude.{◌≤◌, IfOk};
ghost use Rattle.party_threads.specs.Words.{AreFreshWords, HasFreshLanes};

use locked_tables::Taken;
use order_words::{Entry, LaneSeat, OrderSeat, Orders};
use party_marks::Mark;
use std::alloc::{AllocError, Global};

/// The words of one order, with the seats from which they are written.
#[derive(Drop)]
pub(crate) struct OrderWords<E: Entry> {
    /// The words, which all threads share.
    pub(crate) orders: Orders<E>,
    /// The seat at the end of the order.
    pub(crate) order: OrderSeat<E>,
    /// The seats of the lanes.
    pub(crate) lanes: Vec<LaneSeat<E>>,
}

impl<E: Entry> OrderWords<E> {
    /// The words of an order without places, with so many lanes. The one error is want of memory.
    fn new(alloc: Global, lanes: u32) -> Result<OrderWords<E>, AllocError>
        requires { (1 ≤ lanes) × (lanes ≤ 32) }
        ensures { IfOk result (HasFreshLanes lanes) }
    {
        let (orders, order, lanes) = Orders::new(alloc, lanes)?;
        Ok(OrderWords {
            orders,
            order,
            lanes,
        })
    }
}

/// The words of a run.
#[derive(Drop)]
pub(crate) struct RunWords {
    /// Those of the order of all places.
    pub(crate) places: OrderWords<Taken>,
    /// Those of the marks of the journal's disk.
    pub(crate) marks: OrderWords<Mark>,
    /// Those of the marks of the archive's disk.
    pub(crate) content_marks: OrderWords<Mark>,
}

impl RunWords {
    /// The words of a run of so many parties before its first place and mark. The one error is want of memory.
    pub(crate) fn new(alloc: Global, parties: u32) -> Result<RunWords, AllocError>
        requires { parties ≤ 16 }
        ensures { IfOk result (AreFreshWords parties) }
    {
        Ok(RunWords {
            places: OrderWords::new(alloc, 13 + parties)?,
            marks: OrderWords::new(alloc, 1 + parties)?,
            content_marks: OrderWords::new(alloc, 1 + parties)?,
        })
    }
}
