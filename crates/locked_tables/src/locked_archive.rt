//! What lies behind the lock of the archive.
ghost use Rattle.std.specs.Prelude.{◌≡◌, ◌≤◌, ◌-◌, ◌^◌, []};
ghost use Rattle.order_words.specs.Seats.{fresh_lane};
ghost use Rattle.locked_tables.specs.Taken.{archive_lane, end_after};

use crate::naming::Naming;
use crate::taken::Taken;
use order_words::LaneSeat;
use std::marker::{Model, PhantomData};

/// How many bytes of the archive are used, with the seat of the archive's lane. Contracts see a
/// beginning of the order: so many are used after these places, which are all that touch the
/// archive's lane.
#[derive(Drop)]
pub struct LockedArchive<N: Naming> {
    pub(crate) seat: LaneSeat<Taken>,
    pub(crate) end: u64,
    of: PhantomData<N>,
}

impl<N: Naming> Model for LockedArchive<N> {
    ghost use Rattle.std.specs.Prelude.{◌≡◌, ◌≤◌, ◌-◌, ◌^◌, List};
    ghost use Rattle.locked_tables.specs.Known.{at_rest};
    ghost use Rattle.locked_tables.specs.Taken.{archive_lane, end_after};
    ghost use Rattle.locked_tables.specs.declared.taken.Taken.{Taken};

    ghost Value = { List Taken };

    ghost view = { λ a. a.seat.list };

    ghost invariant = { λ a. (a.seat ≡ at_rest N.run archive_lane a.seat.list) × (a.end ≡ end_after N.end a.seat.list) × (a.end ≤ 2 ^ 63 - 1) };
}

impl<N: Naming> LockedArchive<N> {
    /// The archive as it was when the order was empty.
    pub fn new(seat: LaneSeat<Taken>, end: u64) -> LockedArchive<N>
        requires seat { seat ≡ fresh_lane N.run archive_lane }
        requires end { end ≡ N.end }
        requires fits { end ≤ 2 ^ 63 - 1 }
        ensures { result ≡ [] }
    {
        LockedArchive {
            seat,
            end,
            of: PhantomData,
        }
    }

    /// How many of its bytes are used: where the next content goes.
    pub fn end(&self) -> u64
        ensures end { result ≡ end_after N.end self.now }
        ensures fits { result ≤ 2 ^ 63 - 1 }
    {
        self.end
    }
}
