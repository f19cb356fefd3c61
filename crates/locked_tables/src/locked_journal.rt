//! What lies behind the lock of the journal.
ghost use Rattle.std.specs.Prelude.{◌≡◌, []};
ghost use Rattle.order_words.specs.Seats.{fresh_lane};
ghost use Rattle.locked_tables.specs.Taken.{journal_lane};

use crate::naming::Naming;
use crate::taken::Taken;
use order_words::LaneSeat;
use std::marker::{Model, PhantomData};

/// The seat of the journal's lane. Contracts see a beginning of the order, behind which no place
/// touches the journal's lane: the journal is as it was after these places.
#[derive(Drop)]
pub struct LockedJournal<N: Naming> {
    pub(crate) seat: LaneSeat<Taken>,
    of: PhantomData<N>,
}

impl<N: Naming> Model for LockedJournal<N> {
    ghost use Rattle.std.specs.Prelude.{◌≡◌, List};
    ghost use Rattle.locked_tables.specs.Known.{at_rest};
    ghost use Rattle.locked_tables.specs.Taken.{journal_lane};
    ghost use Rattle.locked_tables.specs.declared.taken.Taken.{Taken};

    ghost Value = { List Taken };

    ghost view = { λ j. j.seat.list };

    ghost invariant = { λ j. j.seat ≡ at_rest N.run journal_lane j.seat.list };
}

impl<N: Naming> LockedJournal<N> {
    /// The journal as it was when the order was empty.
    pub fn new(seat: LaneSeat<Taken>) -> LockedJournal<N>
        requires { seat ≡ fresh_lane N.run journal_lane }
        ensures { result ≡ [] }
    {
        LockedJournal {
            seat,
            of: PhantomData,
        }
    }
}
