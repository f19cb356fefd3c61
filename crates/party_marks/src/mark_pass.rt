//! The token of a party.
ghost use Rattle.std.specs.Prelude.{◌≡◌, []};
ghost use Rattle.order_words.specs.Seats.{fresh_lane};
ghost use Rattle.party_marks.specs.Marks.{MayMark, has_marks, mark_lane};

use crate::mark::Mark;
use crate::marking::Marking;
use order_words::LaneSeat;
use std::marker::{Model, PhantomData};

/// What a party knows: its number, and a beginning of the list, which has all marks of the party.
#[derive(Drop)]
pub struct MarkPass<N: Marking> {
    pub(crate) seat: LaneSeat<Mark>,
    pub(crate) party: u32,
    pub(crate) marked: bool,
    of: PhantomData<N>,
}

impl<N: Marking> Model for MarkPass<N> {
    ghost use Rattle.std.specs.Prelude.{◌≡◌};
    ghost use Rattle.party_marks.specs.Known.{IsSeatOf, PassKnown};
    ghost use Rattle.party_marks.specs.Marks.{MayMark, has_marks};

    ghost Value = { PassKnown };

    ghost view = { λ p. record { party = p.party; list = p.seat.list } };

    ghost invariant = { λ p. IsSeatOf N.marks p.party p.seat × MayMark N.marks p.party × (p.marked ≡ has_marks p.party p.seat.list) };
}

impl<N: Marking> MarkPass<N> {
    /// The pass of a party that has made no mark. Parties have the numbers from 1 to 16.
    pub fn new(seat: LaneSeat<Mark>, party: u32) -> MarkPass<N>
        requires seat { seat ≡ fresh_lane N.marks (mark_lane party) }
        requires party { MayMark N.marks party }
        ensures { result ≡ record { party = party; list = [] } }
    {
        MarkPass {
            seat,
            party,
            marked: false,
            of: PhantomData,
        }
    }

    /// Whether the party has made a mark.
    pub fn has_marks(&self) -> bool
        ensures { result ≡ has_marks self.now.party self.now.list }
    {
        self.marked
    }
}
