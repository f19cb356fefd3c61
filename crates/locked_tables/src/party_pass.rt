//! The token of a party.
ghost use Rattle.std.specs.Prelude.{◌≡◌, ◌≤◌, [], length, IsTrue, IsFalse};
ghost use Rattle.order_words.specs.Seats.{fresh_lane};
ghost use Rattle.locked_tables.specs.Known.{HasPlaceLeft};
ghost use Rattle.locked_tables.specs.Taken.{IsParty, of_party, party_lane};

use crate::naming::Naming;
use crate::taken::Taken;
use order_words::LaneSeat;
use std::marker::{Model, PhantomData};

/// What a party knows: its number, the beginning of the order that it has seen, with each of its
/// own places, and how many more places it may have.
#[derive(Drop)]
pub struct PartyPass<N: Naming> {
    pub(crate) seat: LaneSeat<Taken>,
    pub(crate) party: u32,
    pub(crate) left: u64,
    of: PhantomData<N>,
}

impl<N: Naming> Model for PartyPass<N> {
    ghost use Rattle.std.specs.Prelude.{◌≡◌, ◌+◌, length};
    ghost use Rattle.locked_tables.specs.Known.{PartyKnown, at_rest};
    ghost use Rattle.locked_tables.specs.Taken.{IsParty, of_party, party_lane};

    ghost Value = { PartyKnown };

    ghost view = { λ p. record { party = p.party; list = p.seat.list } };

    ghost invariant = { λ p. (p.seat ≡ at_rest N.run (party_lane p.party) p.seat.list) × IsParty N.run p.party × (length (of_party p.party p.seat.list) + p.left ≡ N.places p.party) };
}

impl<N: Naming> PartyPass<N> {
    /// The pass of a party that knows no place, and how many it may have. Parties have the numbers
    /// from 1 to 16.
    pub fn new(seat: LaneSeat<Taken>, party: u32, left: u64) -> PartyPass<N>
        requires seat { seat ≡ fresh_lane N.run (party_lane party) }
        requires party { IsParty N.run party }
        requires left { left ≡ N.places party }
        ensures { result ≡ record { party = party; list = [] } }
    {
        PartyPass {
            seat,
            party,
            left,
            of: PhantomData,
        }
    }

    /// The party's number.
    pub fn party(&self) -> u32
        ensures party { result ≡ self.now.party }
        ensures of_run { IsParty N.run result }
    {
        self.party
    }

    /// Whether the party may have one more place.
    pub fn has_place_left(&self) -> bool
        ensures left { IsTrue result → HasPlaceLeft N.places self.now }
        ensures none { IsFalse result → N.places self.now.party ≤ length (of_party self.now.party self.now.list) }
    {
        0 < self.left
    }
}
