//! The lanes of the archive and of the journal, for a command that holds their locks and for one that
//! doesn't.
ghost use Rattle.std.specs.Prelude.{◌≡◌, ◌≤◌, ◌-◌, ◌^◌, ◌++◌, ◌∷◌, List, Bool, true, false};
ghost use Rattle.locked_tables.specs.Held.{lanes_next};
ghost use Rattle.locked_tables.specs.Known.{LearnsPlace};
ghost use Rattle.locked_tables.specs.Placing.{AddsLanes, CanPlace, IsPlaced, IsReadyFor, lane_where, lanes_held};
ghost use Rattle.locked_tables.specs.Taken.{archive_lane, journal_lane, party_lane};
ghost use Rattle.locked_tables.specs.declared.taken.Taken.{Taken as AnyTaken};

use crate::held_table::HeldTable;
use crate::locked_archive::LockedArchive;
use crate::locked_journal::LockedJournal;
use crate::naming::Naming;
use crate::party_pass::PartyPass;
use crate::placing::{announce_lane, place_tables};
use crate::taken::Taken;
use crate::words::OrderWords;
use order_words::OrderSeat;

/// No lane: the lock isn't held.
#[derive(Drop)]
pub struct NoLane;

/// The journal's lane, or none.
pub trait JournalLane<N: Naming> {
    /// Whether it is the journal's.
    ghost is_held: { Bool };

    /// What is learnt of a place: of the order before and after it, and of the lane before and after.
    ghost Learns: { List AnyTaken → List AnyTaken → Self → Self → Type 0 };

    /// Gives a command of a party the next place, which touches the lanes that it has already, each of
    /// which is checked, this lane, the party's, and the lane of each held table that is changed; the
    /// next version takes the place of that table's. The party may have one place less then. Answers all
    /// these lanes.
    fn place_from(
        &mut self,
        words: &OrderWords<N>,
        order: &mut OrderSeat<Taken>,
        held: &mut [HeldTable<'_, N>],
        pass: &mut PartyPass<N>,
        lanes: u32,
        taken: Taken,
    ) -> u32
        requires ready { IsReadyFor N.run lanes order.old }
        requires can { CanPlace N.rows N.places held.old pass.old taken }
        ensures placed { IsPlaced N.run order.old order.new pass.old pass.new (record taken { lanes = result }) }
        ensures lanes { AddsLanes lanes (lane_where is_held journal_lane ++ party_lane pass.old.party ∷ lanes_next held.old) result }
        ensures journal { Learns order.old.list order.new.list self.old self.new };
}

/// The archive's lane, or none.
pub trait ArchiveLane<N: Naming> {
    /// Whether it is the archive's.
    ghost is_held: { Bool };

    /// What is learnt of a place: of the order before and after it, and of the lane before and after.
    ghost Learns: { List AnyTaken → List AnyTaken → Self → Self → Type 0 };

    /// Gives a command of a party the next place, which touches this lane, the journal's, if it is held,
    /// the party's, and the lane of each held table that is changed; the next version takes the place of
    /// that table's. As much of the archive is used then as the command says. Answers all these lanes.
    fn place<J: JournalLane<N>>(
        &mut self,
        words: &OrderWords<N>,
        order: &mut OrderSeat<Taken>,
        held: &mut [HeldTable<'_, N>],
        journal: &mut J,
        pass: &mut PartyPass<N>,
        taken: Taken,
    ) -> u32
        requires ready { IsReadyFor N.run 0 order.old }
        requires can { CanPlace N.rows N.places held.old pass.old taken }
        requires fits { is_held ≡ true → taken.end ≤ 2 ^ 63 - 1 }
        ensures placed { IsPlaced N.run order.old order.new pass.old pass.new (record taken { lanes = result }) }
        ensures lanes { AddsLanes 0 (lanes_held is_held J.is_held ++ party_lane pass.old.party ∷ lanes_next held.old) result }
        ensures archive { Learns order.old.list order.new.list self.old self.new }
        ensures journal { J.Learns order.old.list order.new.list journal.old journal.new };
}

impl<N: Naming> JournalLane<N> for NoLane {
    ghost is_held = { false };

    ghost Learns = { λ before after old new. Unit {0} };

    fn place_from(
        &mut self,
        words: &OrderWords<N>,
        order: &mut OrderSeat<Taken>,
        held: &mut [HeldTable<'_, N>],
        pass: &mut PartyPass<N>,
        lanes: u32,
        taken: Taken,
    ) -> u32 {
        let more = announce_lane(words, order, &mut pass.seat, lanes);
        let all = place_tables(words, order, held, more, taken);
        words.orders.settle(order, &mut pass.seat);
        pass.left -= 1;
        all
    }
}

impl<N: Naming> JournalLane<N> for LockedJournal<N> {
    ghost is_held = { true };

    ghost Learns = { LearnsPlace journal_lane };

    fn place_from(
        &mut self,
        words: &OrderWords<N>,
        order: &mut OrderSeat<Taken>,
        held: &mut [HeldTable<'_, N>],
        pass: &mut PartyPass<N>,
        lanes: u32,
        taken: Taken,
    ) -> u32 {
        let more = announce_lane(words, order, &mut self.seat, lanes);
        let all = NoLane.place_from(words, order, held, pass, more, taken);
        words.orders.settle(order, &mut self.seat);
        all
    }
}

impl<N: Naming> ArchiveLane<N> for NoLane {
    ghost is_held = { false };

    ghost Learns = { λ before after old new. Unit {0} };

    fn place<J: JournalLane<N>>(
        &mut self,
        words: &OrderWords<N>,
        order: &mut OrderSeat<Taken>,
        held: &mut [HeldTable<'_, N>],
        journal: &mut J,
        pass: &mut PartyPass<N>,
        taken: Taken,
    ) -> u32 {
        journal.place_from(words, order, held, pass, 0, taken)
    }
}

impl<N: Naming> ArchiveLane<N> for LockedArchive<N> {
    ghost is_held = { true };

    ghost Learns = { LearnsPlace archive_lane };

    fn place<J: JournalLane<N>>(
        &mut self,
        words: &OrderWords<N>,
        order: &mut OrderSeat<Taken>,
        held: &mut [HeldTable<'_, N>],
        journal: &mut J,
        pass: &mut PartyPass<N>,
        taken: Taken,
    ) -> u32 {
        let end = taken.end;
        let lanes = announce_lane(words, order, &mut self.seat, 0);
        let all = journal.place_from(words, order, held, pass, lanes, taken);
        words.orders.settle(order, &mut self.seat);
        self.end = end;
        all
    }
}
