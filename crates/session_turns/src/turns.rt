//! The turns of all parties.

ghost use Rattle.std.specs.Prelude.{◌≡◌, ◌<◌, ◌^◌, length, true};
ghost use Rattle.lock_core.specs.Drawing.{has_other, may_go_on};
ghost use Rattle.lock_machine.specs.Machine.{State, is_enabled};
ghost use Rattle.session_turns.specs.Drawn.{Progress};
ghost use Rattle.session_turns.specs.Going.{Advances, AreGoing, HaveLost, HaveTold, TakesTurns, all_left};
ghost use Rattle.session_turns.specs.Running.{Scene};
ghost use Rattle.session_turns.specs.Taking.{CanGoOn, FaultsAreCounted, HaveCauses, IsRunning, StayWithin, TakesTurn};

use crate::answers::{answer_party, has_more, reply_in};
use crate::commits::{how_of, place_commit, stop_if};
use crate::replicas::Replicas;
use depot_rows::model::Place;
use lock_core::{LockCore, Turn};
use outside_api::{Clock, Disk, Gate, Sink};
use seeded_numbers::Draw;
use serial_depot::SerialDepot;
use session_loop::SessionRun;
use std::alloc::{AllocError, Global};

/// A run of parties by turns. Its methods take the clock that gave the moments of the requests.
pub(crate) struct Turns<D: Disk, K: Sink> {
    /// Whose turn it may be, and what the sessions have left, with the tables after the places so far.
    pub(crate) core: LockCore,
    /// The replicas, and what they have left.
    pub(crate) replicas: Replicas,
    /// How many commands each party has.
    pub(crate) totals: Vec<u32>,
    /// How far each party came.
    pub(crate) runs: Vec<SessionRun>,
    /// Where the replies of each party go.
    pub(crate) sinks: Vec<K>,
    /// The depot in files.
    pub(crate) depot: SerialDepot<D>,
    /// The places so far.
    pub(crate) order: Vec<Place>,
}

impl<D: Disk, K: Sink> Turns<D, K> {
    /// Makes the turn of a party's session: its event, or its commit, whose command is answered at once. Where its
    /// event isn't enabled, or all its commands are answered already, as in no run of a depot, it says that it made
    /// none.
    fn take_turn<C: Clock, G: Gate>(
        &mut self,
        alloc: Global,
        party: u32,
        clock: &C,
        gate: &G,
    ) -> bool
        requires can { CanGoOn D.says self.old }
        ensures can { CanGoOn D.says self.new }
        ensures turn { (scene : Scene) (s : State) →
            IsRunning D.says K.says (C.says.may_give clock.now) scene s self.old → is_enabled s party ≡ true →
            (result ≡ true) × TakesTurn D.says K.says (C.says.may_give clock.now) scene s party self.old self.new }
        ensures replicas { self.new.replicas ≡ self.old.replicas }
        ensures within { StayWithin K.says self.old self.new }
        ensures counted { FaultsAreCounted D.says self.old.depot self.new.depot self.old.order.items self.new.order.items }
    {
        let outcome = match self.core.turn(alloc, party) {
            Ok(Turn::Idle) => return false,
            Ok(Turn::Moved) => return true,
            Ok(Turn::Ready(outcome)) => Ok(outcome),
            Err(error) => Err(error),
        };
        let at = party as usize;
        if !has_more(&self.runs, &self.totals, at) {
            drop(outcome);
            return false;
        }
        let answer = place_commit(
            alloc,
            party,
            gate,
            outcome,
            &self.core,
            &mut self.depot,
            &mut self.order,
        );
        self.core
            .finish(party, how_of(&answer), self.depot.tables().archive_end());
        let failed = answer_party(at, reply_in(answer), &mut self.runs, &mut self.sinks);
        stop_if(&mut self.core, party, failed);
        true
    }

    /// Makes the turn of a replica that has commands left: it answers the next one. Where all its commands are answered
    /// already, as in no run of a depot, it does nothing and says so.
    fn take_replica_turn<C: Clock>(&mut self, alloc: Global, party: u32, clock: &C) -> bool
        requires can { CanGoOn D.says self.old }
        ensures can { CanGoOn D.says self.new }
        ensures turn { (scene : Scene) (p : Progress) →
            AreGoing D.says K.says (C.says.may_give clock.now) scene p self.old → has_other p.others party ≡ true →
            (result ≡ true) × Advances D.says K.says (C.says.may_give clock.now) scene p party self.old self.new }
        ensures within { StayWithin K.says self.old self.new }
        ensures told { HaveTold D.says self.old self.new }
        ensures faults { HaveCauses D.says self.old self.new }
        ensures lost { HaveLost D.says self.old self.new }
    {
        let at = party as usize;
        if !has_more(&self.runs, &self.totals, at) {
            return false;
        }
        let reply = self.replicas.reply(alloc, at, &mut self.depot);
        let failed = answer_party(at, reply, &mut self.runs, &mut self.sinks);
        self.replicas.count_turn(at, failed);
        true
    }

    /// Makes the turn of a party: of a replica that has commands left, or of a session. Where it can't go on, it does
    /// nothing and says so.
    fn advance<C: Clock, G: Gate>(&mut self, alloc: Global, party: u32, clock: &C, gate: &G) -> bool
        requires can { CanGoOn D.says self.old }
        ensures can { CanGoOn D.says self.new }
        ensures turn { (scene : Scene) (p : Progress) →
            AreGoing D.says K.says (C.says.may_give clock.now) scene p self.old →
            may_go_on p.machine p.others party ≡ true →
            (result ≡ true) × Advances D.says K.says (C.says.may_give clock.now) scene p party self.old self.new }
        ensures within { StayWithin K.says self.old self.new }
        ensures told { HaveTold D.says self.old self.new }
        ensures faults { HaveCauses D.says self.old self.new }
        ensures lost { HaveLost D.says self.old self.new }
    {
        if self.replicas.has_left(party) {
            self.take_replica_turn(alloc, party, clock)
        } else {
            self.take_turn(alloc, party, clock, gate)
        }
    }

    /// Makes the turns that the numbers after a seed draw, until no party may go on. A run has less than 2 to the 64 of
    /// them.
    pub(crate) fn take_all<C: Clock, G: Gate>(
        &mut self,
        alloc: Global,
        seed: u32,
        clock: &C,
        gate: &G,
    )
        requires can { CanGoOn D.says self.old }
        ensures can { CanGoOn D.says self.new }
        ensures turns { (scene : Scene) (p : Progress) →
            AreGoing D.says K.says (C.says.may_give clock.now) scene p self.old →
            length scene.sessions < 2 ^ 32 → all_left p < 2 ^ 64 →
            TakesTurns D.says K.says (C.says.may_give clock.now) scene seed p self.old self.new }
        ensures within { StayWithin K.says self.old self.new }
        ensures told { HaveTold D.says self.old self.new }
        ensures faults { HaveCauses D.says self.old self.new }
        ensures lost { HaveLost D.says self.old self.new }
    {
        let mut draw = Draw::new(seed);
        let mut turns = u64::MAX;
        'turns: while turns > 0 {
            let Some(party) = self.core.drawn(draw.next(), &self.replicas.others) else {
                return;
            };
            if !self.advance(alloc, party, clock, gate) {
                return;
            }
            turns -= 1;
        }
    }
}
