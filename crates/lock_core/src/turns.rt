//! The turns of all parties.

ghost use Rattle.std.specs.Prelude.{◌≡◌, not, IfOk, OnErr, List};
ghost use Rattle.std.specs.List.{list_any};
ghost use Rattle.depot_rows.specs.depot_model.Deeds.{Deed};
ghost use Rattle.depot_rows.specs.depot_model.declared.request.Request.{Request as ModelRequest};
ghost use Rattle.lock_machine.specs.Machine.{State, is_enabled, is_unfinished};
ghost use Rattle.lock_core.specs.Core.{IsAsBefore, IsCommit, IsTurn, Shows, is_working, may_wait, wait_at};
ghost use Rattle.lock_core.specs.Parties.{holds};

use crate::machine::LockCore;
use crate::party::{Party, Wait};
use crate::turn::Turn;
use depot_rows::model::LockId;
use depot_rows::tables::Tables;
use std::alloc::{AllocError, Global};

/// Whether one of these parties owns a lock.
fn any_owns(parties: &[Party], lock: LockId) -> bool
    ensures { result ≡ list_any (holds lock) parties.now }
{
    for party in parties {
        if party.owns(lock) {
            return true;
        }
    }
    false
}

impl Party {
    /// Whether it has a command at hand or left.
    fn is_working(&self) -> bool
        ensures { result ≡ is_working self.now }
    {
        match self.waits() {
            Wait::Never => false,
            Wait::Now | Wait::For(_) => true,
        }
    }
}

/// Whether one of these parties has a command at hand or left.
fn any_working(parties: &[Party]) -> bool
    ensures { result ≡ list_any is_working parties.now }
{
    for party in parties {
        if party.is_working() {
            return true;
        }
    }
    false
}

impl LockCore {
    /// The tables after the places so far.
    pub fn tables(&self) -> &Tables
        ensures { result.now ≡ self.now.tables }
    {
        &self.tables
    }

    /// Whether no party owns a lock.
    fn is_free(&self, lock: LockId) -> bool
        ensures { result ≡ not (list_any (holds lock) self.now.parties.items) }
    {
        !any_owns(&self.parties, lock)
    }

    /// For what a party waits; one that isn't there never goes on.
    fn wait_of(&self, party: u32) -> Wait
        ensures { result ≡ wait_at self.now.parties.items party }
    {
        match self.parties.get(party as usize) {
            None => Wait::Never,
            Some(party) => party.waits(),
        }
    }

    /// Whether a party may go on.
    pub(crate) fn may_go(&self, party: u32) -> bool
        ensures { result ≡ may_wait self.now.parties.items (wait_at self.now.parties.items party) }
    {
        match self.wait_of(party) {
            Wait::Never => false,
            Wait::Now => true,
            Wait::For(lock) => self.is_free(lock),
        }
    }

    /// Whether the next event of a party is enabled.
    pub fn enabled(&self, party: u32) -> bool
        ensures { (start : List Deed) (s : State) → Shows start self.now s → result ≡ is_enabled s party }
    {
        self.may_go(party)
    }

    /// Whether some party has a command at hand or left.
    pub fn unfinished(&self) -> bool
        ensures { (start : List Deed) (s : State) → Shows start self.now s → result ≡ list_any is_unfinished s.parties }
    {
        any_working(&self.parties)
    }

    /// Makes a party's event, if it is enabled; but its commit, for which it answers the outcome, is left to `finish`.
    /// The one error is want of memory, where a commit is at hand, and then nothing is changed: `finish` may end it
    /// without a place.
    pub fn turn(&mut self, alloc: Global, party: u32) -> Result<Turn, AllocError>
        ensures turn { IfOk result (λ turn. (start : List Deed) (s : State) → Shows start self.old s →
            IsTurn start s self.old self.new party turn) }
        ensures same { OnErr result (IsAsBefore self.old self.new) }
        ensures commit { OnErr result ((start : List Deed) (s : State) → Shows start self.old s →
            (request : ModelRequest) × IsCommit start s self.new party request) }
    {
        if !self.may_go(party) {
            return Ok(Turn::Idle);
        }
        let turn = self.parties[party as usize].turn(alloc, &self.tables)?;
        Ok(turn)
    }
}
