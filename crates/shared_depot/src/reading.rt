//! How the reply to a command is printed, with the contents that it waits for.
ghost use Rattle.std.specs.Prelude.{◌≡◌, IfOk, IfSome, OnErr};
ghost use Rattle.depot_rows.specs.depot_model.declared.request.Request.{Request as AnyRequest};
ghost use Rattle.shared_depot.specs.Asked.{IfTold, IsAsked, IsReadingOf, IsReplyOver};
ghost use Rattle.shared_depot.specs.Room.{IsToldAfter};

use crate::serving::Serving;
use crate::shared::SharedDepot;
use crate::stored_archive::StoredArchive;
use command_core::Outcome;
use depot_commit::{Told, tell, tell_reading};
use depot_rows::model::{Answer, Request};
use locked_tables::PartyPass;
use outside_api::Disk;
use std::alloc::{AllocError, Global};
use std::sync::{MutexGuard, Wait};

/// What became of a command whose reply was to be printed.
#[derive(Drop)]
pub(crate) enum Reading {
    /// It is printed, with all contents that it waits for.
    Told(Told),
    /// One of them couldn't be read, and the command has its place.
    Placed(Answer),
}

impl<D: Disk, N: Serving> StoredArchive<D, N> {
    /// Reads the contents that the reply of an outcome waits for, and prints it. Where one couldn't be
    /// read, the command gets its place, under the lock of the order: that of a fault, whatever the tables
    /// are. The one error is want of memory; it also stands for an outcome that no text says, and for one
    /// that reads behind what is used of the archive.
    pub(crate) fn tell<R: Wait>(
        &mut self,
        rt: &R,
        depot: &SharedDepot<D, N>,
        alloc: Global,
        pass: &mut PartyPass<N>,
        outcome: Outcome,
        number: u32,
        asked: &mut Option<Request>,
    ) -> Result<Reading, AllocError>
        requires { (is : IsAsked N.places N.begins pass.old asked.old) × (is.request.number ≡ number) }
        ensures reading { IfOk result (IsReadingOf N.begins pass.old pass.new asked.old asked.new outcome number) }
        ensures over { IfOk result (IfTold (λ told. (self.new ≡ self.old) × ((request : AnyRequest) → request.number ≡ number →
            IsToldAfter N.end N.images N.begins self.old request outcome told))) }
        ensures nothing { OnErr result ((pass.new ≡ pass.old) × (asked.new ≡ asked.old)) }
    {
        let told = tell_reading(alloc, &mut self.archive, outcome, number)?;
        if !told.is_unread() {
            return Ok(Reading::Told(told));
        }
        let request = asked.take().unwrap();
        let mut guard = depot.common.lock(rt);
        let held = &mut *guard;
        held.learn_archive(&depot.words, &mut self.lane);
        let end = self.lane.end();
        let answer = held.place_quiet(
            &depot.words,
            alloc,
            pass,
            &mut self.lane,
            end,
            told,
            request,
        );
        Ok(Reading::Placed(answer))
    }
}

impl<D: Disk, N: Serving> SharedDepot<D, N> {
    /// Prints the reply of an outcome, with the contents that it waits for; where it waits for some, or the
    /// lock of the archive is held, under that lock. The one error is that of `tell`.
    pub(crate) fn tell_over<'a, R: Wait>(
        &'a self,
        rt: &R,
        alloc: Global,
        pass: &mut PartyPass<N>,
        archive: Option<MutexGuard<'a, StoredArchive<D, N>>>,
        outcome: Outcome,
        number: u32,
        asked: &mut Option<Request>,
    ) -> Result<(Reading, Option<MutexGuard<'a, StoredArchive<D, N>>>), AllocError>
        requires { (is : IsAsked N.places N.begins pass.old asked.old) × (is.request.number ≡ number) }
        ensures reading { IfOk result (λ r. IsReadingOf N.begins pass.old pass.new asked.old asked.new outcome number r.0) }
        ensures over { IfOk result (λ r. IfTold (IsReplyOver N.end N.images N.begins archive.entry r.1 outcome number) r.0) }
        ensures nothing { OnErr result ((pass.new ≡ pass.old) × (asked.new ≡ asked.old)) }
    {
        let mut guard = match archive {
            None if outcome.reads.is_empty() => {
                let told = tell(alloc, outcome, number)?;
                return Ok((Reading::Told(told), None));
            }
            None => self.archive.lock(rt),
            Some(guard) => guard,
        };
        let reading = guard.tell(rt, self, alloc, pass, outcome, number, asked)?;
        Ok((reading, Some(guard)))
    }
}
