//! How a command whose reply is printed gets its place.
ghost use Rattle.std.specs.Prelude.{◌≡◌, ◌≢◌, ◌≤◌, [], false, true, None, Some, IfOk, IsOkUnless, OnErr};
ghost use Rattle.depot_rows.specs.depot_model.declared.request.Request.{Request as AnyRequest};
ghost use Rattle.shared_depot.specs.Asked.{IsAsked, IsSettled, IsToldOver, IsTried, MayTake};
ghost use Rattle.shared_depot.specs.Room.{IsAtOrder, IsStoredBehind, IsWritingFor};
ghost use Rattle.shared_depot.specs.Sharing.{IsTakenAt};
ghost use Rattle.shared_depot.specs.Stored.{stored_end};
ghost use Rattle.shared_depot.specs.declared.unplaced.Unplaced.TheVariants as unplaced;

use crate::serving::Serving;
use crate::settling::Settled;
use crate::shared::SharedDepot;
use crate::stored_archive::StoredArchive;
use crate::unplaced::Unplaced;
use crate::writing::Writing;
use crate::written_journal::{WrittenJournal, share_tables};
use depot_commit::{NoArchive, Store, Told, place};
use depot_rows::changes::change_tables;
use depot_rows::model::{Answer, Request};
use depot_rows::tables::Tables;
use locked_tables::{ArchiveLane, NoLane, PartyPass, Taken};
use outside_api::Disk;
use std::alloc::{AllocError, Global};
use std::sync::{MutexGuard, Wait};
use table_locks::Gathered;

/// The tables that are shown after a place: others, where no disk failed at it.
fn show(tables: &mut Tables, shown: Tables, fault: bool)
    ensures same { fault ≡ true → tables.new ≡ tables.old }
    ensures shown { fault ≡ false → tables.new ≡ shown }
{
    if fault {
        drop(shown);
    } else {
        *tables = shown;
    }
}

impl<D: Disk, N: Serving> SharedDepot<D, N> {
    /// Gives the command that is asked its place, of which this is told over what it has gathered, where
    /// that is still so: under the lock of the order where nothing more is written, and else, once it is
    /// committed, under that of the journal, whose lane has learnt the whole order then.
    pub(crate) fn place_told<'a, R: Wait>(
        &'a self,
        rt: &R,
        alloc: Global,
        pass: &mut PartyPass<N>,
        gathered: Gathered<'a, N>,
        archive: Option<MutexGuard<'a, StoredArchive<D, N>>>,
        told: Told,
        asked: &mut Option<Request>,
    ) -> Result<Answer, Unplaced>
        requires { (is : IsAsked N.places N.begins pass.old asked.old) ×
            IsToldOver N.rows N.end N.images N.begins gathered archive told is.request }
        ensures tried { IsTried N.begins pass.old pass.new asked.old asked.new result }
        ensures always { gathered.entry.peeks.items ≡ [] → IsOkUnless result unplaced.Memory }
    {
        if told.is_unwritten() {
            let mut common = self.common.lock(rt);
            let held = &mut *common;
            let settled = held.settle(&self.words, gathered, archive, told)?;
            drop(settled.confirmed);
            drop(settled.archive);
            let told = settled.told;
            let request = asked.take().unwrap();
            let answer = held.place_quiet(&self.words, alloc, pass, &mut NoLane, 0, told, request);
            return Ok(answer);
        }
        let mut guard = self.journal.lock(rt);
        let journal = &mut *guard;
        let mut common = self.common.lock(rt);
        let held = &mut *common;
        journal.learn(&self.words, held);
        let settled = held.settle(&self.words, gathered, archive, told)?;
        drop(common);
        let (writing, archive) = journal.room_for(alloc, settled, asked)?;
        match archive {
            None => {
                let (store, lane) = (&mut NoArchive, &mut NoLane);
                Ok(journal.commit(rt, self, alloc, pass, store, lane, writing)?)
            }
            Some(mut archive) => {
                let stored = &mut *archive;
                let (store, lane) = (&mut stored.archive, &mut stored.lane);
                Ok(journal.commit(rt, self, alloc, pass, store, lane, writing)?)
            }
        }
    }
}

impl<D: Disk, N: Serving> WrittenJournal<D, N> {
    /// Makes room for what is told of the command that is asked, where the tables that it changes are held.
    /// The one error is want of memory.
    fn room_for<'a>(
        &self,
        alloc: Global,
        settled: Settled<'a, D, N>,
        asked: &mut Option<Request>,
    ) -> Result<(Writing<'a, N>, Option<MutexGuard<'a, StoredArchive<D, N>>>), AllocError>
        requires settled { (request : AnyRequest) × (asked.old ≡ Some request) ×
            IsSettled N.rows N.end N.images N.begins self.now request settled }
        requires some { settled.told.changes ≢ [] }
        ensures writing { IfOk result (λ r. IsWritingFor N.rows N.end N.images N.begins self.now r.0) }
        ensures asked { IfOk result (λ r. asked.old ≡ Some r.0.request) }
        ensures archive { IfOk result (λ r. IsAtOrder self.now r.1) }
        ensures without { IfOk result (λ r. r.1 ≡ None → r.0.told.stores ≡ []) }
    {
        let Settled {
            confirmed,
            archive,
            told,
        } = settled;
        let changes = told.changes.as_slice();
        let after = change_tables(alloc, &self.tables, changes)?;
        let shown = share_tables(alloc, &after)?;
        let held = confirmed.prepare(&after, changes)?;
        let request = asked.take().unwrap();
        let writing = Writing {
            held,
            after,
            shown,
            told,
            request,
        };
        Ok((writing, archive))
    }

    /// Stores what is told, where there is something to store, and commits its changes; takes the lock of
    /// the order, gives the command the next place, and the locks of the tables back. The journal's lane
    /// learns the whole order, and so does the archive's, if it is held. The one error is want of memory,
    /// and then nothing is done.
    fn commit<R: Wait, S: Store, A: ArchiveLane<N>>(
        &mut self,
        rt: &R,
        depot: &SharedDepot<D, N>,
        alloc: Global,
        pass: &mut PartyPass<N>,
        store: &mut S,
        lane: &mut A,
        writing: Writing<'_, N>,
    ) -> Result<Answer, AllocError>
        requires may { MayTake N.places N.begins pass.old writing.request }
        requires writing { IsWritingFor N.rows N.end N.images N.begins self.old writing }
        requires held { S.is_archive ≡ A.is_held }
        requires used { S.ends_at store.old (stored_end N.end self.old) }
        requires some { A.is_held ≡ false → writing.told.stores ≡ [] }
        ensures taken { IfOk result (IsTakenAt N.begins pass.old pass.new writing.entry.request) }
        ensures nothing { OnErr result ((pass.new ≡ pass.old) × (store.new ≡ store.old) × (lane.new ≡ lane.old)) }
        ensures stored { IfOk result (λ answer. IsStoredBehind A.Learns A.is_held S.stores S.faults lane.old lane.new store.old store.new) }
        ensures never_falls { S.faults store.old ≤ S.faults store.new }
    {
        let Writing {
            mut held,
            after,
            shown,
            told,
            request,
        } = writing;
        let tables = &mut self.tables;
        let journal = &mut self.journal;
        let after = Some(after);
        let Ok(landed) = place::<D, S, N>(alloc, tables, journal, store, &request, told, after)
        else {
            drop(held);
            drop(shown);
            drop(request);
            return Err(AllocError);
        };
        let fault = landed.answer.place.fault;
        let taken = Taken {
            request,
            fault,
            lost: landed.lost,
            lanes: 0,
            changes: landed.changes,
            end: self.tables.archive_end(),
            stores: landed.stored,
        };
        let at = taken.place();
        if fault {
            held.clear();
        }
        let mut guard = depot.common.lock(rt);
        let common = &mut *guard;
        let order = &mut common.order;
        let held = held.as_mut_slice();
        order.place(&depot.words, held, lane, &mut self.lane, pass, taken);
        show(&mut common.tables, shown, fault);
        Ok(Answer {
            place: at,
            reply: landed.answer.reply,
        })
    }
}
