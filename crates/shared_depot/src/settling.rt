//! What a command learns under the lock of the order before it is given its place.
ghost use Rattle.std.specs.Prelude.{◌≡◌, [], None, IfOk, IfSome, IsOkUnless, IsTrue};
ghost use Rattle.std.specs.Sync.Mutex.{mutex_guard_value};
ghost use Rattle.depot_rows.specs.depot_model.declared.request.Request.{Request as AnyRequest};
ghost use Rattle.locked_tables.specs.Taken.{end_after};
ghost use Rattle.table_locks.specs.Gathered.{IsShown};
ghost use Rattle.shared_depot.specs.Asked.{IsSettled, IsToldOver};
ghost use Rattle.shared_depot.specs.Room.{IsAtOrder, IsEndKnown};
ghost use Rattle.shared_depot.specs.Stored.{stores_of};
ghost use Rattle.shared_depot.specs.declared.unplaced.Unplaced.TheVariants as unplaced;

use crate::common::CommonDepot;
use crate::serving::Serving;
use crate::stored_archive::StoredArchive;
use crate::unplaced::Unplaced;
use depot_commit::Told;
use locked_tables::OrderWords;
use outside_api::Disk;
use std::sync::MutexGuard;
use table_locks::{Confirmed, Gathered};

/// What is confirmed of what a command has gathered, the lock of the archive, where contents are stored,
/// and what it is answered and does.
#[derive(Drop)]
pub(crate) struct Settled<'a, D: Disk, N: Serving> {
    pub(crate) confirmed: Confirmed<'a, N>,
    pub(crate) archive: Option<MutexGuard<'a, StoredArchive<D, N>>>,
    pub(crate) told: Told,
}

impl<D: Disk, N: Serving> CommonDepot<D, N> {
    /// Where the lock of the archive is held, the archive's lane learns the whole order; the lock is given
    /// back where it isn't needed any more.
    fn learn_held<'a>(
        &mut self,
        words: &OrderWords<N>,
        archive: Option<MutexGuard<'a, StoredArchive<D, N>>>,
        needed: bool,
    ) -> Option<MutexGuard<'a, StoredArchive<D, N>>>
        ensures same { self.new ≡ self.old }
        ensures held { IsTrue needed → result ≡ None → archive.entry ≡ None }
        ensures learnt { IsAtOrder self.old result }
        ensures still { IsEndKnown N.end (end_after N.end self.old) archive.entry }
        ensures stores { IfSome archive.entry (λ guard. stores_of self.old ≡ stores_of (mutex_guard_value guard)) }
    {
        match archive {
            None => None,
            Some(mut guard) => {
                let held = &mut *guard;
                self.learn_archive(words, &mut held.lane);
                needed.then_some(guard)
            }
        }
    }

    /// What is told of a command, and what it has gathered, where no table that was looked at was touched
    /// since; else all locks are given back. Where no table was only looked at, it doesn't come to this.
    /// Want of memory stands for an outcome that changes a table whose lock isn't held.
    pub(crate) fn settle<'a>(
        &mut self,
        words: &OrderWords<N>,
        gathered: Gathered<'a, N>,
        archive: Option<MutexGuard<'a, StoredArchive<D, N>>>,
        told: Told,
    ) -> Result<Settled<'a, D, N>, Unplaced>
        requires { IsShown N.rows gathered }
        ensures same { self.new ≡ self.old }
        ensures told { IfOk result (λ settled. settled.told ≡ told) }
        ensures settled { (request : AnyRequest) →
            IsToldOver N.rows N.end N.images N.begins gathered.entry archive.entry told request →
            IfOk result (IsSettled N.rows N.end N.images N.begins self.old request) }
        ensures always { gathered.entry.peeks.items ≡ [] → IsOkUnless result unplaced.Memory }
    {
        let Some(confirmed) = gathered.confirm(words, &mut self.order) else {
            drop(told);
            return Err(Unplaced::Overtaken);
        };
        if !confirmed.holds(told.changes.as_slice()) {
            drop(told);
            return Err(Unplaced::Memory);
        }
        let archive = self.learn_held(words, archive, !told.stores.is_empty());
        Ok(Settled {
            confirmed,
            archive,
            told,
        })
    }
}
