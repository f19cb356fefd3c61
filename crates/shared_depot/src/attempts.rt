//! The attempts that a command makes to get its place.
ghost use Rattle.std.specs.Prelude.{◌≡◌, [], IfOk, IfSome, IsFalse, IsOkUnless, IsTrue, OnErr};
ghost use Rattle.command_needs.specs.Sets.{AreOfWords};
ghost use Rattle.shared_depot.specs.Asked.{IsAsked, IsGatheredFor, IsTried};
ghost use Rattle.shared_depot.specs.Room.{IsEndKnown};
ghost use Rattle.shared_depot.specs.Sharing.{IsTakenAt};
ghost use Rattle.shared_depot.specs.declared.attempts.Attempt.TheVariants as attempts;
ghost use Rattle.shared_depot.specs.declared.unplaced.Unplaced.TheVariants as unplaced;

use crate::reading::Reading;
use crate::serving::Serving;
use crate::shared::SharedDepot;
use crate::stored_archive::StoredArchive;
use crate::unplaced::Unplaced;
use command_core::evaluate;
use command_needs::Needs;
use depot_commit::Told;
use depot_rows::model::{Answer, Request};
use depot_rows::records::TableId;
use locked_tables::PartyPass;
use outside_api::{Disk, Gate};
use std::alloc::{AllocError, Global};
use std::sync::{MutexGuard, Wait};
use table_locks::{Gathered, gather};

/// How often a command that only reads looks at its tables, where it was overtaken, before it holds its
/// set.
const LOOKS: u32 = 4;

/// An attempt to give a command its place.
#[derive(Clone, Copy)]
pub(crate) enum Attempt {
    /// The first one, which passes the gate.
    First,
    /// One more of a command that only reads, where a table was changed since it was looked at.
    Again,
    /// That with the whole set held.
    Whole,
}

impl Attempt {
    /// Whether the whole set is held.
    fn holds_set(self) -> bool
        ensures { self ≡ attempts.Whole → IsTrue result }
    {
        match self {
            Attempt::First => false,
            Attempt::Again => false,
            Attempt::Whole => true,
        }
    }
}

/// Whether a command stores nothing, or the archive may be stored in.
fn may_store_so(told: &Told, may: bool) -> bool
    ensures { IsTrue result → IsFalse may → told.now.stores ≡ [] }
{
    told.stores.is_empty() || may
}

impl<D: Disk, N: Serving> SharedDepot<D, N> {
    /// Has the command that is asked taken, by attempts. One that only reads and was overtaken looks at its
    /// tables again a few times; else, and in the end, the whole set is held. The one error is want of
    /// memory.
    pub(crate) fn take_asked<R: Wait, G: Gate>(
        &self,
        rt: &R,
        alloc: Global,
        gate: &G,
        pass: &mut PartyPass<N>,
        needs: &Needs,
        asked: &mut Option<Request>,
    ) -> Result<Answer, AllocError>
        requires { (is : IsAsked N.places N.begins pass.old asked.old) × AreOfWords is.request.command needs.now }
        ensures taken { IfOk result (λ answer. IfSome asked.old (λ request. IsTakenAt N.begins pass.old pass.new request answer)) }
        ensures nothing { OnErr result (pass.new ≡ pass.old) }
    {
        let looks = if needs.writes.is_empty() { LOOKS } else { 1 };
        for look in 0..looks {
            let attempt = if look == 0 {
                Attempt::First
            } else {
                Attempt::Again
            };
            match self.attempt(rt, alloc, gate, pass, needs, attempt, asked) {
                Ok(answer) => return Ok(answer),
                Err(Unplaced::Overtaken) => {}
                Err(Unplaced::Memory) => return Err(AllocError),
            }
        }
        match self.attempt(rt, alloc, gate, pass, needs, Attempt::Whole, asked) {
            Ok(answer) => Ok(answer),
            Err(Unplaced::Overtaken) => unreachable!(),
            Err(Unplaced::Memory) => Err(AllocError),
        }
    }

    /// One attempt: the tables that the command writes are held and the others looked at, or its whole set
    /// is held; over these it is evaluated, the reply is printed, and the command is given its place. The
    /// gate is passed before contents are read, so that a command that only reads the archive doesn't hold
    /// its lock there. Where one couldn't be read the place is that of a fault, overtaken or not. An attempt
    /// with the whole set isn't overtaken. Want of memory also stands for an outcome that stores contents
    /// without the lock of the archive, and for one that changes a table whose lock isn't held. No run of a
    /// depot comes to these: a command changes only tables that its set writes, and stores contents only
    /// where one of them is the table of revisions. But that is said of outcomes over a depot, and here none
    /// is known to exist.
    fn attempt<R: Wait, G: Gate>(
        &self,
        rt: &R,
        alloc: Global,
        gate: &G,
        pass: &mut PartyPass<N>,
        needs: &Needs,
        attempt: Attempt,
        asked: &mut Option<Request>,
    ) -> Result<Answer, Unplaced>
        requires { (is : IsAsked N.places N.begins pass.old asked.old) × AreOfWords is.request.command needs.now }
        ensures tried { IsTried N.begins pass.old pass.new asked.old asked.new result }
        ensures always { attempt ≡ attempts.Whole → IsOkUnless result unplaced.Memory }
    {
        let (gathered, archive) = self.reach(rt, alloc, needs, attempt.holds_set())?;
        let stores = archive.is_some();
        let request = asked.as_ref().unwrap();
        let number = request.number;
        let outcome = evaluate(alloc, gathered.tables(), request)?;
        if matches!(attempt, Attempt::First) {
            gate.pass(request.party, number);
        }
        let (reading, archive) = self.tell_over(rt, alloc, pass, archive, outcome, number, asked)?;
        match reading {
            Reading::Placed(answer) => {
                drop(archive);
                drop(gathered);
                Ok(answer)
            }
            Reading::Told(told) => {
                if !may_store_so(&told, stores) {
                    drop(told);
                    return Err(Unplaced::Memory);
                }
                self.place_told(rt, alloc, pass, gathered, archive, told, asked)
            }
        }
    }

    /// Gathers a set. Where contents may be stored, takes the lock of the archive too, and sees where
    /// the archive ends: a command that stores some writes the table of revisions.
    fn reach<'a, R: Wait>(
        &'a self,
        rt: &R,
        alloc: Global,
        needs: &Needs,
        whole: bool,
    ) -> Result<(Gathered<'a, N>, Option<MutexGuard<'a, StoredArchive<D, N>>>), AllocError>
        ensures gathered { IfOk result (λ r. IsGatheredFor N.rows whole needs.now r.0) }
        ensures end { IfOk result (λ r. IsEndKnown N.end r.0.tables.archive_end r.1) }
    {
        let mut gathered = gather(rt, alloc, &self.tables, needs, whole)?;
        let archive = if needs.writes.has(TableId::Rev) {
            Some(self.archive.lock(rt))
        } else {
            None
        };
        let mut common = self.common.lock(rt);
        let held = &mut *common;
        gathered.look(&self.words, &mut held.order, &held.tables, needs, whole)?;
        drop(common);
        match archive {
            None => Ok((gathered, None)),
            Some(guard) => {
                gathered.set_archive_end(guard.end());
                Ok((gathered, Some(guard)))
            }
        }
    }
}
