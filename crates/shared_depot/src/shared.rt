//! A depot that many threads share.
ghost use Rattle.std.specs.Prelude.{◌≡◌, ◌<◌, ◌+◌, ℕ, List, length, IfOk, OnErr};
ghost use Rattle.depot_rows.specs.depot_model.Deeds.{Deed};
ghost use Rattle.session_loop.specs.Taking.{IsProper};
ghost use Rattle.shared_depot.specs.Replicas.{IsReplicaTurn};
ghost use Rattle.shared_depot.specs.Sharing.{IsTakenAt};

use crate::both_marks::BothMarks;
use crate::common::CommonDepot;
use crate::of_archive::OfArchive;
use crate::serving::Serving;
use crate::stored_archive::StoredArchive;
use crate::written_journal::WrittenJournal;
use command_needs::request_needs;
use depot_rows::model::{Answer, Request};
use locked_tables::{OrderWords, PartyPass, TableLocks};
use outside_api::{Disk, Gate};
use party_marks::MarkWords;
use replica_turns::{Answered, ReplicaParty, is_print, is_pull};
use std::alloc::{AllocError, Global};
use std::sync::{Mutex, Wait};

/// A depot in files whose tables, archive, journal and order lie behind locks of their own.
#[derive(Drop)]
pub struct SharedDepot<D: Disk, N: Serving> {
    pub(crate) words: OrderWords<N>,
    pub(crate) tables: TableLocks<N>,
    pub(crate) archive: Mutex<StoredArchive<D, N>>,
    pub(crate) journal: Mutex<WrittenJournal<D, N>>,
    pub(crate) common: Mutex<CommonDepot<D, N>>,
    pub(crate) mark_words: MarkWords<N>,
    pub(crate) content_words: MarkWords<OfArchive<N>>,
}

impl<D: Disk, N: Serving> SharedDepot<D, N> {
    /// Has the command of a party's request taken. It gets a place behind all that the party knew, and is
    /// answered as one thread would be that took the commands of all places before it; at a fault place
    /// the commit failed, or a content couldn't be read or stored, and the command did nothing. The one
    /// error is want of memory, and then nothing is done; it also stands for a party that has had as many
    /// places as it may have. The command may be held back at the gate.
    pub fn take<R: Wait, G: Gate>(
        &self,
        rt: &R,
        alloc: Global,
        gate: &G,
        pass: &mut PartyPass<N>,
        request: Request,
    ) -> Result<Answer, AllocError>
        requires party { request.party ≡ pass.old.party }
        requires proper { (since : ℕ) (start : List Deed) → N.begins since start → IsProper request }
        ensures taken { IfOk result (IsTakenAt N.begins pass.old pass.new request) }
        ensures nothing { OnErr result (pass.new ≡ pass.old) }
    {
        if !pass.has_place_left() {
            drop(request);
            return Err(AllocError);
        }
        let party = request.party;
        let number = request.number;
        let needs = request_needs(&request);
        let mut asked = Some(request);
        let taken = self.take_asked(rt, alloc, gate, pass, &needs, &mut asked);
        drop(asked);
        let answer = taken?;
        gate.answered(party, number);
        Ok(answer)
    }

    /// Answers the next command of a replica, which is one of the parties, over the depot in files as
    /// it is then. The party learns all places so far, of which it has none that it didn't know; it has
    /// one mark more where the answer tells that a disk failed. `pull` fetches of the journal under the
    /// lock of the journal, and `print` reads the archive under the archive's. The one error is want of
    /// memory, or that there are 2^64 - 1 marks; the command counts as answered then too, and the replica
    /// is as it was.
    pub fn answer_replica<R: Wait>(
        &self,
        rt: &R,
        alloc: Global,
        pass: &mut PartyPass<N>,
        marks: &mut BothMarks<N>,
        replica: &mut ReplicaParty,
    ) -> Result<Answered, AllocError>
        requires { 0 < length replica.old.left.items }
        ensures turn { IsReplicaTurn D.says N.end N.images N.begins N.masters pass.old pass.new marks.old marks.new replica.old replica.new result }
        ensures left { length replica.old.left.items ≡ length replica.new.left.items + 1 }
    {
        let request = replica.take_next().unwrap();
        let answer = if is_print(&request) {
            let mut archive = self.archive.lock(rt);
            archive.answer_print(
                rt,
                &self.words,
                &self.content_words,
                &self.common,
                alloc,
                pass,
                marks,
                replica,
                &request,
            )
        } else if is_pull(&request) {
            let mut journal = self.journal.lock(rt);
            journal.answer_pull(
                rt,
                &self.words,
                &self.mark_words,
                &self.common,
                alloc,
                pass,
                marks,
                replica,
                &request,
            )
        } else {
            let mut common = self.common.lock(rt);
            common.answer_alone(&self.words, alloc, pass, replica, &request)
        };
        drop(request);
        answer
    }
}
