//! The answer to a command of a replica.
ghost use Rattle.std.specs.Prelude.{◌≡◌, ◌<◌, ◌+◌, Result, length, true, false};
ghost use Rattle.std.specs.declared.alloc.AllocError.{AllocError as AnyError};
ghost use Rattle.depot_rows.specs.depot_model.declared.request.Request.{Request as AnyRequest};
ghost use Rattle.party_marks.specs.Known.{PassKnown};
ghost use Rattle.replica_turns.specs.Going.{is_lost, one_if};
ghost use Rattle.replica_turns.specs.Replying.{pulls, reads_archive};
ghost use Rattle.replica_turns.specs.declared.party.Answered.{Answered as AnyAnswered};
ghost use Rattle.replica_turns.specs.declared.party.ReplicaParty.{ReplicaParty as AnyParty};
ghost use Rattle.shared_depot.specs.Replicas.{IsAnsweredAlone, IsMarkedBy, IsReplicaAnswer};

use crate::both_marks::BothMarks;
use crate::common::CommonDepot;
use crate::of_archive::OfArchive;
use crate::serving::Serving;
use crate::stored_archive::StoredArchive;
use crate::written_journal::WrittenJournal;
use depot_rows::model::Request;
use locked_tables::{OrderWords, PartyPass};
use outside_api::Disk;
use party_marks::{MarkPass, MarkWords, Marking, Marks};
use replica_turns::{Answered, ReplicaParty};
use std::alloc::{AllocError, Global};
use std::sync::{Mutex, Wait};

/// Makes a mark of a party where an answer tells that a disk failed.
fn mark_lost<N: Marking>(
    words: &MarkWords<N>,
    all: &mut Marks<N>,
    pass: &mut MarkPass<N>,
    answer: &Result<Answered, AllocError>,
)
    requires { 0 < all.old.room }
    ensures party { pass.new.party ≡ pass.old.party }
    ensures marked { IsMarkedBy pass.old pass.new answer.now }
    ensures more { length all.new.list ≡ length all.old.list + one_if (is_lost answer.now) }
{
    if let Ok(answered) = answer {
        if answered.lost {
            all.mark(words, pass);
        }
    }
}

impl<D: Disk, N: Serving> CommonDepot<D, N> {
    /// The party learns all places so far. So a command of a replica for which no disk is asked is
    /// answered over the depot in files as it is then.
    pub(crate) fn tell_alone(&mut self, words: &OrderWords<N>, pass: &mut PartyPass<N>)
        ensures same { self.new ≡ self.old }
        ensures told { (request : AnyRequest) (replica : AnyParty) (answer : Result AnyAnswered AnyError)
            (marks : PassKnown) →
            IsAnsweredAlone D.says request replica answer →
            IsReplicaAnswer D.says N.end N.images N.begins N.masters pass.old pass.new marks marks request replica replica answer }
    {
        self.order.tell(words, pass);
    }

    /// Answers a command of a replica that is neither a `pull` nor a `print`, from the replica's own rows.
    /// The party learns all places so far.
    pub(crate) fn answer_alone(
        &mut self,
        words: &OrderWords<N>,
        alloc: Global,
        pass: &mut PartyPass<N>,
        replica: &ReplicaParty,
        request: &Request,
    ) -> Result<Answered, AllocError>
        requires { (reads_archive request.now ≡ false) × (pulls request.now.command ≡ false) }
        ensures answer { (marks : PassKnown) →
            IsReplicaAnswer D.says N.end N.images N.begins N.masters pass.old pass.new marks marks request.now replica.now replica.now result }
    {
        let answer = replica.answer_alone::<D>(alloc, request);
        self.tell_alone(words, pass);
        answer
    }
}

impl<D: Disk, N: Serving> WrittenJournal<D, N> {
    /// Answers a `pull` of a replica, which fetches of the journal, and makes a mark where the answer tells
    /// that its disk failed; without room for a mark it isn't asked. Then the lock of the order is taken
    /// too, and the party learns all places so far.
    pub(crate) fn answer_pull<R: Wait>(
        &mut self,
        rt: &R,
        words: &OrderWords<N>,
        mark_words: &MarkWords<N>,
        common: &Mutex<CommonDepot<D, N>>,
        alloc: Global,
        pass: &mut PartyPass<N>,
        marks: &mut BothMarks<N>,
        replica: &mut ReplicaParty,
        request: &Request,
    ) -> Result<Answered, AllocError>
        requires { reads_archive request.now ≡ false }
        ensures answer { IsReplicaAnswer D.says N.end N.images N.begins N.masters pass.old pass.new marks.old marks.new request.now replica.old replica.new result }
        ensures left { replica.new.left ≡ replica.old.left }
    {
        let Ok(()) = self.marks.make_room() else {
            let mut guard = common.lock(rt);
            guard.tell_alone(words, pass);
            return Err(AllocError);
        };
        let answer = replica.answer_by_journal(alloc, &mut self.journal, request);
        let mut guard = common.lock(rt);
        let held = &mut *guard;
        held.learn_journal(words, &mut self.lane);
        held.order.tell(words, pass);
        mark_lost(mark_words, &mut self.marks, &mut marks.journal, &answer);
        answer
    }
}

impl<D: Disk, N: Serving> StoredArchive<D, N> {
    /// Answers a `print` of a replica, with the contents that it reads, and makes a mark where the answer
    /// tells that the archive's disk failed; without room for a mark it isn't asked. Then the lock of the
    /// order is taken too, and the party learns all places so far.
    pub(crate) fn answer_print<R: Wait>(
        &mut self,
        rt: &R,
        words: &OrderWords<N>,
        mark_words: &MarkWords<OfArchive<N>>,
        common: &Mutex<CommonDepot<D, N>>,
        alloc: Global,
        pass: &mut PartyPass<N>,
        marks: &mut BothMarks<N>,
        replica: &ReplicaParty,
        request: &Request,
    ) -> Result<Answered, AllocError>
        requires { reads_archive request.now ≡ true }
        ensures answer { IsReplicaAnswer D.says N.end N.images N.begins N.masters pass.old pass.new marks.old marks.new request.now replica.now replica.now result }
    {
        let Ok(()) = self.marks.make_room() else {
            let mut guard = common.lock(rt);
            guard.tell_alone(words, pass);
            return Err(AllocError);
        };
        let answer = replica.answer_print(alloc, &mut self.archive, request);
        let mut guard = common.lock(rt);
        let held = &mut *guard;
        held.order.learn_archive(words, &mut self.lane);
        held.order.tell(words, pass);
        mark_lost(mark_words, &mut self.marks, &mut marks.archive, &answer);
        answer
    }
}
