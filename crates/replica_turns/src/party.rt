//! A replica with the commands that it is still asked.

ghost use Rattle.std.specs.Prelude.{◌≡◌, ◌⊎◌, ◌≤◌, ◌<◌, ◌+◌, ◌++◌, ◌∷◌, ◌^◌, ℕ, List, [], length, true, false, IfOk, IfSome, IsSome, OnErr};
ghost use Rattle.archive_file.specs.Archive.{disk_of as archive_disk_of};
ghost use Rattle.depot_rows.specs.depot_model.Deeds.{Deed};
ghost use Rattle.depot_rows.specs.depot_model.Places.{Placed};
ghost use Rattle.disk_journal.specs.Stands.{disk_of};
ghost use Rattle.outside_api.specs.Count.{HasRisen};
ghost use Rattle.depot_commit.specs.Growing.{Chronicle, HasGroups, KeepsStored};
ghost use Rattle.serial_depot.specs.Running.{CanTake, HasRun, HaveStood};
ghost use Rattle.depot_commit.specs.Fetching.{IsFetched, IsRead};
ghost use Rattle.depot_commit.specs.command_core.Outcomes.{IsFormedBy};
ghost use Rattle.serial_depot.specs.declared.depot.SerialDepot.{SerialDepot as AnyDepot};
ghost use Rattle.replica_turns.specs.Going.{IsFresh, IsTurned};
ghost use Rattle.replica_turns.specs.Replying.{IsAnsweredBy, pulls, reads_archive};

use crate::replying::{answer_by_journal, answer_request, reply_bare, reply_print};
use archive_file::Archive;
use depot_rows::model::Request;
use depot_rows::paths::Text;
use disk_journal::Journal;
use outside_api::{Clock, Disk};
use replica_pull::Replica;
use serial_depot::SerialDepot;
use session_loop::{ReplicaScript, requests_of};
use std::alloc::{AllocError, Global};

/// A replica among the parties of a run, with the commands that it hasn't answered yet.
pub struct ReplicaParty {
    pub(crate) replica: Replica,
    /// The next one last.
    pub(crate) left: Vec<Request>,
}

impl Drop for ReplicaParty {
    fn drop(self) {
        let ReplicaParty {
            replica: _,
            left: _,
        } = self;
    }
}

/// The answer to a command.
#[derive(Drop)]
pub struct Answered {
    /// The printed reply.
    pub text: Text,
    /// Whether it tells that a disk failed.
    pub lost: bool,
}

impl ReplicaParty {
    /// A replica that has followed and answered nothing yet. Each of its commands has the moment that the clock gives
    /// now. The one error is want of memory.
    pub fn new<C: Clock>(
        alloc: Global,
        party: u32,
        script: ReplicaScript,
        clock: &C,
    ) -> Result<ReplicaParty, AllocError>
        requires { length script.session.commands < 2 ^ 32 }
        ensures fresh { IfOk result (IsFresh (C.says.may_give clock.now) party script) }
        ensures left { IfOk result (λ p. length p.left.items ≡ length script.session.commands) }
    {
        let ReplicaScript { filter, session } = script;
        let mut left = requests_of(alloc, party, session, clock)?;
        left.reverse();
        let replica = Replica::with_filter(alloc, filter)?;
        Ok(ReplicaParty { replica, left })
    }

    /// How many commands it hasn't answered yet.
    pub fn left_count(&self) -> u32
        ensures { length self.now.left.items < 2 ^ 32 → result ≡ length self.now.left.items }
    {
        u32::try_from(self.left.len()).unwrap_or(u32::MAX)
    }

    /// Takes the next command, which counts as answered then.
    pub fn take_next(&mut self) -> Option<Request>
        ensures left { IfSome result (λ request. self.old.left.items ≡ self.new.left.items ++ request ∷ []) }
        ensures some { 0 < length self.old.left.items → IsSome result }
        ensures same { self.new.replica ≡ self.old.replica }
    {
        self.left.pop()
    }

    /// Answers a `print`, with the contents that it reads in the archive. The one error is want of memory.
    pub fn answer_print<D: Disk>(
        &self,
        alloc: Global,
        archive: &mut Archive<D>,
        request: &Request,
    ) -> Result<Answered, AllocError>
        requires { reads_archive request.now ≡ true }
        ensures answered { (depot : AnyDepot D) → depot.archive ≡ archive.old → IsFormedBy request.now →
            IfOk result (λ answered. IsAnsweredBy (λ been. been ≡ depot) D.says self.now.replica self.now.replica request.now answered.text answered.lost) }
        ensures read { IsRead D.says archive.old archive.new }
        ensures never_falls { D.says.faults (archive_disk_of archive.old) ≤
            D.says.faults (archive_disk_of archive.new) }
        ensures only { IfOk result (λ answered. answered.lost ≡ false →
            D.says.faults (archive_disk_of archive.new) ≡ D.says.faults (archive_disk_of archive.old)) }
        ensures no_memory { OnErr result
            (D.says.faults (archive_disk_of archive.new) ≡ D.says.faults (archive_disk_of archive.old)) }
        ensures cause { IfOk result (λ answered. answered.lost ≡ true →
            HasRisen (D.says.faults (archive_disk_of archive.old)) (D.says.faults (archive_disk_of archive.new))) }
    {
        reply_print(alloc, &self.replica, archive, request)
    }

    /// Answers a command other than `pull` and `print`, from the replica's rows alone. The one error is want of memory.
    pub fn answer_alone<D: Disk>(
        &self,
        alloc: Global,
        request: &Request,
    ) -> Result<Answered, AllocError>
        requires { (reads_archive request.now ≡ false) × (pulls request.now.command ≡ false) }
        ensures answered { (depot : AnyDepot D) → IsFormedBy request.now →
            IfOk result (λ answered. IsAnsweredBy (λ been. been ≡ depot) D.says self.now.replica self.now.replica request.now answered.text answered.lost) }
        ensures kept { IfOk result (λ answered. answered.lost ≡ false) }
    {
        reply_bare(alloc, &self.replica, request)
    }

    /// Answers any command but `print`; `pull` fetches of the journal where the replica awaits its next piece. The
    /// one error is want of memory, and then the replica is as it was.
    pub fn answer_by_journal<D: Disk>(
        &mut self,
        alloc: Global,
        journal: &mut Journal<D>,
        request: &Request,
    ) -> Result<Answered, AllocError>
        requires { reads_archive request.now ≡ false }
        ensures answered { (depot : AnyDepot D) → depot.journal ≡ journal.old → IsFormedBy request.now →
            IfOk result (λ answered. IsAnsweredBy (λ been. been ≡ depot) D.says self.old.replica self.new.replica request.now answered.text answered.lost) }
        ensures kept { OnErr result (self.new.replica ≡ self.old.replica) }
        ensures left { self.new.left ≡ self.old.left }
        ensures fetched { IsFetched D.says journal.old journal.new }
        ensures never_falls { D.says.faults (disk_of journal.old) ≤ D.says.faults (disk_of journal.new) }
        ensures only { IfOk result (λ answered. answered.lost ≡ false →
            D.says.faults (disk_of journal.new) ≡ D.says.faults (disk_of journal.old)) }
        ensures no_memory { OnErr result (D.says.faults (disk_of journal.new) ≡ D.says.faults (disk_of journal.old)) }
        ensures cause { IfOk result (λ answered. answered.lost ≡ true →
            HasRisen (D.says.faults (disk_of journal.old)) (D.says.faults (disk_of journal.new))) }
    {
        answer_by_journal(alloc, &mut self.replica, journal, request)
    }

    /// Answers the next command. `pull` fetches of the depot's journal where the replica awaits its next piece, and
    /// `print` reads the archive. The one error is want of memory; the command counts as answered then too, and the
    /// replica is as it was. With no command left nothing is done, and the answer is the same.
    pub fn answer_next<D: Disk>(
        &mut self,
        alloc: Global,
        depot: &mut SerialDepot<D>,
    ) -> Result<Answered, AllocError>
        requires { CanTake D.says depot.old }
        ensures can { CanTake D.says depot.new }
        ensures ran { (since : ℕ) (start : List Deed) (places : List Placed) →
            HasRun D.says depot.old since start places →
            HasRun D.says depot.new since start places }
        ensures tables { depot.new.tables ≡ depot.old.tables }
        ensures groups { (c : Chronicle) → HasGroups D.says depot.old.journal c → HasGroups D.says depot.new.journal c }
        ensures stored { KeepsStored D.says depot.old.archive depot.new.archive }
        ensures turned { 0 < length self.old.left.items → IsTurned D.says depot.old self.old self.new result }
        ensures left { 0 < length self.old.left.items → length self.old.left.items ≡ length self.new.left.items + 1 }
        ensures done { self.old.left.items ≡ [] → (self.new ≡ self.old) × (depot.new ≡ depot.old) }
        ensures never_falls { D.says.faults (disk_of depot.old.journal) ≤ D.says.faults (disk_of depot.new.journal) }
        ensures never_falls_contents { D.says.faults (archive_disk_of depot.old.archive) ≤
            D.says.faults (archive_disk_of depot.new.archive) }
        ensures only { IfOk result (λ answered. answered.lost ≡ false → HaveStood D.says depot.old depot.new) }
        ensures no_memory { OnErr result (HaveStood D.says depot.old depot.new) }
        ensures cause { IfOk result (λ answered. answered.lost ≡ true →
            HasRisen (D.says.faults (disk_of depot.old.journal)) (D.says.faults (disk_of depot.new.journal)) ⊎
            HasRisen (D.says.faults (archive_disk_of depot.old.archive)) (D.says.faults (archive_disk_of depot.new.archive))) }
    {
        if self.left.is_empty() {
            return Err(AllocError);
        }
        match self.left.pop() {
            Some(request) => {
                let answered = answer_request(alloc, &mut self.replica, depot, &request);
                drop(request);
                answered
            }
            None => Err(AllocError),
        }
    }
}
