//! The replicas among the parties of a run.

ghost use Rattle.std.specs.Prelude.{◌≡◌, ◌≤◌, ◌<◌, ◌^◌, ℕ, List, Some, false, get_or, length, map, slice_get, slice_set, All, IfOk};
ghost use Rattle.archive_file.specs.Archive.{disk_of as archive_disk_of};
ghost use Rattle.depot_rows.specs.depot_model.Deeds.{Deed};
ghost use Rattle.depot_rows.specs.depot_model.Places.{Placed};
ghost use Rattle.disk_journal.specs.Stands.{disk_of};
ghost use Rattle.lock_core.specs.Drawing.{has_other};
ghost use Rattle.run_parties.specs.Asking.{AreFresh, left_in};
ghost use Rattle.run_parties.specs.Giving.{text_of};
ghost use Rattle.run_parties.specs.Replicas.{HasLost};
ghost use Rattle.run_parties.specs.replica_turns.declared.party.ReplicaParty.{ReplicaParty as AnyParty};
ghost use Rattle.run_parties.specs.depot_commit.Growing.{Chronicle, HasGroups, KeepsStored};
ghost use Rattle.run_parties.specs.serial_depot.Running.{CanTake, HasRun, HaveStood};
ghost use Rattle.session_loop.specs.Asking.{replica_commands};
ghost use Rattle.session_turns.specs.Drawn.{left_after_turn, replica_totals};
ghost use Rattle.session_turns.specs.Going.{IsStepped};

use depot_rows::paths::Text;
use outside_api::{Clock, Disk};
use replica_turns::{Answered, ReplicaParty};
use run_parties::replica_parties;
use serial_depot::SerialDepot;
use session_loop::ReplicaScript;
use std::alloc::{AllocError, Global};

/// The replicas among the parties of a run.
#[derive(Drop)]
pub(crate) struct Replicas {
    /// The replica of each party that is one.
    pub(crate) parties: Vec<Option<ReplicaParty>>,
    /// How many commands each party has left as a replica.
    pub(crate) others: Vec<u32>,
    /// Whether one was answered that a disk failed.
    pub(crate) lost: bool,
}

/// How many commands a party has left as a replica.
fn left_of(party: &Option<ReplicaParty>) -> u32
    ensures { length (left_in party.now) ≤ 67108864 → result ≡ length (left_in party.now) }
{
    match party {
        None => 0,
        Some(party) => party.left_count(),
    }
}

/// How many commands each has left.
fn left_counts(alloc: Global, parties: &[Option<ReplicaParty>]) -> Result<Vec<u32>, AllocError>
    requires { All (λ party. length (left_in party) ≤ 67108864) parties.now }
    ensures { IfOk result (λ counts. counts.items ≡ map (λ party. length (left_in party)) parties.now) }
{
    let mut counts = Vec::new(alloc);
    for party in parties {
        counts.push(left_of(party))?;
    }
    Ok(counts)
}

impl Replicas {
    /// The replicas of scripts before the first turn.
    pub(crate) fn new<C: Clock>(
        alloc: Global,
        scripts: Vec<Option<ReplicaScript>>,
        clock: &C,
    ) -> Result<Replicas, AllocError>
        requires few_parties { length scripts.items < 2 ^ 32 }
        requires few { All (λ script. length (replica_commands script) ≤ 67108864) scripts.items }
        ensures fresh { IfOk result (λ replicas. AreFresh (C.says.may_give clock.now) 1 scripts.items replicas.parties.items) }
        ensures others { IfOk result (λ replicas. replicas.others.items ≡ replica_totals scripts.items) }
        ensures lost { IfOk result (λ replicas. replicas.lost ≡ false) }
    {
        let parties = replica_parties(alloc, scripts, clock)?;
        let others = left_counts(alloc, &parties)?;
        Ok(Replicas {
            parties,
            others,
            lost: false,
        })
    }

    /// Whether a party has commands left as a replica.
    pub(crate) fn has_left(&self, party: u32) -> bool
        ensures { result ≡ has_other self.now.others.items party }
    {
        match self.others.get(party as usize) {
            Some(left) => *left > 0,
            None => false,
        }
    }

    /// The reply to the next command of a replica. Without memory for it there is none; the command counts as answered
    /// then too.
    pub(crate) fn reply<D: Disk>(
        &mut self,
        alloc: Global,
        at: usize,
        depot: &mut SerialDepot<D>,
    ) -> Result<Text, AllocError>
        requires can { CanTake D.says depot.old }
        ensures can { CanTake D.says depot.new }
        ensures ran { (since : ℕ) (start : List Deed) (places : List Placed) →
            HasRun D.says depot.old since start places →
            HasRun D.says depot.new since start places }
        ensures tables { depot.new.tables ≡ depot.old.tables }
        ensures groups { (c : Chronicle) → HasGroups D.says depot.old.journal c → HasGroups D.says depot.new.journal c }
        ensures stored { KeepsStored D.says depot.old.archive depot.new.archive }
        ensures others { self.new.others ≡ self.old.others }
        ensures stepped { (p : AnyParty) → slice_get self.old.parties.items at ≡ Some (Some p) →
            0 < length p.left.items → IsStepped D.says depot.old depot.new at p self.old self.new (text_of result) }
        ensures never_falls { D.says.faults (disk_of depot.old.journal) ≤ D.says.faults (disk_of depot.new.journal) }
        ensures never_falls_contents { D.says.faults (archive_disk_of depot.old.archive) ≤
            D.says.faults (archive_disk_of depot.new.archive) }
        ensures told { self.new.lost ≡ false → (self.old.lost ≡ false) × HaveStood D.says depot.old depot.new }
        ensures lost { HasLost self.old.lost self.new.lost (D.says.faults (disk_of depot.old.journal))
            (D.says.faults (disk_of depot.new.journal)) (D.says.faults (archive_disk_of depot.old.archive))
            (D.says.faults (archive_disk_of depot.new.archive)) }
    {
        if at >= self.parties.len() {
            return Err(AllocError);
        }
        let Some(party) = &mut self.parties[at] else {
            return Err(AllocError);
        };
        match party.answer_next(alloc, depot) {
            Ok(Answered { text, lost }) => {
                self.lost = self.lost || lost;
                Ok(text)
            }
            Err(error) => Err(error),
        }
    }

    /// Counts a turn of a replica: one command fewer is left, or none where its sink failed.
    pub(crate) fn count_turn(&mut self, at: usize, failed: bool)
        ensures parties { self.new.parties ≡ self.old.parties }
        ensures lost { self.new.lost ≡ self.old.lost }
        ensures others { self.new.others.items ≡
            slice_set self.old.others.items at (left_after_turn (get_or self.old.others.items at 0) failed) }
    {
        if at >= self.others.len() {
            return;
        }
        self.others[at] = if failed {
            0
        } else {
            self.others[at].saturating_sub(1)
        };
    }
}
