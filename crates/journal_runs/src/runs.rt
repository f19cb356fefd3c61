//! Commits with faults between them.

ghost use Rattle.std.specs.Prelude.{◌≡◌, ◌⊎◌, ◌≤◌, ◌<◌, ℕ, List, length, get_or, OnOk, IsErr};
ghost use Rattle.outside_api.specs.Count.{HasCause};
ghost use Rattle.outside_api.specs.Moments.{LeavesOnly};
ghost use Rattle.disk_journal.specs.Images.{Committed, with_group};
ghost use Rattle.disk_journal.specs.Keeping.{KeepsOlder};
ghost use Rattle.disk_journal.specs.Stands.{Doubtful, nothing, group, HasWithOrWithout, Stands, IsPrepared, group_of, next_number, disk_of};
ghost use Rattle.journal_runs.specs.Runs.{IsAfterFault, next_group, StandsAfter, IsCaused, after, IsPrefix};

use crate::landing::Landing;
use db_records::Change;
use db_records::paths::Sequence;
use disk_journal::{Journal, Prepared, Receipt};
use outside_api::{Disk, DiskFault};
use std::alloc::{AllocError, Global};

/// Settles what is in doubt, and commits a group.
pub fn commit_settled<D: Disk>(
    journal: &mut Journal<D>,
    prepared: Prepared,
) -> Result<Receipt, DiskFault>
    requires stands { (was : Committed) × ((doubt : Doubtful) × Stands D.says journal.old was doubt) }
    requires prepared { IsPrepared (next_number journal.old) prepared }

    ensures landed { (was : Committed) (doubt : Doubtful) → Stands D.says journal.old was doubt →
        OnOk result (Stands D.says journal.new (with_group was (group_of prepared)) nothing) }
    ensures fault { (was : Committed) (doubt : Doubtful) → Stands D.says journal.old was doubt → IsErr result →
        (now : Doubtful) × IsAfterFault doubt (group_of prepared) now × Stands D.says journal.new was now }
    ensures any_moment { (was : Committed) (doubt : Doubtful) → Stands D.says journal.old was doubt →
        LeavesOnly D.says (disk_of journal.old) (disk_of journal.new)
        (λ c. HasWithOrWithout was doubt c ⊎ HasWithOrWithout was (group (group_of prepared)) c) }
    ensures keeps { (older : List (List (List ℕ))) → KeepsOlder D.says journal.old older →
        KeepsOlder D.says journal.new older }
    ensures cause { HasCause (D.says.faults (disk_of journal.old)) (D.says.faults (disk_of journal.new)) result }
{
    journal.settle()?;
    let receipt = journal.commit(prepared)?;
    Ok(receipt)
}

/// Settles what is in doubt, and commits the group of these changes.
pub fn commit_changes<D: Disk>(
    alloc: Global,
    journal: &mut Journal<D>,
    changes: &[Change],
) -> Landing
    requires { (was : Committed) × ((doubt : Doubtful) × Stands D.says journal.old was doubt) }

    ensures stands { (was : Committed) (doubt : Doubtful) → Stands D.says journal.old was doubt →
        StandsAfter D.says journal.new was doubt changes.now result }
    ensures any_moment { (was : Committed) (doubt : Doubtful) → Stands D.says journal.old was doubt →
        LeavesOnly D.says (disk_of journal.old) (disk_of journal.new)
        (λ c. HasWithOrWithout was doubt c ⊎ HasWithOrWithout was (group (next_group was changes.now)) c) }
    ensures no_call { result ≡ Landing.NoMemory → journal.new ≡ journal.old }
    ensures never_falls { D.says.faults (disk_of journal.old) ≤ D.says.faults (disk_of journal.new) }
    ensures cause { IsCaused (D.says.faults (disk_of journal.old)) (D.says.faults (disk_of journal.new)) result }
{
    match journal.prepare(alloc, changes) {
        Ok(prepared) => match commit_settled(journal, prepared) {
            Ok(_) => Landing::Landed,
            Err(DiskFault) => Landing::Faulted,
        },
        Err(AllocError) => Landing::NoMemory,
    }
}

/// Commits lists of changes in order, each as one group, and goes on after a fault. `landings` is filled with how
/// each commit ended.
pub fn commit_all<D: Disk>(
    alloc: Global,
    journal: &mut Journal<D>,
    batch: &[Sequence<Change>],
    landings: &mut [Landing],
)
    requires stands { (was : Committed) × Stands D.says journal.old was nothing }
    requires room { length landings.old ≡ length batch.now }

    // The journal stands with what landed, and at most one group is in doubt.
    ensures stands { (was : Committed) → Stands D.says journal.old was nothing →
        (doubt : Doubtful) × Stands D.says journal.new (after was batch.now landings.new) doubt }

    // A stop at any moment leaves what had landed by then, or that with one group more.
    ensures any_moment { (was : Committed) → Stands D.says journal.old was nothing →
        LeavesOnly D.says (disk_of journal.old) (disk_of journal.new) (IsPrefix was batch.now landings.new) }

    // No commit fails unless the disk does.
    ensures cause { (k : ℕ) → k < length landings.new →
        IsCaused (D.says.faults (disk_of journal.old)) (D.says.faults (disk_of journal.new)) (get_or landings.new k Landing.NoMemory) }
{
    for (place, changes) in batch.iter().enumerate() {
        landings[place] = commit_changes(alloc, journal, changes.as_slice());
    }
}
