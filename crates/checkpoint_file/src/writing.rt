//! Beginning the next generation of a journal.

ghost use Rattle.std.specs.Prelude.{◌≡◌, ◌≢◌, ◌⊎◌, ◌+◌, ◌*◌, ◌≤◌, ℕ, List, [], ◌∷◌, ◌++◌, OnOk, IfOk, IsErr, Err};
ghost use Rattle.outside_api.specs.Count.{HasRisen, counted};
ghost use Rattle.outside_api.specs.Disk.{After, Files, Follows};
ghost use Rattle.outside_api.specs.Moments.{LeavesOnly};
ghost use Rattle.depot_rows.specs.depot_model.Deeds.{Deed};
ghost use Rattle.disk_journal.specs.Images.{Committed, HasEither, with_generation};
ghost use Rattle.disk_journal.specs.Keeping.{KeepsOlder};
ghost use Rattle.disk_journal.specs.Older.{SameBefore};
ghost use Rattle.disk_journal.specs.Stands.{IsStill, Stands, disk_of, generation_of_journal, nothing, opening};
ghost use Rattle.recovery.specs.Holding.{HasAllRows};
ghost use Rattle.recovery.specs.Standing.{StandFor};
ghost use Rattle.depot_rows.specs.table_changes.Changed.{AllRows};
ghost use Rattle.checkpoint_file.specs.Checkpoint.{IsCheckpointOf};
ghost use Rattle.checkpoint_file.specs.Generations.{HoldsEither, IsNext, IsOfDepot, StandsForEither, of_generation};
ghost use Rattle.checkpoint_file.specs.declared.fault.CheckpointFault.TheVariants.{NoGeneration, DiskFault};

use crate::fault::CheckpointFault;
use depot_rows::paths::Text;
use disk_journal::Journal;
use outside_api::Disk;

/// The generation behind which there is none.
const LAST: u32 = 4095;

/// Begins the next generation with the text of its checkpoint, whole or not at all, and answers it: writes the
/// checkpoint and an empty journal, syncs, opens the root's mark and syncs. Takes no memory.
///
/// At generation 4,095 it answers so, and makes no call of the disk.
pub fn write_generation<D: Disk>(
    journal: &mut Journal<D>,
    text: &Text,
) -> Result<u32, CheckpointFault>
    requires rest { (was : Committed) × Stands D.says journal.old was nothing }

    ensures last { generation_of_journal journal.old ≡ 4095 →
        (result ≡ Err NoGeneration) × (journal.new ≡ journal.old) }
    ensures only_last { result ≡ Err NoGeneration → generation_of_journal journal.old ≡ 4095 }

    // It is of the next generation, with this checkpoint.
    ensures number { IfOk result (λ n. n ≡ generation_of_journal journal.old + 1) }
    ensures ok { (was : Committed) → Stands D.says journal.old was nothing →
        OnOk result (Stands D.says journal.new (with_generation was text.now) nothing) }
    // Where the root mark's write wasn't begun, no image of the call is of the next generation; else it is in doubt.
    ensures err { (was : Committed) → Stands D.says journal.old was nothing → IsErr result →
        IsStill D.says journal.old journal.new was
        ⊎ Stands D.says journal.new was (opening text.now) }

    // At every moment each image is as before, or of the next generation.
    ensures any_image { (was : Committed) → Stands D.says journal.old was nothing →
        LeavesOnly D.says (disk_of journal.old) (disk_of journal.new) (HasEither was (with_generation was text.now)) }

    // What is read of the next generation are the rows of the text.
    ensures rows { (was : Committed) (after : AllRows) → IsCheckpointOf (was.generation + 1) after text.now →
        HasAllRows (with_generation was text.now) after }
    // At every moment each image holds the rows before, or is of the next generation and holds those of the text.
    ensures any_moment { (was : Committed) (rows after : AllRows) → Stands D.says journal.old was nothing →
        HasAllRows was rows → IsCheckpointOf (was.generation + 1) after text.now →
        LeavesOnly D.says (disk_of journal.old) (disk_of journal.new) (HoldsEither was rows text.now after) }
    // So at every moment the files stand for the depot before, or for that depot with the new number of its generation;
    // afterwards for the latter.
    ensures opens { (was : Committed) (rows : AllRows) (d : List Deed) (archive : Files) →
        Stands D.says journal.old was nothing → IsOfDepot was rows d archive → IsNext was rows d text.now →
        LeavesOnly D.says (disk_of journal.old) (disk_of journal.new) (StandsForEither (was.generation + 1) d archive) }
    ensures opened { (was : Committed) (rows : AllRows) (d : List Deed) (archive : Files) →
        Stands D.says journal.old was nothing → IsOfDepot was rows d archive → IsNext was rows d text.now →
        OnOk result ((image : Files) → D.says.may_leave (disk_of journal.new) image →
        StandFor (of_generation (was.generation + 1) d) image archive) }

    // The files of the generations before stay as they are, and so do this one's, at every moment.
    ensures older { Follows (SameBefore (3 + 2 * generation_of_journal journal.old))
        (D.says.may_leave (disk_of journal.old)) (D.says.may_leave (disk_of journal.new)) }
    ensures any_older { LeavesOnly D.says (disk_of journal.old) (disk_of journal.new)
        (After (SameBefore (3 + 2 * generation_of_journal journal.old)) (D.says.may_leave (disk_of journal.old))) }
    ensures keeps { (older : List (List (List ℕ))) → KeepsOlder D.says journal.old older → IsErr result →
        KeepsOlder D.says journal.new older }
    // The journal that was the newest is one of them then.
    ensures closes { (was : Committed) (older : List (List (List ℕ))) → Stands D.says journal.old was nothing →
        KeepsOlder D.says journal.old older →
        OnOk result (KeepsOlder D.says journal.new (older ++ was.groups ∷ [])) }

    ensures at_most { generation_of_journal journal.old ≢ 4095 →
        D.says.calls (disk_of journal.new) ≤ counted 5 (D.says.calls (disk_of journal.old)) }
    ensures never_falls { D.says.faults (disk_of journal.old) ≤ D.says.faults (disk_of journal.new) }
    ensures only { result ≢ Err DiskFault → D.says.faults (disk_of journal.new) ≡ D.says.faults (disk_of journal.old) }
    ensures cause { result ≡ Err DiskFault →
        HasRisen (D.says.faults (disk_of journal.old)) (D.says.faults (disk_of journal.new)) }
{
    if journal.generation() >= LAST {
        return Err(CheckpointFault::NoGeneration);
    }
    let generation = journal.begin_generation(text.as_bytes())?;
    Ok(generation)
}
