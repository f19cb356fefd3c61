//! Taking a checkpoint.

ghost use Rattle.std.specs.Prelude.{◌≡◌, ◌≢◌, ◌<◌, ◌≤◌, ℕ, List, None, IfOk, IfSome, IsErr, OnOk, Ok, Err};
ghost use Rattle.checkpoint_file.specs.Generations.{IsNext, IsOfDepot};
ghost use Rattle.depot_rows.specs.depot_model.Deeds.{Deed};
ghost use Rattle.depot_rows.specs.Standing.{Stand};
ghost use Rattle.disk_journal.specs.Images.{Committed};
ghost use Rattle.disk_journal.specs.Stands.{Stands, disk_of, generation_of_journal, nothing};
ghost use Rattle.outside_api.specs.Count.{HasRisen};
ghost use Rattle.outside_api.specs.Disk.{Files};
ghost use Rattle.outside_api.specs.Moments.{LeavesOnly};
ghost use Rattle.recovery.specs.Holding.{HasAllRows};
ghost use Rattle.recovery.specs.Standing.{StandFor};
ghost use Rattle.row_changes.specs.Differences.{AreDifferences};
ghost use Rattle.depot_rows.specs.table_changes.Changed.{AllFitIn, rows_of};
ghost use Rattle.depot_checkpoint.specs.Taking.{CanBegin, HasBegun, IsNextOf, MayHaveBegun, StandsBeforeOrAfter, checkpointed, next_generation};
ghost use Rattle.step_limits.specs.Limits.{generation_in};
ghost use Rattle.depot_checkpoint.specs.declared.fault.TakingFault.TheVariants as faults;

use crate::fault::TakingFault;
use crate::values::know_values;
use checkpoint_file::{CheckpointFault, print_generation, write_generation};
use depot_rows::changes::change_tables;
use depot_rows::paths::Text;
use depot_rows::records::Change;
use depot_rows::tables::Tables;
use disk_journal::Journal;
use outside_api::Disk;
use row_changes::row_changes;
use spec_ops::checkpoint;
use std::alloc::{AllocError, Global};

/// The generation behind which there is none.
const LAST: u32 = 4095;

/// What a checkpoint changes in the rows of tables.
fn checkpoint_changes(alloc: Global, tables: &Tables) -> Result<Vec<Change>, AllocError>
    ensures differences { IfOk result (λ changes. (d : List Deed) → Stand (rows_of tables.now) d →
        AreDifferences (rows_of tables.now) d (checkpointed d) changes.items) }
    ensures fit { IfOk result (λ changes. AllFitIn (rows_of tables.now) changes.items) }
{
    let step = checkpoint(alloc, tables)?;
    let changes = row_changes(alloc, tables, step.deeds.as_slice())?;
    Ok(changes)
}

/// The text of the checkpoint with which the generation behind this one begins, with the rows of these tables and its
/// number in the counter `journal`.
fn next_text(alloc: Global, tables: &Tables, generation: u32) -> Result<Text, AllocError>
    requires { generation < 4095 }
    ensures { IfOk result (λ text. (was : Committed) (d : List Deed) → HasAllRows was (rows_of tables.now) →
        Stand (rows_of tables.now) d →
        generation_in d ≡ was.generation → was.generation ≡ generation →
        IsNext was (rows_of tables.now) d text × IsNextOf was (rows_of tables.now) d text) }
{
    let changes = checkpoint_changes(alloc, tables)?;
    let items = changes.as_slice();
    know_values(items);
    let changed = change_tables(alloc, tables, items)?;
    let text = print_generation(alloc, &changed, generation + 1)?;
    Ok(text)
}

/// Takes a checkpoint of files that are open, with nothing in doubt, whose rows are those of the tables; no rights are
/// asked. The next generation begins with these rows, its number in the counter `journal`. Answers that number, or None
/// at generation 4,095, where nothing is done. All memory is had before the first call of the disk.
pub fn take_checkpoint<D: Disk>(
    alloc: Global,
    tables: &Tables,
    journal: &mut Journal<D>,
) -> Result<Option<u32>, TakingFault>
    requires rest { (was : Committed) × Stands D.says journal.old was nothing }
    ensures number { IfOk result (λ begun. begun ≡ next_generation (generation_of_journal journal.old)) }
    ensures none { result ≡ Ok None → journal.new ≡ journal.old }
    // The files then stand for the depot after the deeds of the checkpoint.
    ensures taken { (was : Committed) (d : List Deed) (archive : Files) → Stands D.says journal.old was nothing →
        IsOfDepot was (rows_of tables.now) d archive →
        OnOk result ((image : Files) → D.says.may_leave (disk_of journal.new) image →
        StandFor (checkpointed d) image archive) }
    // At every moment they stand for the depot before or after these.
    ensures any_moment { (was : Committed) (d : List Deed) (archive : Files) → Stands D.says journal.old was nothing →
        IsOfDepot was (rows_of tables.now) d archive →
        LeavesOnly D.says (disk_of journal.old) (disk_of journal.new) (StandsBeforeOrAfter d archive) }
    // The journal that was the newest is then one of those before, and the next generation has the rows after these
    // deeds.
    ensures begun { (was : Committed) (d : List Deed) (older : List (List (List ℕ))) →
        CanBegin D.says journal.old was (rows_of tables.now) d older →
        IfOk result (λ begun. IfSome begun (λ number. HasBegun D.says journal.new was (rows_of tables.now) d older)) }
    ensures begins { (was : Committed) (d : List Deed) (older : List (List (List ℕ))) →
        CanBegin D.says journal.old was (rows_of tables.now) d older →
        IsErr result → MayHaveBegun D.says journal.new was (rows_of tables.now) d older }
    ensures untouched { result ≡ Err faults.Memory → journal.new ≡ journal.old }
    ensures never_falls { D.says.faults (disk_of journal.old) ≤ D.says.faults (disk_of journal.new) }
    ensures only { result ≢ Err faults.DiskFault →
        D.says.faults (disk_of journal.new) ≡ D.says.faults (disk_of journal.old) }
    ensures cause { result ≡ Err faults.DiskFault →
        HasRisen (D.says.faults (disk_of journal.old)) (D.says.faults (disk_of journal.new)) }
{
    let generation = journal.generation();
    if generation >= LAST {
        return Ok(None);
    }
    let text = next_text(alloc, tables, generation)?;
    match write_generation(journal, &text) {
        Ok(begun) => Ok(Some(begun)),
        Err(CheckpointFault::NoGeneration) => Ok(None),
        Err(CheckpointFault::DiskFault) => Err(TakingFault::DiskFault),
    }
}
