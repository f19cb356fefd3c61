//! The rules that rows keep, and the generation that they tell.

ghost use Rattle.std.specs.Prelude.{◌≡◌, ◌≤◌, length, IfOk, IsTrue, OnOk, Err};
ghost use Rattle.std.specs.Result.{IfErr};
ghost use Rattle.outside_api.specs.Disk.{Files};
ghost use Rattle.depot_rows.specs.db_records.declared.table.TableId.{TableId};
ghost use Rattle.depot_rows.specs.table_changes.Changed.{AllRows, rows_of};
ghost use Rattle.recovery.specs.Damage.{IsDamage};
ghost use Rattle.recovery.specs.Faults.{IsReadOrSaysNothing, IsUnmadeOrSaysNothing, SaysNothing, Tells, UnlessFault};
ghost use Rattle.recovery.specs.Holding.{Hold};
ghost use Rattle.recovery.specs.Looking.{OnlyReads, IsCause};
ghost use Rattle.recovery.specs.Reading.{HasFound};
ghost use Rattle.recovery.specs.Rules.{SuitFiles, TellsEnd};
ghost use Rattle.recovery.specs.declared.fault.OpenFault.TheVariants.{DiskFault, Unmade};

use crate::depot::{Found, read_rows};
use crate::fault::{DepotDisk, OpenFault};
use crate::spots::deletes_are_unplaced;
use outside_api::Disk;
use row_rules::{generation_of, keep_rules};
use std::alloc::{AllocError, Global};

/// Whether the rows that were read keep their rules, deleted revisions have no place, and the rows tell the
/// generation of the files.
fn suit_files(alloc: Global, found: &Found) -> Result<bool, AllocError>
    ensures suit { IfOk result (λ suit. IsTrue suit → SuitFiles found.now.generation (rows_of found.now.tables)) }
    ensures only { SuitFiles found.now.generation (rows_of found.now.tables) → IfOk result IsTrue }
{
    let told = generation_of(alloc, &found.tables)?;
    let keep = keep_rules(alloc, &found.tables)?;
    let unplaced = deletes_are_unplaced(&found.tables);
    Ok(keep && unplaced && told == found.generation as u64)
}

/// Checks that the rows that were read suit the files. Where they don't, the journal is damaged at the end of its
/// committed text.
fn check_rules(alloc: Global, found: &Found) -> Result<(), OpenFault>
    requires last { found.now.generation ≤ 4095 }
    ensures suit { OnOk result (SuitFiles found.now.generation (rows_of found.now.tables)) }
    ensures only { SuitFiles found.now.generation (rows_of found.now.tables) → IfErr result SaysNothing }
    ensures told { IfErr result (TellsEnd found.now.generation found.now.end.length) }
{
    if suit_files(alloc, found)? {
        return Ok(());
    }
    Err(OpenFault::Damaged {
        disk: DepotDisk::Journal,
        file: 1 + 2 * found.generation,
        place: found.end.length,
    })
}

/// Reads the rows of the files, and checks that they suit these.
pub(crate) fn read_kept_rows<D: Disk>(alloc: Global, disk: &mut D) -> Result<Found, OpenFault>
    ensures found { IfOk result (λ found. HasFound (D.says.seen disk.old) found) }
    ensures suit { IfOk result (λ found. SuitFiles found.generation (rows_of found.tables)) }
    ensures only { (files : Files) (rows : AllRows) → D.says.seen disk.old files → (hold : Hold files rows) →
        SuitFiles hold.was.generation rows →
        IsReadOrSaysNothing result (λ found. (table : TableId) → rows_of found.tables table ≡ rows table) }
    ensures damaged { (files contents : Files) → D.says.seen disk.old files →
        IfErr result (Tells (IsDamage files contents)) }
    ensures unmade { (files : Files) → D.says.seen disk.old files → result ≡ Err Unmade → length (files 0) ≡ 0 }
    ensures exactly { (files : Files) → D.says.seen disk.old files → length (files 0) ≡ 0 →
        IsUnmadeOrSaysNothing result }
    ensures reads { OnlyReads D.says disk.old disk.new }
    ensures unfailed { UnlessFault result (D.says.faults disk.new ≡ D.says.faults disk.old) }
    ensures cause { IsCause (D.says.faults disk.old) (D.says.faults disk.new) (result ≡ Err DiskFault) }
{
    let found = read_rows(alloc, disk)?;
    check_rules(alloc, &found)?;
    Ok(found)
}
