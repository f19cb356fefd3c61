//! Reading all files of a depot.

ghost use Rattle.std.specs.Prelude.{◌≡◌, length, IfOk, Err};
ghost use Rattle.std.specs.Result.{IfErr};
ghost use Rattle.outside_api.specs.Disk.{Files};
ghost use Rattle.depot_rows.specs.db_records.declared.table.TableId.{TableId};
ghost use Rattle.depot_rows.specs.table_changes.Changed.{AllRows, rows_of};
ghost use Rattle.recovery.specs.Damage.{IsDamage};
ghost use Rattle.recovery.specs.Faults.{IsReadOrSaysNothing, IsUnmadeOrSaysNothing, Tells, UnlessFault};
ghost use Rattle.recovery.specs.Holding.{Hold};
ghost use Rattle.recovery.specs.Looking.{OnlyReads, IsCause};
ghost use Rattle.recovery.specs.Reading.{HasFound};
ghost use Rattle.recovery.specs.declared.fault.OpenFault.TheVariants.{DiskFault, Unmade};

use crate::fault::OpenFault;
use crate::root::read_root;
use crate::rows::{JournalEnd, read_checkpoint, read_journal};
use depot_rows::tables::Tables;
use outside_api::Disk;
use std::alloc::Global;

/// How many bytes of a file are read at a time.
const PIECE: usize = 65_536;

/// What the journal's disk has.
#[derive(Drop)]
pub(crate) struct Found {
    pub tables: Tables,
    pub generation: u32,
    pub end: JournalEnd,
}

/// Reads the root, and the checkpoint and the journal of its generation.
pub(crate) fn read_rows<D: Disk>(alloc: Global, disk: &mut D) -> Result<Found, OpenFault>
    ensures found { IfOk result (λ found. HasFound (D.says.seen disk.old) found) }
    ensures only { (files : Files) (rows : AllRows) → D.says.seen disk.old files → Hold files rows →
        IsReadOrSaysNothing result (λ found. (table : TableId) → rows_of found.tables table ≡ rows table) }
    ensures damaged { (files contents : Files) → D.says.seen disk.old files →
        IfErr result (Tells (IsDamage files contents)) }
    ensures unmade { (files : Files) → D.says.seen disk.old files → result ≡ Err Unmade → length (files 0) ≡ 0 }
    ensures exactly { (files : Files) → D.says.seen disk.old files → length (files 0) ≡ 0 →
        IsUnmadeOrSaysNothing result }
    ensures reads { OnlyReads D.says disk.old disk.new }
    ensures unfailed { UnlessFault result (D.says.faults disk.new ≡ D.says.faults disk.old) }
    ensures cause { IsCause (D.says.faults disk.old) (D.says.faults disk.new) (result ≡ Err DiskFault) }
{
    let generation = read_root(disk)?;
    let mut piece = vec![in alloc; 0u8; PIECE]?;
    let mut draft = read_checkpoint(alloc, disk, generation, piece.as_mut_slice())?;
    let end = read_journal(alloc, disk, generation, piece.as_mut_slice(), &mut draft)?;
    let tables = draft.finish(alloc)?;
    Ok(Found {
        tables,
        generation,
        end,
    })
}
