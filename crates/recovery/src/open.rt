//! Opening the files of a depot.

ghost use Rattle.std.specs.Prelude.{◌≡◌, ◌≢◌, ◌≤◌, length, List, IfOk, Err};
ghost use Rattle.std.specs.Result.{IfErr};
ghost use Rattle.outside_api.specs.Disk.{Files, StillTells};
ghost use Rattle.depot_rows.specs.db_records.declared.table.TableId.{TableId};
ghost use Rattle.depot_rows.specs.db_records.declared.table.TableId.TheVariants.{Rev};
ghost use Rattle.disk_journal.specs.Images.{Committed};
ghost use Rattle.disk_journal.specs.Stands.{disk_of, generation_of_journal};
ghost use Rattle.archive_file.specs.Archive.{disk_of as archive_of};
ghost use Rattle.depot_rows.specs.table_changes.Changed.{AllRows, rows_of};
ghost use Rattle.depot_rows.specs.depot_model.Deeds.{Deed};
ghost use Rattle.depot_rows.specs.Standing.{Stand};
ghost use Rattle.recovery.specs.Faults.{IsReadOrSaysNothing, IsUnmadeOrSaysNothing, Tells, UnlessFault};
ghost use Rattle.recovery.specs.Contents.{AreWhole, HoldWhole};
ghost use Rattle.recovery.specs.Damage.{IsDamage};
ghost use Rattle.recovery.specs.Holding.{Hold, spots_end};
ghost use Rattle.recovery.specs.Standing.{StandFor};
ghost use Rattle.recovery.specs.Looking.{AreCauses};
ghost use Rattle.recovery.specs.Reading.{HasFound};
ghost use Rattle.recovery.specs.Rules.{SuitFiles};
ghost use Rattle.recovery.specs.Opening.{IsOpen, HasSynced, LooksOnly, journal_disk, archive_disk, IsUnmade, IsDiskFault, OpensOrSaysNothing, UnmadeOrSaysNothing};
ghost use Rattle.recovery.specs.declared.fault.OpenFault.TheVariants.{DiskFault, Unmade};

use crate::contents::read_contents;
use crate::depot::Found;
use crate::fault::OpenFault;
use crate::rules::read_kept_rows;
use archive_file::Archive;
use depot_rows::tables::Tables;
use disk_journal::Journal;
use outside_api::Disk;
use std::alloc::Global;

/// A depot whose files are open.
#[derive(Drop)]
pub struct Opened<D: Disk> {
    /// The rows of the files.
    pub tables: Tables,
    /// The journal, with nothing in doubt.
    pub journal: Journal<D>,
    /// The archive.
    pub archive: Archive<D>,
}

/// Files that weren't opened, with both disks.
#[derive(Drop)]
pub struct NotOpened<D: Disk> {
    pub fault: OpenFault,
    pub journal: D,
    pub archive: D,
}

/// Syncs both disks, reads the rows of the one, which suit the files, and then their contents in the other.
fn read_depot<D: Disk>(alloc: Global, journal: &mut D, archive: &mut D) -> Result<Found, OpenFault>
    ensures found { IfOk result (HasFound (D.says.seen journal.old)) }
    ensures end { IfOk result (λ found. found.tables.archive_end ≡ spots_end (rows_of found.tables Rev)) }
    ensures within { (contents : Files) → D.says.seen archive.old contents →
        IfOk result (λ found. found.tables.archive_end ≤ length (contents 0)) }
    ensures contents { (contents : Files) → D.says.seen archive.old contents →
        IfOk result (λ found. AreWhole (contents 0) (rows_of found.tables Rev)) }
    ensures suit { IfOk result (λ found. SuitFiles found.generation (rows_of found.tables)) }
    ensures synced { IfOk result (λ found. HasSynced D.says journal.old journal.new ×
        HasSynced D.says archive.old archive.new) }
    ensures only { (files contents : Files) (rows : AllRows) → D.says.seen journal.old files →
        D.says.seen archive.old contents → HoldWhole files contents rows →
        IsReadOrSaysNothing result (λ found. (table : TableId) → rows_of found.tables table ≡ rows table) }
    ensures damaged { (files contents : Files) → D.says.seen journal.old files → D.says.seen archive.old contents →
        IfErr result (Tells (IsDamage files contents)) }
    ensures unmade { (files : Files) → D.says.seen journal.old files → result ≡ Err Unmade → length (files 0) ≡ 0 }
    ensures exactly { (files : Files) → D.says.seen journal.old files → length (files 0) ≡ 0 →
        IsUnmadeOrSaysNothing result }
    ensures read { IfErr result (λ fault. fault ≢ DiskFault →
        HasSynced D.says journal.old journal.new × HasSynced D.says archive.old archive.new) }
    ensures journal_looks { LooksOnly D.says journal.old journal.new }
    ensures archive_looks { LooksOnly D.says archive.old archive.new }
    ensures journal_told { StillTells (D.says.seen journal.old) (D.says.seen journal.new) }
    ensures archive_told { StillTells (D.says.seen archive.old) (D.says.seen archive.new) }
    ensures unfailed { UnlessFault result ((D.says.faults journal.new ≡ D.says.faults journal.old) ×
        (D.says.faults archive.new ≡ D.says.faults archive.old)) }
    ensures cause { AreCauses (D.says.faults journal.old) (D.says.faults journal.new) (D.says.faults archive.old)
        (D.says.faults archive.new) (result ≡ Err DiskFault) }
{
    journal.sync()?;
    archive.sync()?;
    let mut found = read_kept_rows(alloc, journal)?;
    let end = read_contents(alloc, archive, &found.tables)?;
    found.tables.set_archive_end(end);
    Ok(found)
}

/// Opens the files of a depot: syncs both disks, and reads the root, the checkpoint of its generation and
/// the journal.
///
/// It is checked that the changes fit the rows before them, that the rows keep their rules, that deleted
/// revisions have their place at 0, that the counter `journal` tells the generation, that no spot ends behind
/// the archive, and that each content has its digest.
pub fn open_files<D: Disk>(alloc: Global, journal: D, archive: D) -> Result<Opened<D>, NotOpened<D>>
    // What is committed has the rows of the tables.
    ensures open { IfOk result (λ opened. (was : Committed) × IsOpen D.says was opened) }
    // These are the rows that the files hold.
    ensures held { (files : Files) → D.says.seen journal files →
        IfOk result (λ opened. Hold files (rows_of opened.tables)) }
    ensures within { (contents : Files) → D.says.seen archive contents →
        IfOk result (λ opened. opened.tables.archive_end ≤ length (contents 0)) }
    // The archive has the content of each live revision.
    ensures contents { (contents : Files) → D.says.seen archive contents →
        IfOk result (λ opened. AreWhole (contents 0) (rows_of opened.tables Rev)) }
    // The rows keep their rules, deleted revisions having no place, and tell the generation of the files.
    ensures suit { IfOk result (λ opened. SuitFiles (generation_of_journal opened.journal) (rows_of opened.tables)) }
    // So the files hold them whole.
    ensures whole { (files contents : Files) → D.says.seen journal files → D.says.seen archive contents →
        IfOk result (λ opened. HoldWhole files contents (rows_of opened.tables)) }
    // Files that hold rows that suit them, and their contents, are opened, and so those are that stand for a depot: the
    // rows then stand for it.
    ensures opens { (files contents : Files) (rows : AllRows) → D.says.seen journal files →
        D.says.seen archive contents → HoldWhole files contents rows → OpensOrSaysNothing result }
    ensures stands { (files contents : Files) (d : List Deed) → D.says.seen journal files →
        D.says.seen archive contents → StandFor d files contents →
        OpensOrSaysNothing result × IfOk result (λ opened. Stand (rows_of opened.tables) d) }
    ensures damaged { (files contents : Files) → D.says.seen journal files → D.says.seen archive contents →
        IfErr result (λ found. Tells (IsDamage files contents) found.fault) }
    ensures unmade { (files : Files) → D.says.seen journal files → IsUnmade result → length (files 0) ≡ 0 }
    ensures exactly { (files : Files) → D.says.seen journal files → length (files 0) ≡ 0 → UnmadeOrSaysNothing result }
    // Files that aren't opened, where no disk failed, read as before, and a crash leaves what they read.
    ensures unopened { IfErr result (λ found. found.fault ≢ DiskFault →
        HasSynced D.says journal found.journal × HasSynced D.says archive found.archive) }
    ensures journal_synced { IfOk result (λ opened. HasSynced D.says journal (disk_of opened.journal)) }
    ensures archive_synced { IfOk result (λ opened. HasSynced D.says archive (archive_of opened.archive)) }
    ensures journal_looks { LooksOnly D.says journal (journal_disk result) }
    ensures archive_looks { LooksOnly D.says archive (archive_disk result) }
    // Each disk that told what it reads still does, whatever is answered.
    ensures journal_told { StillTells (D.says.seen journal) (D.says.seen (journal_disk result)) }
    ensures archive_told { StillTells (D.says.seen archive) (D.says.seen (archive_disk result)) }
    // Where no fault of a disk is answered the counts of both disks stand.
    ensures unfailed { (IsDiskFault result → ⊥) →
        (D.says.faults (journal_disk result) ≡ D.says.faults journal) ×
        (D.says.faults (archive_disk result) ≡ D.says.faults archive) }
    ensures cause { AreCauses (D.says.faults journal) (D.says.faults (journal_disk result)) (D.says.faults archive)
        (D.says.faults (archive_disk result)) (IsDiskFault result) }
{
    let mut journal = journal;
    let mut archive = archive;
    match read_depot(alloc, &mut journal, &mut archive) {
        Ok(found) => {
            let used = found.tables.archive_end();
            let end = found.end;
            Ok(Opened {
                tables: found.tables,
                journal: Journal::adopt(journal, found.generation, end.groups, end.length),
                archive: Archive::adopt(archive, used),
            })
        }
        Err(fault) => Err(NotOpened {
            fault,
            journal,
            archive,
        }),
    }
}
