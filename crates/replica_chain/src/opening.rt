//! Opening the files of a node.

ghost use Rattle.std.specs.Prelude.{◌≡◌, ◌≢◌, ◌+◌, ℕ, List, [], length, IfOk};
ghost use Rattle.std.specs.Result.{IfErr};
ghost use Rattle.archive_file.specs.Archive.{disk_of as archive_of};
ghost use Rattle.disk_journal.specs.Scanned.{IsMarkOf};
ghost use Rattle.disk_journal.specs.Stands.{disk_of, generation_of_journal};
ghost use Rattle.outside_api.specs.Disk.{Files};
ghost use Rattle.recovery.specs.Contents.{HoldWhole};
ghost use Rattle.recovery.specs.Damage.{IsDamage};
ghost use Rattle.recovery.specs.Faults.{Tells};
ghost use Rattle.recovery.specs.Holding.{Hold};
ghost use Rattle.recovery.specs.Looking.{AreCauses};
ghost use Rattle.recovery.specs.Opening.{HasSynced, LooksOnly};
ghost use Rattle.recovery.specs.declared.fault.OpenFault.TheVariants.{DiskFault};
ghost use Rattle.depot_rows.specs.table_changes.Changed.{AllRows, rows_of};
ghost use Rattle.replica_chain.specs.Chronicle.{Chronicle};
ghost use Rattle.replica_chain.specs.Node.{CanFollow, IsNode};
ghost use Rattle.replica_chain.specs.Opening.{AreWritten, IsDiskFault, IsFresh, IsUnmade, OpensOrSaysNothing, archive_disk, journal_disk};

use crate::counting::{Counts, count_journal};
use crate::link::NodeLink;
use crate::node::Node;
use depot_rows::paths::Text;
use disk_journal::Scanned;
use outside_api::Disk;
use recovery::{NotOpened, OpenFault, Opened, open_files};
use std::alloc::Global;

/// Files that weren't opened as a node's, with both disks.
#[derive(Drop)]
pub struct NotNode<D: Disk> {
    pub fault: OpenFault,
    pub journal: D,
    pub archive: D,
}

/// The node of files that are open and were counted.
fn node_of<D: Disk>(alloc: Global, opened: Opened<D>, counts: Counts) -> Node<D>
    ensures parts { (result.link.journal ≡ opened.journal) × (result.archive ≡ opened.archive) ×
        (result.tables ≡ opened.tables) × (result.rest ≡ []) }
    ensures counts { (result.before ≡ counts.before.bytes) × (result.at ≡ counts.newest.bytes) ×
        (result.number ≡ 1 + counts.newest.groups) ×
        (result.changes ≡ counts.before.groups + counts.newest.groups + generation_of_journal opened.journal) }
    ensures scanned { (file : List ℕ) → IsMarkOf result.link.scanned file }
{
    let Opened {
        tables,
        journal,
        archive,
    } = opened;
    let closed = journal.generation() as u64;
    Node {
        link: NodeLink {
            journal,
            scanned: Scanned::nothing(),
        },
        archive,
        tables,
        before: counts.before.bytes,
        at: counts.newest.bytes,
        rest: Text::new(alloc),
        number: counts.newest.groups + 1,
        changes: counts.before.groups + counts.newest.groups + closed,
    }
}

/// The disks of files that couldn't be counted.
fn not_counted<D: Disk>(opened: Opened<D>, fault: OpenFault) -> NotNode<D>
    ensures { (result.fault ≡ fault) × (result.journal ≡ disk_of opened.journal) ×
        (result.archive ≡ archive_of opened.archive) }
{
    let Opened {
        tables,
        journal,
        archive,
    } = opened;
    drop(tables);
    NotNode {
        fault,
        journal: journal.into_disk(),
        archive: archive.into_disk(),
    }
}

impl<D: Disk> Node<D> {
    /// The node of these files, which are opened as those of a depot. The groups and the committed bytes of all
    /// generations are counted.
    pub fn open(alloc: Global, journal: D, archive: D) -> Result<Node<D>, NotNode<D>>
        ensures can { IfOk result (CanFollow D.says) }
        // Of files that were written from the first change on it has all changes, and nothing is in doubt.
        ensures node { (c : Chronicle) (files contents : Files) → D.says.seen journal files →
            D.says.seen archive contents → AreWritten c files →
            IfOk result (λ node. IsNode D.says node c) }
        ensures fresh { IfOk result (IsFresh D.says) }
        // Its rows are those that the files hold.
        ensures holds { (files : Files) → D.says.seen journal files →
            IfOk result (λ node. Hold files (rows_of node.tables)) }
        // It is opened as a depot's files are.
        ensures opens { (files contents : Files) (rows : AllRows) → D.says.seen journal files →
            D.says.seen archive contents → HoldWhole files contents rows → OpensOrSaysNothing result }
        ensures damaged { (files contents : Files) → D.says.seen journal files → D.says.seen archive contents →
            IfErr result (λ found. Tells (IsDamage files contents) found.fault) }
        ensures unmade { (files : Files) → D.says.seen journal files → IsUnmade result → length (files 0) ≡ 0 }
        ensures unopened { IfErr result (λ found. found.fault ≢ DiskFault →
            HasSynced D.says journal found.journal × HasSynced D.says archive found.archive) }
        ensures journal_synced { IfOk result (λ node. HasSynced D.says journal (journal_disk result)) }
        ensures archive_synced { IfOk result (λ node. HasSynced D.says archive (archive_disk result)) }
        ensures journal_looks { LooksOnly D.says journal (journal_disk result) }
        ensures archive_looks { LooksOnly D.says archive (archive_disk result) }
        ensures cause { AreCauses (D.says.faults journal) (D.says.faults (journal_disk result)) (D.says.faults archive)
            (D.says.faults (archive_disk result)) (IsDiskFault result) }
    {
        match open_files(alloc, journal, archive) {
            Err(found) => {
                let NotOpened {
                    fault,
                    journal,
                    archive,
                } = found;
                Err(NotNode {
                    fault,
                    journal,
                    archive,
                })
            }
            Ok(opened) => {
                let mut opened = opened;
                match count_journal(alloc, &mut opened.journal) {
                    Ok(counts) => Ok(node_of(alloc, opened, counts)),
                    Err(fault) => Err(not_counted(opened, fault)),
                }
            }
        }
    }
}
