//! Checking all contents of a node.

ghost use Rattle.std.specs.Prelude.{◌≡◌, ◌≤◌, length, count_by, Err, IfOk};
ghost use Rattle.std.specs.Result.{IfErr};
ghost use Rattle.archive_file.specs.Archive.{disk_of, used_of};
ghost use Rattle.depot_rows.specs.db_records.Record.{is_live};
ghost use Rattle.depot_rows.specs.db_records.declared.table.TableId.TheVariants.{Rev};
ghost use Rattle.depot_rows.specs.table_changes.Changed.{rows_of};
ghost use Rattle.outside_api.specs.Disk.{Files};
ghost use Rattle.recovery.specs.Contents.{AreWhole, IsBadAt, IsSpotDamage, IsWhole};
ghost use Rattle.recovery.specs.Holding.{spot_end, spots_end};
ghost use Rattle.recovery.specs.Looking.{IsCause, OnlyReads};
ghost use Rattle.replica_chain.specs.Chronicle.{Chronicle};
ghost use Rattle.replica_chain.specs.Copying.{IfBadContent, IsOfContents};
ghost use Rattle.replica_chain.specs.Node.{CanFollow, IsNode};
ghost use Rattle.replica_chain.specs.declared.fault.NodeFault.TheVariants as faults;

use crate::contents::check_content;
use crate::fault::NodeFault;
use crate::node::Node;
use archive_file::Archive;
use depot_rows::records::{Record, TableId};
use depot_rows::tables::Tables;
use outside_api::Disk;
use std::alloc::Global;

/// Checks the content of a row, if it is of a live revision, and answers whether it is.
fn verify_row<D: Disk>(
    alloc: Global,
    archive: &mut Archive<D>,
    row: &Record,
) -> Result<bool, NodeFault>
    ensures live { IfOk result (λ live. live ≡ is_live row.now) }
    ensures whole { (files : Files) → D.says.seen (disk_of archive.old) files → spot_end row.now ≤ length (files 0) →
        IfOk result (λ live. IsWhole (files 0) row.now) }
    ensures bad { (files : Files) → D.says.seen (disk_of archive.old) files → spot_end row.now ≤ length (files 0) →
        IfBadContent result (IsBadAt (files 0) row.now) }
    ensures only { IfErr result IsOfContents }
    ensures reads { OnlyReads D.says (disk_of archive.old) (disk_of archive.new) }
    ensures used { used_of archive.new ≡ used_of archive.old }
    ensures cause { IsCause (D.says.faults (disk_of archive.old)) (D.says.faults (disk_of archive.new))
        (result ≡ Err faults.DiskFault) }
{
    match row {
        Record::Rev(revision) if row.live() => {
            check_content(alloc, archive, revision)?;
            Ok(true)
        }
        _ => Ok(false),
    }
}

/// Checks the content of each live revision, and answers how many there are. More than a number of 64 bits can say are
/// never in memory.
fn verify_rows<D: Disk>(
    alloc: Global,
    archive: &mut Archive<D>,
    tables: &Tables,
) -> Result<u64, NodeFault>
    ensures verified { (files : Files) → D.says.seen (disk_of archive.old) files →
        spots_end (rows_of tables.now Rev) ≤ length (files 0) →
        IfOk result (λ count. AreWhole (files 0) (rows_of tables.now Rev)) }
    ensures count { IfOk result (λ count. count ≡ count_by is_live (rows_of tables.now Rev)) }
    ensures bad { (files : Files) → D.says.seen (disk_of archive.old) files →
        spots_end (rows_of tables.now Rev) ≤ length (files 0) →
        IfBadContent result (IsSpotDamage (files 0) (rows_of tables.now Rev)) }
    ensures only { IfErr result IsOfContents }
    ensures reads { OnlyReads D.says (disk_of archive.old) (disk_of archive.new) }
    ensures used { used_of archive.new ≡ used_of archive.old }
    ensures cause { IsCause (D.says.faults (disk_of archive.old)) (D.says.faults (disk_of archive.new))
        (result ≡ Err faults.DiskFault) }
{
    let mut count = 0u64;
    for row in tables.version(TableId::Rev).rows() {
        let live = verify_row(alloc, archive, row)?;
        if count > u64::MAX - live as u64 {
            return Err(NodeFault::Memory);
        }
        count += live as u64;
    }
    Ok(count)
}

impl<D: Disk> Node<D> {
    /// Reads each content once, and answers how many there are. The place of the first, by path and revision, that
    /// hasn't the digest of its revision is told.
    pub fn verify(&mut self, alloc: Global) -> Result<u64, NodeFault>
        ensures verified { (files : Files) → D.says.seen (disk_of self.old.archive) files →
            spots_end (rows_of self.old.tables Rev) ≤ length (files 0) →
            IfOk result (λ count. AreWhole (files 0) (rows_of self.old.tables Rev)) }
        ensures count { IfOk result (λ count. count ≡ count_by is_live (rows_of self.old.tables Rev)) }
        ensures bad { (files : Files) → D.says.seen (disk_of self.old.archive) files →
            spots_end (rows_of self.old.tables Rev) ≤ length (files 0) →
            IfBadContent result (IsSpotDamage (files 0) (rows_of self.old.tables Rev)) }
        ensures only { IfErr result IsOfContents }
        // The archive was only read, and what the node has it still has.
        ensures others { self.new ≡ record self.old { archive = self.new.archive } }
        ensures reads { OnlyReads D.says (disk_of self.old.archive) (disk_of self.new.archive) }
        ensures used { used_of self.new.archive ≡ used_of self.old.archive }
        ensures node { (c : Chronicle) → IsNode D.says self.old c → IsNode D.says self.new c }
        ensures can { CanFollow D.says self.old → CanFollow D.says self.new }
        ensures cause { IsCause (D.says.faults (disk_of self.old.archive)) (D.says.faults (disk_of self.new.archive))
            (result ≡ Err faults.DiskFault) }
    {
        verify_rows(alloc, &mut self.archive, &self.tables)
    }
}
