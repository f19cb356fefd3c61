//! The contents of revisions at their spots in the archive, and their digests.

ghost use Rattle.std.specs.Prelude.{◌≡◌, ◌≢◌, ◌≤◌, ◌<◌, ◌+◌, ◌^◌, length, IfOk, OnOk, Err};
ghost use Rattle.std.specs.Result.{IfErr};
ghost use Rattle.outside_api.specs.Disk.{Files};
ghost use Rattle.depot_rows.specs.db_records.declared.table.TableId.TheVariants.{Rev};
ghost use Rattle.depot_rows.specs.depot_model.Records.{digest};
ghost use Rattle.depot_rows.specs.table_changes.Changed.{rows_of};
ghost use Rattle.recovery.specs.Contents.{HasDigested, IsWhole, AreWhole, IsBadAt, IsSpotDamage, bytes_at};
ghost use Rattle.recovery.specs.Faults.{IsOfArchive, IfDamaged, UnlessFault};
ghost use Rattle.recovery.specs.Holding.{spot_end, spots_end};
ghost use Rattle.recovery.specs.Looking.{OnlyReads, IsCause};
ghost use Rattle.recovery.specs.declared.fault.DepotDisk.TheVariants.{Archive};
ghost use Rattle.recovery.specs.declared.fault.OpenFault.TheVariants.{Damaged, DiskFault};

use crate::fault::{DepotDisk, OpenFault};
use crate::spots::{end_within, revisions};
use archive_file::digest_on_disk;
use depot_rows::records::{Record, RevRecord, Spot};
use depot_rows::tables::Tables;
use outside_api::Disk;
use std::alloc::Global;

/// The file of the archive's disk.
const CONTENTS: u32 = 0;

/// How many bytes of the file are read at a time.
const PIECE: usize = 65_536;

/// The fault of the archive at a place.
fn damaged(place: u64) -> OpenFault
    ensures { result ≡ Damaged Archive 0 place }
{
    OpenFault::Damaged {
        disk: DepotDisk::Archive,
        file: CONTENTS,
        place,
    }
}

/// Checks that the bytes at the spot of a revision have its digest.
fn check_content<D: Disk>(
    alloc: Global,
    disk: &mut D,
    revision: &RevRecord,
    piece: &mut [u8],
) -> Result<(), OpenFault>
    requires room { 0 < length piece.old }
    requires small { revision.now.at + revision.now.length < 2 ^ 63 }
    ensures content { (files : Files) → D.says.seen disk.old files →
        revision.now.at + revision.now.length ≤ length (files 0) → OnOk result (HasDigested (files 0) revision.now) }
    ensures damaged { (files : Files) → D.says.seen disk.old files →
        revision.now.at + revision.now.length ≤ length (files 0) →
        IfDamaged result (λ place. (place ≡ revision.now.at) ×
        (revision.now.digest ≢ digest (bytes_at (files 0) revision.now))) }
    ensures fault { IfErr result IsOfArchive }
    ensures reads { OnlyReads D.says disk.old disk.new }
    ensures unfailed { UnlessFault result (D.says.faults disk.new ≡ D.says.faults disk.old) }
    ensures cause { IsCause (D.says.faults disk.old) (D.says.faults disk.new) (result ≡ Err DiskFault) }
{
    let spot = Spot {
        at: revision.at,
        length: revision.length,
    };
    let found = digest_on_disk(alloc, disk, spot, piece)?;
    if found != revision.digest {
        return Err(damaged(revision.at));
    }
    Ok(())
}

/// Checks the spot of a row and its content, and answers where the spot ends. Only revisions have a spot,
/// and only live ones a content.
fn check_row<D: Disk>(
    alloc: Global,
    disk: &mut D,
    row: &Record,
    limit: u64,
    piece: &mut [u8],
) -> Result<u64, OpenFault>
    requires room { 0 < length piece.old }
    requires small { limit < 2 ^ 63 }
    ensures end { IfOk result (λ end. (end ≡ spot_end row.now) × (end ≤ limit)) }
    ensures whole { (files : Files) → D.says.seen disk.old files → limit ≡ length (files 0) →
        IfOk result (λ end. IsWhole (files 0) row.now) }
    ensures damaged { (files : Files) → D.says.seen disk.old files → limit ≡ length (files 0) →
        IfDamaged result (IsBadAt (files 0) row.now) }
    ensures fault { IfErr result IsOfArchive }
    ensures reads { OnlyReads D.says disk.old disk.new }
    ensures unfailed { UnlessFault result (D.says.faults disk.new ≡ D.says.faults disk.old) }
    ensures cause { IsCause (D.says.faults disk.old) (D.says.faults disk.new) (result ≡ Err DiskFault) }
{
    let live = row.live();
    let Record::Rev(revision) = row else {
        return Ok(0);
    };
    let Some(end) = end_within(revision, limit) else {
        return Err(damaged(revision.at));
    };
    if live {
        check_content(alloc, disk, revision, piece)?;
    }
    Ok(end)
}

/// Checks the spots and the contents of all revisions, and answers where the last spot ends.
fn check_rows<D: Disk>(
    alloc: Global,
    disk: &mut D,
    tables: &Tables,
    limit: u64,
    piece: &mut [u8],
) -> Result<u64, OpenFault>
    requires room { 0 < length piece.old }
    requires small { limit < 2 ^ 63 }
    ensures end { IfOk result (λ end. (end ≡ spots_end (rows_of tables.now Rev)) × (end ≤ limit)) }
    ensures whole { (files : Files) → D.says.seen disk.old files → limit ≡ length (files 0) →
        IfOk result (λ end. AreWhole (files 0) (rows_of tables.now Rev)) }
    ensures damaged { (files : Files) → D.says.seen disk.old files → limit ≡ length (files 0) →
        IfDamaged result (IsSpotDamage (files 0) (rows_of tables.now Rev)) }
    ensures fault { IfErr result IsOfArchive }
    ensures reads { OnlyReads D.says disk.old disk.new }
    ensures unfailed { UnlessFault result (D.says.faults disk.new ≡ D.says.faults disk.old) }
    ensures cause { IsCause (D.says.faults disk.old) (D.says.faults disk.new) (result ≡ Err DiskFault) }
{
    let mut end = 0;
    for row in revisions(tables) {
        end = end.max(check_row(alloc, disk, row, limit, piece)?);
    }
    Ok(end)
}

/// Reads every content once, and answers where the last spot of the tables ends in the archive.
pub(crate) fn read_contents<D: Disk>(
    alloc: Global,
    disk: &mut D,
    tables: &Tables,
) -> Result<u64, OpenFault>
    ensures end { IfOk result (λ end. end ≡ spots_end (rows_of tables.now Rev)) }
    ensures within { (files : Files) → D.says.seen disk.old files → IfOk result (λ end. end ≤ length (files 0)) }
    ensures small { IfOk result (λ end. end < 2 ^ 63) }
    ensures whole { (files : Files) → D.says.seen disk.old files →
        IfOk result (λ end. AreWhole (files 0) (rows_of tables.now Rev)) }
    ensures damaged { (files : Files) → D.says.seen disk.old files →
        IfDamaged result (IsSpotDamage (files 0) (rows_of tables.now Rev)) }
    ensures fault { IfErr result IsOfArchive }
    ensures reads { OnlyReads D.says disk.old disk.new }
    ensures unfailed { UnlessFault result (D.says.faults disk.new ≡ D.says.faults disk.old) }
    ensures cause { IsCause (D.says.faults disk.old) (D.says.faults disk.new) (result ≡ Err DiskFault) }
{
    let limit = disk.length(CONTENTS)?;
    let mut piece = vec![in alloc; 0u8; PIECE]?;
    check_rows(alloc, disk, tables, limit, piece.as_mut_slice())
}
