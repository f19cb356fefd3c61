//! Copying the contents that a group names, and checking them.

ghost use Rattle.std.specs.Prelude.{◌≡◌, ◌≢◌, ◌+◌, ◌<◌, ◌≤◌, ◌^◌, ℕ, List, length, min, Err, IfSome, None, OnOk};
ghost use Rattle.std.specs.Result.{IfErr};
ghost use Rattle.archive_file.specs.Archive.{AllHave, Has, disk_of, end_of as spot_end_of, used_of};
ghost use Rattle.archive_file.specs.Contents.{IsFront};
ghost use Rattle.depot_rows.specs.db_records.declared.change.Spot.{Spot as AnySpot};
ghost use Rattle.depot_rows.specs.db_records.declared.rows.RevRecord.{RevRecord as AnyRevision};
ghost use Rattle.depot_rows.specs.depot_model.Records.{digest};
ghost use Rattle.outside_api.specs.Disk.{Files, StillTells};
ghost use Rattle.outside_api.specs.Moments.{LeavesOnly};
ghost use Rattle.outside_api.specs.Reaching.{Reaches};
ghost use Rattle.recovery.specs.Contents.{HasDigested, bytes_at};
ghost use Rattle.recovery.specs.Looking.{IsCause, OnlyReads};
ghost use Rattle.replica_chain.specs.Copying.{AreBrought, AreCopied, HasAllNamed, IsFilled, KeepsUsed, IfBadContent, IfNoBytes, IsAbsent, IsBadContent, IsOfBringing, IsOfContent, IsOfContents, IsOfCopying, IsOfRevision, HasNamed, named_end, named_ends};
ghost use Rattle.replica_chain.specs.Node.{AllReach};
ghost use Rattle.replica_chain.specs.declared.fault.NodeFault.TheVariants as faults;

use crate::fault::NodeFault;
use archive_file::{Archive, Contents, ContentsFault, MOST_BYTES};
use depot_rows::records::{Change, Op, Record, RevRecord, Spot};
use outside_api::Disk;
use std::alloc::Global;

/// The longest file.
const LONGEST: u64 = 0x7FFF_FFFF_FFFF_FFFF;

/// The record of a revision that a change puts or replaces.
fn revision_of(change: &Change) -> Option<&RevRecord>
    ensures found { IfSome result (λ row. IsOfRevision change.now row.now) }
    ensures none { (row : AnyRevision) → IsOfRevision change.now row → result ≡ None → ⊥ }
{
    if change.op == Op::Remove {
        return None;
    }
    match &change.row {
        Record::Rev(revision) => Some(revision),
        _ => None,
    }
}

/// Where a revision's spot ends.
fn end_of(revision: &RevRecord) -> u64
    ensures { result ≡ min (revision.now.at + revision.now.length) 18446744073709551615 }
{
    revision.at.saturating_add(revision.length)
}

/// Where the spot ends that a change names, 0 where it names none.
#[tactic(auto, using(crate::proofs::Spots::revision_end, crate::proofs::Spots::no_revision_end))]
fn end_named(change: &Change) -> u64
    ensures { result ≡ min (named_end change.now.op change.now.row) 18446744073709551615 }
{
    match revision_of(change) {
        Some(revision) => end_of(revision),
        None => 0,
    }
}

/// Where the last spot ends that changes name, 0 where they name none.
pub(crate) fn spots_end(changes: &[Change]) -> u64
    ensures { result ≡ min (named_ends changes.now) 18446744073709551615 }
{
    let mut end = 0;
    for change in changes {
        end = end_named(change).max(end);
    }
    end
}

/// Copies one piece of an archive to its place.
fn copy_piece<D: Disk, C: Contents>(
    alloc: Global,
    contents: &mut C,
    archive: &mut Archive<D>,
    spot: Spot,
) -> Result<(), NodeFault>
    requires most { spot.length ≤ 8388608 }
    requires above { used_of archive.old ≤ spot.at }
    requires room { AllReach (D.says.may_leave (disk_of archive.old)) spot.at }
    ensures fits { OnOk result (spot_end_of spot < 2 ^ 63) }
    ensures copied { OnOk result ((content : List ℕ) ×
        (((bytes : List ℕ) → C.tells contents.new bytes → Has bytes spot content) × (AllHave (D.says.may_leave (disk_of archive.new)) spot content × (length content ≡ spot.length)))) }
    ensures kept { (other : AnySpot) (bytes : List ℕ) → spot_end_of other ≤ spot.at →
        AllHave (D.says.may_leave (disk_of archive.old)) other bytes →
        AllHave (D.says.may_leave (disk_of archive.new)) other bytes }
    ensures any_moment { (other : AnySpot) (bytes : List ℕ) → spot_end_of other ≤ spot.at →
        AllHave (D.says.may_leave (disk_of archive.old)) other bytes →
        LeavesOnly D.says (disk_of archive.old) (disk_of archive.new) (λ c. Has (c 0) other bytes) }
    ensures told { StillTells (D.says.seen (disk_of archive.old)) (D.says.seen (disk_of archive.new)) }
    ensures used { used_of archive.new ≡ used_of archive.old }
    ensures grows { (before : List ℕ) → C.tells contents.old before →
        (now : List ℕ) × (C.tells contents.new now × IsFront before now) }
    ensures absent { IfNoBytes result (λ place. (place ≡ spot.at) ×
        ((bytes : List ℕ) → C.tells contents.new bytes → length bytes < spot_end_of spot)) }
    ensures only { IfErr result IsOfCopying }
    ensures looked { C.keeps contents.old contents.new }
    ensures contents_cause { IsCause (C.faults contents.old) (C.faults contents.new)
        (result ≡ Err faults.ContentsFailed) }
    ensures cause { IsCause (D.says.faults (disk_of archive.old)) (D.says.faults (disk_of archive.new))
        (result ≡ Err faults.DiskFault) }
{
    let text = match contents.content(alloc, spot) {
        Ok(text) => text,
        Err(ContentsFault::Failed) => return Err(NodeFault::ContentsFailed),
        Err(ContentsFault::Absent) => return Err(NodeFault::NoBytes(spot.at)),
        Err(ContentsFault::Memory) => return Err(NodeFault::Memory),
    };
    archive.store(spot.at, text.as_bytes())?;
    Ok(())
}

/// Copies the bytes of an archive from the end of what is used of the copy to a place, piece by piece. They aren't
/// counted as used yet.
fn copy_contents<D: Disk, C: Contents>(
    alloc: Global,
    contents: &mut C,
    archive: &mut Archive<D>,
    end: u64,
) -> Result<(), NodeFault>
    requires room { AllReach (D.says.may_leave (disk_of archive.old)) (used_of archive.old) }
    ensures fits { OnOk result (used_of archive.old < end → end < 2 ^ 63) }
    ensures copied { OnOk result (AreCopied D.says (C.tells contents.old) (C.tells contents.new) archive.old archive.new end) }
    ensures keeps { KeepsUsed D.says archive.old archive.new }
    ensures grows { (before : List ℕ) → C.tells contents.old before →
        (now : List ℕ) × (C.tells contents.new now × IsFront before now) }
    ensures absent { IfNoBytes result (λ place. (bytes : List ℕ) → C.tells contents.new bytes →
        IsAbsent bytes (used_of archive.old) end place) }
    ensures only { IfErr result IsOfCopying }
    ensures contents_reached { Reaches C.keeps contents.old contents.new }
    ensures contents_cause { IsCause (C.faults contents.old) (C.faults contents.new)
        (result ≡ Err faults.ContentsFailed) }
    ensures cause { IsCause (D.says.faults (disk_of archive.old)) (D.says.faults (disk_of archive.new))
        (result ≡ Err faults.DiskFault) }
{
    let mut at = archive.used();
    while at < end {
        let length = (end - at).min(MOST_BYTES);
        copy_piece(alloc, contents, archive, Spot { at, length })?;
        at += length;
    }
    Ok(())
}

/// Checks that the bytes at a revision's spot have its digest.
pub(crate) fn check_content<D: Disk>(
    alloc: Global,
    archive: &mut Archive<D>,
    revision: &RevRecord,
) -> Result<(), NodeFault>
    ensures good { (files : Files) → D.says.seen (disk_of archive.old) files →
        revision.now.at + revision.now.length ≤ length (files 0) → OnOk result (HasDigested (files 0) revision.now) }
    ensures bad { (files : Files) → D.says.seen (disk_of archive.old) files →
        revision.now.at + revision.now.length ≤ length (files 0) →
        IfBadContent result (λ place. (place ≡ revision.now.at) ×
        (revision.now.digest ≢ digest (bytes_at (files 0) revision.now))) }
    ensures only { IfErr result IsOfContents }
    ensures reads { OnlyReads D.says (disk_of archive.old) (disk_of archive.new) }
    ensures used { used_of archive.new ≡ used_of archive.old }
    ensures cause { IsCause (D.says.faults (disk_of archive.old)) (D.says.faults (disk_of archive.new))
        (result ≡ Err faults.DiskFault) }
{
    let spot = Spot {
        at: revision.at,
        length: revision.length,
    };
    if end_of(revision) > LONGEST {
        return Err(NodeFault::Memory);
    }
    let found = archive.digest_at(alloc, spot)?;
    if found != revision.digest {
        return Err(NodeFault::BadContent(revision.at));
    }
    Ok(())
}

/// Checks the content that a change names, if any.
fn check_named<D: Disk>(
    alloc: Global,
    archive: &mut Archive<D>,
    change: &Change,
) -> Result<(), NodeFault>
    ensures good { (files : Files) → D.says.seen (disk_of archive.old) files →
        named_end change.now.op change.now.row ≤ length (files 0) → OnOk result (HasNamed (files 0) change.now) }
    ensures bad { (files : Files) → D.says.seen (disk_of archive.old) files →
        named_end change.now.op change.now.row ≤ length (files 0) →
        IfBadContent result (λ place. (row : AnyRevision) ×
        (IsOfContent change.now row × ((place ≡ row.at) × (row.digest ≢ digest (bytes_at (files 0) row))))) }
    ensures only { IfErr result IsOfContents }
    ensures reads { OnlyReads D.says (disk_of archive.old) (disk_of archive.new) }
    ensures used { used_of archive.new ≡ used_of archive.old }
    ensures cause { IsCause (D.says.faults (disk_of archive.old)) (D.says.faults (disk_of archive.new))
        (result ≡ Err faults.DiskFault) }
{
    match revision_of(change) {
        Some(revision) if change.row.live() => check_content(alloc, archive, revision),
        _ => Ok(()),
    }
}

/// Checks the contents that changes name.
fn check_contents<D: Disk>(
    alloc: Global,
    archive: &mut Archive<D>,
    changes: &[Change],
) -> Result<(), NodeFault>
    ensures good { (files : Files) → D.says.seen (disk_of archive.old) files →
        named_ends changes.now ≤ length (files 0) → OnOk result (HasAllNamed (files 0) changes.now) }
    ensures bad { (files : Files) → D.says.seen (disk_of archive.old) files →
        named_ends changes.now ≤ length (files 0) → IfBadContent result (IsBadContent (files 0) changes.now) }
    ensures only { IfErr result IsOfContents }
    ensures reads { OnlyReads D.says (disk_of archive.old) (disk_of archive.new) }
    ensures used { used_of archive.new ≡ used_of archive.old }
    ensures cause { IsCause (D.says.faults (disk_of archive.old)) (D.says.faults (disk_of archive.new))
        (result ≡ Err faults.DiskFault) }
{
    for change in changes {
        check_named(alloc, archive, change)?;
    }
    Ok(())
}

/// Brings the contents that changes name to their spots: copies what isn't there, checks all of them, and counts them
/// as used.
pub(crate) fn bring_contents<D: Disk, C: Contents>(
    alloc: Global,
    contents: &mut C,
    archive: &mut Archive<D>,
    changes: &[Change],
) -> Result<(), NodeFault>
    requires room { AllReach (D.says.may_leave (disk_of archive.old)) (used_of archive.old) }
    requires small { used_of archive.old < 2 ^ 63 }
    ensures filled { IsFilled D.says (C.tells contents.old) (C.tells contents.new) archive.old archive.new }
    ensures brought { OnOk result (AreBrought D.says archive.new changes.now) }
    ensures absent { IfNoBytes result (λ place. (bytes : List ℕ) → C.tells contents.new bytes →
        IsAbsent bytes (used_of archive.new) (named_ends changes.now) place) }
    ensures bad { IfBadContent result (λ place. (files : Files) → D.says.seen (disk_of archive.new) files →
        IsBadContent (files 0) changes.now place) }
    ensures only { IfErr result IsOfBringing }
    ensures contents_reached { Reaches C.keeps contents.old contents.new }
    ensures contents_cause { IsCause (C.faults contents.old) (C.faults contents.new)
        (result ≡ Err faults.ContentsFailed) }
    ensures cause { IsCause (D.says.faults (disk_of archive.old)) (D.says.faults (disk_of archive.new))
        (result ≡ Err faults.DiskFault) }
{
    let end = spots_end(changes);
    copy_contents(alloc, contents, archive, end)?;
    check_contents(alloc, archive, changes)?;
    archive.keep(Spot { at: end, length: 0 });
    Ok(())
}
