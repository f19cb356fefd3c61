//! Contents that commands store in the archive, and contents that they read there or are given.

ghost use Rattle.std.specs.Prelude.{◌≡◌, ◌↔◌, ◌+◌, ◌≤◌, ◌<◌, ◌^◌, ℕ, List, [], length, All, IsTrue, IfOk, OnOk};
ghost use Rattle.archive_file.specs.Archive.{HasMemoryOr, RisesForFaults, disk_of, used_of};
ghost use Rattle.outside_api.specs.Count.{HasCause};
ghost use Rattle.outside_api.specs.Disk.{Files, NoMore, Same};
ghost use Rattle.depot_commit.specs.Placing.{KeepsUsed};
ghost use Rattle.depot_commit.specs.Storing.{AllReach, AllStoredTo, AreAt, EndsBy, IsAt};

use archive_file::{Archive, ContentFault};
use depot_rows::paths::{Sequence, Text};
use outside_api::{Disk, DiskFault};
use reply_rows::RowContent;
use std::alloc::Global;

/// Stores contents one after another from a place on that isn't below what is used of the archive, and
/// answers where they end: a write of each, and one sync behind the last. Without contents no call of
/// the disk is made. What is stored isn't counted as used yet.
pub(crate) fn store_all<D: Disk>(
    archive: &mut Archive<D>,
    at: u64,
    contents: &[Text],
) -> Result<u64, DiskFault>
    requires above { used_of archive.old ≤ at }
    requires fits { at < 2 ^ 63 }
    requires room { AllReach (D.says.may_leave (disk_of archive.old)) at }
    ensures stored { IfOk result (λ end. AllStoredTo (D.says.may_leave (disk_of archive.new)) contents.now at end) }
    ensures kept { KeepsUsed D.says at archive.old archive.new }
    ensures no_call { contents.now ≡ [] → archive.new ≡ archive.old }
    ensures at_most { D.says.calls (disk_of archive.new) ≤ D.says.calls (disk_of archive.old) + length contents.now + 1 }
    ensures only { OnOk result (D.says.faults (disk_of archive.new) ≡ D.says.faults (disk_of archive.old)) }
    ensures cause { HasCause (D.says.faults (disk_of archive.old)) (D.says.faults (disk_of archive.new)) result }
{
    if contents.is_empty() {
        return Ok(at);
    }
    let mut end = at;
    for content in contents {
        let spot = archive.write(end, content.as_bytes())?;
        end = spot.at + spot.length;
    }
    archive.sync()?;
    Ok(end)
}

/// Whether what is read for a content, if anything is, ends within what is used of the archive.
fn is_within(place: &RowContent, used: u64) -> bool
    ensures { IsTrue result ↔ EndsBy used place.now }
{
    match place {
        RowContent::At(spot) => spot.at <= used && spot.length <= used - spot.at,
        RowContent::Given(_) => true,
    }
}

/// Whether that holds of all.
pub(crate) fn are_within(places: &[RowContent], used: u64) -> bool
    ensures { IsTrue result ↔ All (EndsBy used) places.now }
{
    for place in places {
        if !is_within(place, used) {
            return false;
        }
    }
    true
}

/// A content: the bytes at its spot of the archive, or a copy of the text that is given.
fn read_one<D: Disk>(
    alloc: Global,
    archive: &mut Archive<D>,
    place: &RowContent,
) -> Result<Text, ContentFault>
    requires { EndsBy (used_of archive.old) place.now }
    ensures content { (files : Files) (content : List ℕ) → D.says.seen (disk_of archive.old) files →
        IsAt (files 0) place.now content → IfOk result (λ text. text ≡ content) }
    ensures same { Same (D.says.seen (disk_of archive.old)) (D.says.seen (disk_of archive.new)) }
    ensures crash { NoMore (D.says.may_leave (disk_of archive.old)) (D.says.may_leave (disk_of archive.new)) }
    ensures used { used_of archive.new ≡ used_of archive.old }
    ensures only { RisesForFaults (D.says.faults (disk_of archive.old)) (D.says.faults (disk_of archive.new)) result }
    ensures cause { HasMemoryOr (D.says.faults (disk_of archive.old)) (D.says.faults (disk_of archive.new)) result }
{
    match place {
        RowContent::At(spot) => archive.read(alloc, *spot),
        RowContent::Given(text) => match Text::from_bytes(alloc, text.as_bytes()) {
            Ok(copy) => Ok(copy),
            Err(_) => Err(ContentFault::Memory),
        },
    }
}

/// The contents of these places, in their order: each the bytes at its spot of the archive, or a copy
/// of the text that is given. Without places no call of the disk is made.
pub(crate) fn read_all<D: Disk>(
    alloc: Global,
    archive: &mut Archive<D>,
    places: &[RowContent],
) -> Result<Sequence<Text>, ContentFault>
    requires { All (EndsBy (used_of archive.old)) places.now }
    ensures contents { (files : Files) (contents : List (List ℕ)) → D.says.seen (disk_of archive.old) files →
        AreAt (files 0) places.now contents → IfOk result (λ texts. texts ≡ contents) }
    ensures same { Same (D.says.seen (disk_of archive.old)) (D.says.seen (disk_of archive.new)) }
    ensures crash { NoMore (D.says.may_leave (disk_of archive.old)) (D.says.may_leave (disk_of archive.new)) }
    ensures used { used_of archive.new ≡ used_of archive.old }
    ensures no_call { places.now ≡ [] → archive.new ≡ archive.old }
    ensures only { RisesForFaults (D.says.faults (disk_of archive.old)) (D.says.faults (disk_of archive.new)) result }
    ensures cause { HasMemoryOr (D.says.faults (disk_of archive.old)) (D.says.faults (disk_of archive.new)) result }
{
    let mut contents = Sequence::new(alloc);
    for place in places {
        let content = read_one(alloc, archive, place)?;
        match contents.push(content) {
            Ok(()) => {}
            Err(_) => return Err(ContentFault::Memory),
        }
    }
    Ok(contents)
}
