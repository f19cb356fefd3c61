//! The archive: contents at their spots in one file.

ghost use Rattle.std.specs.Prelude.{◌≡◌, ◌+◌, ◌<◌, ◌≤◌, ◌^◌, List, ℕ, length, take, drop, max, IfOk, OnOk};
ghost use Rattle.outside_api.specs.Count.{HasCause, counted};
ghost use Rattle.outside_api.specs.Disk.{Files, NoMore, Same, StillTells};
ghost use Rattle.outside_api.specs.Moments.{LeavesOnly};
ghost use Rattle.db_records.specs.declared.change.Spot.{Spot};
ghost use Rattle.archive_file.specs.Archive.{disk_of, used_of, end_of, Has, AllHave, HasMemoryOr, RisesForFaults};
ghost use Rattle.md5.specs.Md5.{md5};
ghost use Rattle.hex.specs.Hex.{encode_upper as digits_of};

use crate::digests::digest_on_disk;
use db_records::Spot;
use db_records::paths::Text;
use outside_api::{Disk, DiskFault, fill};
use std::alloc::Global;

/// The file of the contents.
pub(crate) const FILE: u32 = 0;

/// Why a content can't be given.
#[derive(Clone, Copy, PartialEq, Eq)]
pub enum ContentFault {
    /// The disk has failed.
    DiskFault,
    /// There is no memory for the content.
    Memory,
}

/// Contents at their spots in file 0 of a disk. Those below `used` are never written again.
#[derive(Drop)]
pub struct Archive<D: Disk> {
    disk: D,
    used: u64,
}

impl<D: Disk> Archive<D> {
    /// The archive of a disk whose contents end at `used`, at most the length of the file in bytes.
    /// Makes no call of the disk.
    pub fn adopt(disk: D, used: u64) -> Self
        requires { (files : Files) → D.says.seen disk files → used ≤ length (files 0) }
        ensures disk { disk_of result ≡ disk }
        ensures used { used_of result ≡ used }
    {
        Archive { disk, used }
    }

    /// Where the contents end.
    pub fn used(&self) -> u64
        ensures { result ≡ used_of self.now }
    {
        self.used
    }

    /// The disk.
    pub fn into_disk(self) -> D
        ensures { result ≡ disk_of self }
    {
        self.disk
    }

    /// Writes a content at a place that isn't below `used`, and syncs. After Ok each image has it at
    /// the spot that is answered. Contents that end at or before the place stay, whatever is answered.
    pub fn store(&mut self, at: u64, content: &[u8]) -> Result<Spot, DiskFault>
        requires above { used_of self.old ≤ at }
        requires room { (files : Files) → D.says.seen (disk_of self.old) files → at ≤ length (files 0) }
        ensures spot { IfOk result (λ spot. spot ≡ record { at = at; length = length content.now }) }
        ensures stored { IfOk result (λ spot. AllHave (D.says.may_leave (disk_of self.new)) spot content.now) }
        ensures small { IfOk result (λ spot. end_of spot < 2 ^ 63) }
        ensures kept { (spot : Spot) (bytes : List ℕ) → end_of spot ≤ at →
            AllHave (D.says.may_leave (disk_of self.old)) spot bytes →
            AllHave (D.says.may_leave (disk_of self.new)) spot bytes }
        ensures any_moment { (spot : Spot) (bytes : List ℕ) → end_of spot ≤ at →
            AllHave (D.says.may_leave (disk_of self.old)) spot bytes →
            LeavesOnly D.says (disk_of self.old) (disk_of self.new) (λ c. Has (c 0) spot bytes) }
        ensures told { StillTells (D.says.seen (disk_of self.old)) (D.says.seen (disk_of self.new)) }
        ensures used { used_of self.new ≡ used_of self.old }
        ensures asked { OnOk result (D.says.calls (disk_of self.new) ≡ counted 2 (D.says.calls (disk_of self.old))) }
        ensures at_most { D.says.calls (disk_of self.new) ≤ counted 2 (D.says.calls (disk_of self.old)) }
        ensures only { OnOk result (D.says.faults (disk_of self.new) ≡ D.says.faults (disk_of self.old)) }
        ensures cause { HasCause (D.says.faults (disk_of self.old)) (D.says.faults (disk_of self.new)) result }
    {
        let spot = self.write(at, content)?;
        self.sync()?;
        Ok(spot)
    }

    /// Writes a content at a place that isn't below `used`: a read gives it then at the spot that is
    /// answered, and each image has it after a sync. Contents that end at or before the place stay in
    /// each image, whatever is answered.
    pub fn write(&mut self, at: u64, content: &[u8]) -> Result<Spot, DiskFault>
        requires above { used_of self.old ≤ at }
        requires room { (files : Files) → D.says.seen (disk_of self.old) files → at ≤ length (files 0) }
        ensures spot { IfOk result (λ spot. spot ≡ record { at = at; length = length content.now }) }
        ensures written { IfOk result (λ spot. AllHave (D.says.seen (disk_of self.new)) spot content.now) }
        ensures small { IfOk result (λ spot. end_of spot < 2 ^ 63) }
        // What a read gives before the place it still gives.
        ensures read { OnOk result ((spot : Spot) (bytes : List ℕ) → end_of spot ≤ at →
            AllHave (D.says.seen (disk_of self.old)) spot bytes → AllHave (D.says.seen (disk_of self.new)) spot bytes) }
        ensures kept { (spot : Spot) (bytes : List ℕ) → end_of spot ≤ at →
            AllHave (D.says.may_leave (disk_of self.old)) spot bytes →
            AllHave (D.says.may_leave (disk_of self.new)) spot bytes }
        ensures any_moment { (spot : Spot) (bytes : List ℕ) → end_of spot ≤ at →
            AllHave (D.says.may_leave (disk_of self.old)) spot bytes →
            LeavesOnly D.says (disk_of self.old) (disk_of self.new) (λ c. Has (c 0) spot bytes) }
        ensures told { StillTells (D.says.seen (disk_of self.old)) (D.says.seen (disk_of self.new)) }
        ensures used { used_of self.new ≡ used_of self.old }
        ensures asked { D.says.calls (disk_of self.new) ≡ counted 1 (D.says.calls (disk_of self.old)) }
        ensures only { OnOk result (D.says.faults (disk_of self.new) ≡ D.says.faults (disk_of self.old)) }
        ensures cause { HasCause (D.says.faults (disk_of self.old)) (D.says.faults (disk_of self.new)) result }
    {
        self.disk.write_at(FILE, at, content)?;
        Ok(Spot {
            at,
            length: content.len() as u64,
        })
    }

    /// Syncs: after Ok each image is what a read gives. Whatever is answered, no image is one that
    /// wasn't one before.
    pub fn sync(&mut self) -> Result<(), DiskFault>
        ensures durable { OnOk result (NoMore (D.says.seen (disk_of self.old)) (D.says.may_leave (disk_of self.new))) }
        ensures same { OnOk result (Same (D.says.seen (disk_of self.old)) (D.says.seen (disk_of self.new))) }
        ensures crash { NoMore (D.says.may_leave (disk_of self.old)) (D.says.may_leave (disk_of self.new)) }
        ensures any_moment { LeavesOnly D.says (disk_of self.old) (disk_of self.new) (D.says.may_leave (disk_of self.old)) }
        ensures told { StillTells (D.says.seen (disk_of self.old)) (D.says.seen (disk_of self.new)) }
        ensures used { used_of self.new ≡ used_of self.old }
        ensures asked { D.says.calls (disk_of self.new) ≡ counted 1 (D.says.calls (disk_of self.old)) }
        ensures only { OnOk result (D.says.faults (disk_of self.new) ≡ D.says.faults (disk_of self.old)) }
        ensures cause { HasCause (D.says.faults (disk_of self.old)) (D.says.faults (disk_of self.new)) result }
    {
        self.disk.sync()?;
        Ok(())
    }

    /// Counts a stored content as used, so that no later store is at a place below its end. Makes no
    /// call of the disk.
    pub fn keep(&mut self, spot: Spot)
        requires { end_of spot < 2 ^ 63 }
        ensures used { used_of self.new ≡ max (used_of self.old) (end_of spot) }
        ensures disk { disk_of self.new ≡ disk_of self.old }
    {
        self.used = self.used.max(spot.at + spot.length);
    }

    /// The content at a spot that ends at or before `used`.
    pub fn read(&mut self, alloc: Global, spot: Spot) -> Result<Text, ContentFault>
        requires { end_of spot ≤ used_of self.old }
        ensures content { (files : Files) → D.says.seen (disk_of self.old) files →
            IfOk result (λ text. text ≡ take spot.length (drop spot.at (files 0))) }
        ensures same { Same (D.says.seen (disk_of self.old)) (D.says.seen (disk_of self.new)) }
        ensures crash { NoMore (D.says.may_leave (disk_of self.old)) (D.says.may_leave (disk_of self.new)) }
        ensures any_moment { LeavesOnly D.says (disk_of self.old) (disk_of self.new) (D.says.may_leave (disk_of self.old)) }
        ensures used { used_of self.new ≡ used_of self.old }
        ensures only { RisesForFaults (D.says.faults (disk_of self.old)) (D.says.faults (disk_of self.new)) result }
        ensures cause { HasMemoryOr (D.says.faults (disk_of self.old)) (D.says.faults (disk_of self.new)) result }
    {
        prove!(spot.at <= self.used);
        let mut bytes = match vec![in alloc; 0u8; spot.length as usize] {
            Ok(bytes) => bytes,
            Err(_) => return Err(ContentFault::Memory),
        };
        match fill(&mut self.disk, FILE, spot.at, bytes.as_mut_slice()) {
            Ok(count) => {
                bytes.truncate(count);
                Ok(Text::from_vec(bytes))
            }
            Err(_) => Err(ContentFault::DiskFault),
        }
    }

    /// The digest of the bytes at a spot, whether they are counted as used or not. They are read in
    /// pieces. Where the file ends before the spot does, it is that of the bytes up to there.
    pub fn digest_at(&mut self, alloc: Global, spot: Spot) -> Result<Text, ContentFault>
        requires { end_of spot < 2 ^ 63 }
        ensures digest { (files : Files) → D.says.seen (disk_of self.old) files → end_of spot ≤ length (files 0) → IfOk result (λ text. text ≡ digits_of (md5 (take spot.length (drop spot.at (files 0))))) }
        ensures same { Same (D.says.seen (disk_of self.old)) (D.says.seen (disk_of self.new)) }
        ensures crash { NoMore (D.says.may_leave (disk_of self.old)) (D.says.may_leave (disk_of self.new)) }
        ensures any_moment { LeavesOnly D.says (disk_of self.old) (disk_of self.new) (D.says.may_leave (disk_of self.old)) }
        ensures used { used_of self.new ≡ used_of self.old }
        ensures only { RisesForFaults (D.says.faults (disk_of self.old)) (D.says.faults (disk_of self.new)) result }
        ensures cause { HasMemoryOr (D.says.faults (disk_of self.old)) (D.says.faults (disk_of self.new)) result }
    {
        digest_on_disk(alloc, &mut self.disk, spot, &mut [0u8; 4096])
    }
}
