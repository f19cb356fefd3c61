//! The groups of a file of a disk, which is read in pieces.

ghost use Rattle.std.specs.Prelude.{◌≡◌, ◌≢◌, ◌⊎◌, ◌+◌, ◌-◌, ◌<◌, ◌≤◌, ◌^◌, ◌++◌, length, IfOk, OnOk, Err};
ghost use Rattle.std.specs.Result.{IfErr};
ghost use Rattle.outside_api.specs.Disk.{Files};
ghost use Rattle.journal_groups.specs.Groups.{body_of, change_text, head_of};
ghost use Rattle.journal_groups.specs.Reading.{head_at, window_at};
ghost use Rattle.record_text.specs.Grammar.{IsRecord, largest_wide};
ghost use Rattle.recovery.specs.Looking.{OnlyReads, IsCause};
ghost use Rattle.recovery.specs.Faults.{IsOfFile, SaysNothing, Tells, UnlessFault};
ghost use Rattle.recovery.specs.declared.fault.OpenFault.TheVariants.{Damaged, DiskFault};
ghost use Rattle.recovery.specs.declared.fault.DepotDisk.TheVariants.{Journal};

use crate::fault::{DepotDisk, OpenFault};
use depot_rows::paths::{Sequence, Text};
use depot_rows::records::Change;
use journal_groups::{GroupFault, GroupReader};
use outside_api::{Disk, fill};
use record_text::print_record;
use std::alloc::Global;

/// The longest file that is read, in bytes. A mark fits behind it.
const LONGEST: u64 = 0x7FFF_FFFF_FFFF_FFFA;

/// What was read of the next group: its changes, or nothing at a mark that isn't open; or the place from
/// which the text can't be read on.
pub(crate) type GroupRead = Result<Option<Sequence<Change>>, u64>;

/// A record that was taken of a group, and how many bytes of the group's records are behind it; or the place from which
/// the text can't be read on.
pub(crate) type RecordTaken = Result<(Change, u64), u64>;

/// The groups of a file one after another, behind some bytes. Of the file at most one group and one piece are held,
/// and as much again as was read of a record that isn't whole.
#[derive(Drop)]
pub(crate) struct FileGroups {
    pub(crate) reader: GroupReader,
    pub(crate) file: u32,
    /// How many bytes were before those of the file.
    pub(crate) front: u64,
    /// How many bytes of the file were read.
    pub(crate) read: u64,
    /// How many bytes the file has.
    pub(crate) length: u64,
    ghost within: { read ≤ length },
    ghost short: { length ≤ 0x7FFF_FFFF_FFFF_FFFA },
    ghost so_far: { reader.at + Rattle.std.specs.Prelude.length reader.left ≤ read + 5 },
}

impl FileGroups {
    ghost use Rattle.recovery.specs.Pieces.{text_left, KnowsEnd, IsFirst, HasCome, HasStopped, IsStop};

    /// The groups of a file, the first of which has this number, behind these bytes. The one error beside
    /// a fault of the disk is want of memory.
    pub(crate) fn open<D: Disk>(
        disk: &mut D,
        file: u32,
        front: Text,
        number: u64,
    ) -> Result<FileGroups, OpenFault>
        requires short { length front ≤ 5 }
        requires number { number < 2 ^ 63 }
        ensures text { (files : Files) → D.says.seen disk.old files →
            IfOk result (λ groups. (text_left groups files ≡ front ++ files file) × KnowsEnd groups files) }
        ensures at { IfOk result (λ groups. (groups.file ≡ file) × (groups.front ≡ length front) ×
            (groups.reader.at ≡ 0) × (groups.reader.number ≡ number)) }
        ensures fault { IfErr result SaysNothing }
        ensures reads { OnlyReads D.says disk.old disk.new }
        ensures unfailed { UnlessFault result (D.says.faults disk.new ≡ D.says.faults disk.old) }
        ensures cause { IsCause (D.says.faults disk.old) (D.says.faults disk.new) (result ≡ Err DiskFault) }
    {
        let length = disk.length(file)?;
        if length > LONGEST {
            return Err(OpenFault::Memory);
        }
        let before = front.len() as u64;
        Ok(FileGroups {
            front: before,
            reader: GroupReader::new(front, 0, number),
            file,
            read: 0,
            length,
        })
    }

    /// How far the groups so far reach, in bytes of the file and those before it.
    pub(crate) fn place(&self) -> u64
        ensures place { result ≡ self.now.reader.at }
    {
        self.reader.place()
    }

    /// Reads the next piece of the file.
    fn read_piece<D: Disk>(
        &mut self,
        alloc: Global,
        disk: &mut D,
        piece: &mut [u8],
    ) -> Result<(), OpenFault>
        requires room { 0 < length piece.old }
        requires before_end { self.old.read < self.old.length }
        ensures text { (files : Files) → D.says.seen disk.old files → KnowsEnd self.old files →
            OnOk result ((text_left self.new files ≡ text_left self.old files) × KnowsEnd self.new files) }
        ensures goes_on { OnOk result (self.new.length - self.new.read < self.old.length - self.old.read) }
        ensures reader { (self.new.file ≡ self.old.file) × (self.new.front ≡ self.old.front) ×
            (self.new.reader.at ≡ self.old.reader.at) × (self.new.reader.number ≡ self.old.reader.number) }
        ensures fault { IfErr result SaysNothing }
        ensures reads { OnlyReads D.says disk.old disk.new }
        ensures unfailed { UnlessFault result (D.says.faults disk.new ≡ D.says.faults disk.old) }
        ensures cause { IsCause (D.says.faults disk.old) (D.says.faults disk.new) (result ≡ Err DiskFault) }
    {
        let room = (self.length - self.read).min(piece.len() as u64) as usize;
        let count = fill(disk, self.file, self.read, &mut piece[..room])?;
        if count == 0 {
            self.length = self.read;
            return Ok(());
        }
        self.reader.more(alloc, &piece[..count])?;
        self.read += count as u64;
        Ok(())
    }

    /// Reads on by whole pieces, until at least so many more bytes are there or the file ends.
    fn read_on<D: Disk>(
        &mut self,
        alloc: Global,
        disk: &mut D,
        piece: &mut [u8],
        wanted: u64,
    ) -> Result<(), OpenFault>
        requires room { 0 < length piece.old }
        requires before_end { self.old.read < self.old.length }
        ensures text { (files : Files) → D.says.seen disk.old files → KnowsEnd self.old files →
            OnOk result ((text_left self.new files ≡ text_left self.old files) × KnowsEnd self.new files) }
        ensures goes_on { OnOk result (self.new.length - self.new.read < self.old.length - self.old.read) }
        ensures enough { OnOk result ((self.old.read + wanted ≤ self.new.read) ⊎ (self.new.read ≡ self.new.length)) }
        ensures reader { (self.new.file ≡ self.old.file) × (self.new.front ≡ self.old.front) ×
            (self.new.reader.at ≡ self.old.reader.at) × (self.new.reader.number ≡ self.old.reader.number) }
        ensures fault { IfErr result SaysNothing }
        ensures reads { OnlyReads D.says disk.old disk.new }
        ensures unfailed { UnlessFault result (D.says.faults disk.new ≡ D.says.faults disk.old) }
        ensures cause { IsCause (D.says.faults disk.old) (D.says.faults disk.new) (result ≡ Err DiskFault) }
    {
        let target = self.read.saturating_add(wanted);
        loop {
            self.read_piece(alloc, disk, piece)?;
            if self.read == self.length || target <= self.read {
                return Ok(());
            }
        }
    }

    /// The fault of this file at a place, which counts the bytes before the file's too.
    pub(crate) fn damaged(&self, place: u64) -> OpenFault
        ensures { result ≡ Damaged Journal self.now.file (place - self.now.front) }
    {
        OpenFault::Damaged {
            disk: DepotDisk::Journal,
            file: self.file,
            place: place.saturating_sub(self.front),
        }
    }

    /// The records that were read of the next group, where it isn't whole.
    pub(crate) fn records(&self) -> &[Change]
        ensures { result.now ≡ self.now.reader.records }
    {
        self.reader.records()
    }

    /// The fault of this file at the first of the last changes that were read. It is want of memory where
    /// there is none for the text of one of them.
    pub(crate) fn damaged_before(&self, alloc: Global, changes: &[Change]) -> OpenFault
        ensures file { IsOfFile self.now.file result }
        ensures place { Tells (λ disk file place. place ≡
            (self.now.reader.reached - length (body_of changes.now)) - self.now.front) result }
        ensures no_disk { result ≢ DiskFault }
    {
        let mut place = self.reader.reached();
        for change in changes {
            match print_record(alloc, change.op, &change.row) {
                Ok(text) => place = place.saturating_sub(text.len() as u64),
                Err(_) => return OpenFault::Memory,
            }
        }
        self.damaged(place)
    }

    /// Reads the next group. Where the text can't be read on, the whole records before that place are kept;
    /// the place counts the bytes before the file's too.
    ///
    /// A record that isn't whole is read from its begin again once there is as much of it again, or a piece
    /// more: so each byte is read a bounded number of times on average.
    pub(crate) fn next<D: Disk>(
        &mut self,
        alloc: Global,
        disk: &mut D,
        piece: &mut [u8],
    ) -> Result<GroupRead, OpenFault>
        requires room { 0 < length piece.old }
        ensures text { (files : Files) → D.says.seen disk.old files → KnowsEnd self.old files →
            IfOk result (λ read. IfOk read (λ found. KnowsEnd self.new files × IsFirst self.old.reader.number (text_left self.old files) (text_left self.new files) found)) }
        ensures come { IfOk result (λ read. IfOk read (HasCome self.old self.new)) }
        ensures file { (self.new.file ≡ self.old.file) × (self.new.front ≡ self.old.front) }
        ensures stopped { (files : Files) → D.says.seen disk.old files → KnowsEnd self.old files →
            IfOk result (λ read. IfErr read (HasStopped self.old.reader.number self.old.reader.at (text_left self.old files) self.new.reader)) }
        ensures fault { IfErr result SaysNothing }
        ensures reads { OnlyReads D.says disk.old disk.new }
        ensures unfailed { UnlessFault result (D.says.faults disk.new ≡ D.says.faults disk.old) }
        ensures cause { IsCause (D.says.faults disk.old) (D.says.faults disk.new) (result ≡ Err DiskFault) }
    {
        loop {
            match self.reader.next(alloc) {
                Ok(found) => return Ok(Ok(found)),
                Err(GroupFault::Memory) => return Err(OpenFault::Memory),
                Err(GroupFault::BadGroup(place)) => return Ok(Err(place)),
                Err(GroupFault::Short(place)) => {
                    if self.read == self.length {
                        return Ok(Err(place));
                    }
                    let begun = place.saturating_sub(self.reader.reached());
                    self.read_on(alloc, disk, piece, begun)?;
                }
            }
        }
    }

    /// Takes the head of the group with which the file goes on, without a mark before it, and answers how many bytes
    /// the group's records have; or the place from which the text can't be read on.
    pub(crate) fn next_head<D: Disk>(
        &mut self,
        alloc: Global,
        disk: &mut D,
        piece: &mut [u8],
    ) -> Result<Result<u64, u64>, OpenFault>
        requires room { 0 < length piece.old }
        ensures text { (files : Files) → D.says.seen disk.old files → KnowsEnd self.old files →
            IfOk result (λ read. IfOk read (λ size. KnowsEnd self.new files × (text_left self.old files ≡ head_of self.old.reader.number size ++ text_left self.new files))) }
        ensures come { IfOk result (λ read. IfOk read (λ size. (size ≤ largest_wide) × (self.new.reader.at ≡ self.old.reader.at + length (head_of self.old.reader.number size)))) }
        ensures file { (self.new.file ≡ self.old.file) × (self.new.front ≡ self.old.front) }
        ensures stopped { (files : Files) → D.says.seen disk.old files → KnowsEnd self.old files →
            IfOk result (λ read. IfErr read (IsStop self.old.reader.at (text_left self.old files) (head_at self.old.reader.number))) }
        ensures fault { IfErr result SaysNothing }
        ensures reads { OnlyReads D.says disk.old disk.new }
        ensures unfailed { UnlessFault result (D.says.faults disk.new ≡ D.says.faults disk.old) }
        ensures cause { IsCause (D.says.faults disk.old) (D.says.faults disk.new) (result ≡ Err DiskFault) }
    {
        loop {
            match self.reader.take_head() {
                Ok(taken) => return Ok(Ok(taken)),
                Err(GroupFault::Memory) => return Err(OpenFault::Memory),
                Err(GroupFault::BadGroup(place)) => return Ok(Err(place)),
                Err(GroupFault::Short(place)) => {
                    if self.read == self.length {
                        return Ok(Err(place));
                    }
                    self.read_on(alloc, disk, piece, 0)?;
                }
            }
        }
    }

    /// Takes the record with which the file goes on, of a group of which so many bytes of records are to come.
    ///
    /// A record that isn't whole is read from its begin again once there is as much of it again, or a piece more: so
    /// each byte is read a bounded number of times on average.
    pub(crate) fn next_record<D: Disk>(
        &mut self,
        alloc: Global,
        disk: &mut D,
        piece: &mut [u8],
        size: u64,
    ) -> Result<RecordTaken, OpenFault>
        requires room { 0 < length piece.old }
        ensures text { (files : Files) → D.says.seen disk.old files → KnowsEnd self.old files →
            IfOk result (λ read. IfOk read (λ taken. KnowsEnd self.new files × (text_left self.old files ≡ change_text taken.0 ++ text_left self.new files))) }
        ensures come { IfOk result (λ read. IfOk read (λ taken. IsRecord taken.0.row × (size ≡ length (change_text taken.0) + taken.1) × (taken.1 < size) × (self.new.reader.at ≡ self.old.reader.at + length (change_text taken.0)))) }
        ensures file { (self.new.file ≡ self.old.file) × (self.new.front ≡ self.old.front) }
        ensures stopped { (files : Files) → D.says.seen disk.old files → KnowsEnd self.old files →
            IfOk result (λ read. IfErr read (IsStop self.old.reader.at (text_left self.old files) (window_at size))) }
        ensures fault { IfErr result SaysNothing }
        ensures reads { OnlyReads D.says disk.old disk.new }
        ensures unfailed { UnlessFault result (D.says.faults disk.new ≡ D.says.faults disk.old) }
        ensures cause { IsCause (D.says.faults disk.old) (D.says.faults disk.new) (result ≡ Err DiskFault) }
    {
        loop {
            match self.reader.take_record(alloc, size) {
                Ok(taken) => return Ok(Ok(taken)),
                Err(GroupFault::Memory) => return Err(OpenFault::Memory),
                Err(GroupFault::BadGroup(place)) => return Ok(Err(place)),
                Err(GroupFault::Short(place)) => {
                    if self.read == self.length {
                        return Ok(Err(place));
                    }
                    let begun = place.saturating_sub(self.reader.place());
                    self.read_on(alloc, disk, piece, begun)?;
                }
            }
        }
    }
}
