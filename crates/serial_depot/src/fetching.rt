//! What a replica asks of the depot that it follows: bytes of the journal, and contents of the archive.

ghost use Rattle.std.specs.Prelude.{◌≡◌, ◌<◌, ℕ, List, [], length, IfOk, OnOk};
ghost use Rattle.archive_file.specs.Archive.{HasMemoryOr, RisesForFaults, disk_of as archive_disk_of};
ghost use Rattle.outside_api.specs.Count.{HasCause};
ghost use Rattle.outside_api.specs.Disk.{Files};
ghost use Rattle.outside_api.specs.Link.{Answers, Fits};
ghost use Rattle.depot_rows.specs.depot_model.Deeds.{Deed};
ghost use Rattle.depot_rows.specs.depot_model.Places.{Placed};
ghost use Rattle.disk_journal.specs.Stands.{disk_of};
ghost use Rattle.depot_commit.specs.Fetching.{HasTexts};
ghost use Rattle.depot_commit.specs.Growing.{Chronicle, HasGroups, KeepsStored};
ghost use Rattle.depot_commit.specs.Storing.{AreAt};
ghost use Rattle.serial_depot.specs.Running.{CanTake, HasRun};

use crate::depot::SerialDepot;
use archive_file::ContentFault;
use depot_commit::{fetch_texts, read_contents};
use depot_rows::paths::{Sequence, Text};
use outside_api::{Disk, DiskFault, Fetched};
use reply_rows::RowContent;
use std::alloc::Global;

impl<D: Disk> SerialDepot<D> {
    /// Committed bytes of the journal of a generation from a place on, at the front of the buffer, as far as the buffer
    /// and the text go. They are answered as by a link to the journal: where none stands there it is the end of the
    /// newest generation and of one not there yet, and the next of an older one.
    pub fn fetch(
        &mut self,
        generation: u32,
        at: u64,
        buffer: &mut [u8],
    ) -> Result<Fetched, DiskFault>
        requires room { 0 < length buffer.old }
        ensures answers { (texts : List (List ℕ)) → HasTexts D.says self.old.journal texts →
            IfOk result (λ fetched. Answers texts generation at fetched buffer.new) }
        ensures fits { IfOk result (λ fetched. Fits fetched (length buffer.old)) }
        ensures can { CanTake D.says self.old → CanTake D.says self.new }
        ensures ran { (since : ℕ) (start : List Deed) (places : List Placed) →
            HasRun D.says self.old since start places →
            HasRun D.says self.new since start places }
        ensures groups { (c : Chronicle) → HasGroups D.says self.old.journal c → HasGroups D.says self.new.journal c }
        ensures tables { self.new.tables ≡ self.old.tables }
        ensures archive { self.new.archive ≡ self.old.archive }
        ensures stored { KeepsStored D.says self.old.archive self.new.archive }
        ensures only { OnOk result (D.says.faults (disk_of self.new.journal) ≡ D.says.faults (disk_of self.old.journal)) }
        ensures cause { HasCause (D.says.faults (disk_of self.old.journal)) (D.says.faults (disk_of self.new.journal)) result }
    {
        fetch_texts(&mut self.journal, generation, at, buffer)
    }

    /// The contents of these places, in their order: each the bytes at its spot of the archive, or a copy of the text
    /// that is given. A spot that ends behind what is used of the archive, which no row of the tables has, is answered
    /// as want of memory. Without places no call of the disk is made.
    pub fn contents(
        &mut self,
        alloc: Global,
        places: &[RowContent],
    ) -> Result<Sequence<Text>, ContentFault>
        ensures contents { (files : Files) (contents : List (List ℕ)) →
            D.says.seen (archive_disk_of self.old.archive) files → AreAt (files 0) places.now contents →
            IfOk result (λ texts. texts ≡ contents) }
        ensures can { CanTake D.says self.old → CanTake D.says self.new }
        ensures ran { (since : ℕ) (start : List Deed) (places : List Placed) →
            HasRun D.says self.old since start places →
            HasRun D.says self.new since start places }
        ensures tables { self.new.tables ≡ self.old.tables }
        ensures journal { self.new.journal ≡ self.old.journal }
        ensures groups { (c : Chronicle) → HasGroups D.says self.old.journal c → HasGroups D.says self.new.journal c }
        ensures stored { KeepsStored D.says self.old.archive self.new.archive }
        ensures no_call { places.now ≡ [] → self.new ≡ self.old }
        ensures only { RisesForFaults (D.says.faults (archive_disk_of self.old.archive)) (D.says.faults (archive_disk_of self.new.archive)) result }
        ensures cause { HasMemoryOr (D.says.faults (archive_disk_of self.old.archive)) (D.says.faults (archive_disk_of self.new.archive)) result }
    {
        read_contents(alloc, &mut self.archive, places)
    }
}
