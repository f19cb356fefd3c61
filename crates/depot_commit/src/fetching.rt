//! Bytes of the journal, and contents of the archive.

ghost use Rattle.std.specs.Prelude.{◌≡◌, ◌<◌, ℕ, List, [], length, IfOk, OnOk};
ghost use Rattle.archive_file.specs.Archive.{HasMemoryOr, RisesForFaults, disk_of as archive_disk_of};
ghost use Rattle.outside_api.specs.Count.{HasCause};
ghost use Rattle.outside_api.specs.Disk.{Files};
ghost use Rattle.outside_api.specs.Link.{Answers, Fits};
ghost use Rattle.disk_journal.specs.Stands.{disk_of};
ghost use Rattle.depot_commit.specs.Fetching.{HasTexts, IsFetched, IsRead};
ghost use Rattle.depot_commit.specs.Storing.{AreAt};

use crate::storing::{are_within, read_all};
use archive_file::{Archive, ContentFault};
use depot_rows::paths::{Sequence, Text};
use disk_journal::Journal;
use outside_api::{Disk, DiskFault, Fetched};
use reply_rows::RowContent;
use std::alloc::Global;

/// Committed bytes of a journal of a generation from a place on, at the front of the buffer, as far as the
/// buffer and the text go. They are answered as by a link to the journal: where none stands there it is the
/// end of the newest generation and of one not there yet, and the next of an older one.
pub fn fetch_texts<D: Disk>(
    journal: &mut Journal<D>,
    generation: u32,
    at: u64,
    buffer: &mut [u8],
) -> Result<Fetched, DiskFault>
    requires room { 0 < length buffer.old }
    ensures answers { (texts : List (List ℕ)) → HasTexts D.says journal.old texts →
        IfOk result (λ fetched. Answers texts generation at fetched buffer.new) }
    ensures fits { IfOk result (λ fetched. Fits fetched (length buffer.old)) }
    ensures fetched { IsFetched D.says journal.old journal.new }
    ensures only { OnOk result (D.says.faults (disk_of journal.new) ≡ D.says.faults (disk_of journal.old)) }
    ensures cause { HasCause (D.says.faults (disk_of journal.old)) (D.says.faults (disk_of journal.new)) result }
{
    journal.fetch(generation, at, buffer)
}

/// The contents of these places, in their order: each the bytes at its spot of an archive, or a copy of
/// the text that is given. A spot that ends behind what is used of the archive is answered as want of
/// memory. Without places no call of the disk is made.
pub fn read_contents<D: Disk>(
    alloc: Global,
    archive: &mut Archive<D>,
    places: &[RowContent],
) -> Result<Sequence<Text>, ContentFault>
    ensures contents { (files : Files) (contents : List (List ℕ)) → D.says.seen (archive_disk_of archive.old) files →
        AreAt (files 0) places.now contents → IfOk result (λ texts. texts ≡ contents) }
    ensures read { IsRead D.says archive.old archive.new }
    ensures no_call { places.now ≡ [] → archive.new ≡ archive.old }
    ensures only { RisesForFaults (D.says.faults (archive_disk_of archive.old)) (D.says.faults (archive_disk_of archive.new)) result }
    ensures cause { HasMemoryOr (D.says.faults (archive_disk_of archive.old)) (D.says.faults (archive_disk_of archive.new)) result }
{
    if !are_within(places, archive.used()) {
        return Err(ContentFault::Memory);
    }
    read_all(alloc, archive, places)
}
