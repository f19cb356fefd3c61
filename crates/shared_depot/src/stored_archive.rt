//! What lies behind the lock of the archive.
ghost use Rattle.std.specs.Prelude.{◌≡◌, ◌≤◌, ◌-◌, ◌^◌, []};
ghost use Rattle.archive_file.specs.Archive.{disk_of};
ghost use Rattle.locked_tables.specs.Taken.{end_after};
ghost use Rattle.shared_depot.specs.Common.{IsArchiveAfter};

use crate::of_archive::OfArchive;
use crate::serving::Serving;
use archive_file::Archive;
use locked_tables::LockedArchive;
use outside_api::Disk;
use party_marks::Marks;
use std::marker::Model;

/// The archive, with the seat of its lane, and the marks of parties that were told that its disk failed:
/// the count of the disk has risen for each of these, and for each place at which it failed. Contracts see
/// a beginning of the order: the contents of these places were stored in it, and none of a place behind
/// them was.
#[derive(Drop)]
pub(crate) struct StoredArchive<D: Disk, N: Serving> {
    pub(crate) lane: LockedArchive<N>,
    pub(crate) archive: Archive<D>,
    pub(crate) marks: Marks<OfArchive<N>>,
}

impl<D: Disk, N: Serving> Model for StoredArchive<D, N> {
    ghost use Rattle.std.specs.Prelude.{List};
    ghost use Rattle.archive_file.specs.Archive.{disk_of};
    ghost use Rattle.locked_tables.specs.declared.taken.Taken.{Taken};
    ghost use Rattle.shared_depot.specs.Common.{IsArchiveAfter, IsCountAfter};
    ghost use Rattle.shared_depot.specs.Stored.{is_lost};

    ghost Value = { List Taken };

    ghost view = { λ a. a.lane };

    ghost invariant = { λ a. IsArchiveAfter D.says N.end N.images N.begins a.lane a.archive ×
        IsCountAfter is_lost N.content_faults (D.says.faults (disk_of a.archive)) a.lane a.marks.list };
}

impl<D: Disk, N: Serving> StoredArchive<D, N> {
    /// An archive in which no place stored a content, where there is no mark.
    pub(crate) fn new(
        lane: LockedArchive<N>,
        archive: Archive<D>,
        marks: Marks<OfArchive<N>>,
    ) -> StoredArchive<D, N>
        requires lane { lane ≡ [] }
        requires marks { marks.list ≡ [] }
        requires archive { IsArchiveAfter D.says N.end N.images N.begins [] archive }
        requires count { D.says.faults (disk_of archive) ≡ N.content_faults }
        ensures { result ≡ [] }
    {
        StoredArchive {
            lane,
            archive,
            marks,
        }
    }

    /// How many of its bytes are used: where the next content goes.
    pub(crate) fn end(&self) -> u64
        ensures end { result ≡ end_after N.end self.now }
        ensures fits { result ≤ 2 ^ 63 - 1 }
    {
        self.lane.end()
    }
}
