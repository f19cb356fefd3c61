//! The depot, as it is opened and closed.

ghost use Rattle.std.specs.Prelude.{◌≡◌};

use archive_file::Archive;
use depot_rows::tables::Tables;
use disk_journal::Journal;
use outside_api::Disk;

/// A depot in files that one thread asks: its rows in memory, its journal and its archive. What holds of
/// these together contracts say.
#[derive(Drop)]
pub struct SerialDepot<D: Disk> {
    /// The rows.
    pub tables: Tables,
    /// The journal.
    pub journal: Journal<D>,
    /// The archive.
    pub archive: Archive<D>,
}

/// What a depot that is closed gives back.
#[derive(Drop)]
pub struct Closed<D: Disk> {
    /// The rows.
    pub tables: Tables,
    /// The disk of the journal.
    pub journal: D,
    /// The disk of the archive.
    pub archive: D,
}

impl<D: Disk> SerialDepot<D> {
    ghost use Rattle.archive_file.specs.Archive.{disk_of as archive_disk_of};
    ghost use Rattle.disk_journal.specs.Stands.{disk_of};

    /// The depot of these tables, whose rows the journal has. Makes no call of the disks.
    pub fn new(tables: Tables, journal: Journal<D>, archive: Archive<D>) -> Self
        ensures { result ≡ record { tables = tables; journal = journal; archive = archive } }
    {
        SerialDepot {
            tables,
            journal,
            archive,
        }
    }

    /// The rows.
    pub fn tables(&self) -> &Tables
        ensures { result.now ≡ self.now.tables }
    {
        &self.tables
    }

    /// Gives the disks back, and the rows. Makes no call of the disks.
    pub fn close(self) -> Closed<D>
        ensures tables { result.tables ≡ self.tables }
        ensures journal { result.journal ≡ disk_of self.journal }
        ensures archive { result.archive ≡ archive_disk_of self.archive }
    {
        Closed {
            tables: self.tables,
            journal: self.journal.into_disk(),
            archive: self.archive.into_disk(),
        }
    }
}
