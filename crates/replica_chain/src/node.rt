//! What a node keeps.

use crate::link::NodeLink;
use archive_file::Archive;
use depot_rows::paths::Text;
use depot_rows::tables::Tables;
use outside_api::Disk;

/// A copy of a depot that follows another's journal. What holds of its parts together contracts say.
#[derive(Drop)]
pub struct Node<D: Disk> {
    /// Its journal, from which the next node follows.
    pub link: NodeLink<D>,
    /// Its archive, from which the next node copies contents.
    pub archive: Archive<D>,
    pub(crate) tables: Tables,
    /// How many bytes are committed in the generations before.
    pub(crate) before: u64,
    /// How many bytes of the generation's text are committed.
    pub(crate) at: u64,
    /// The bytes behind them that were fetched, which are no whole group yet.
    pub(crate) rest: Text,
    /// The number of the next group of the generation.
    pub(crate) number: u64,
    /// How many changes are committed: a group is one, and so is the beginning of each generation but the first.
    pub(crate) changes: u64,
}

/// The two disks of a depot.
#[derive(Drop)]
pub struct Pair<D> {
    /// That of the root, the checkpoints and the journals.
    pub journal: D,
    /// That of the contents.
    pub archive: D,
}

impl<D: Disk> Node<D> {
    ghost use Rattle.std.specs.Prelude.{◌≡◌};
    ghost use Rattle.archive_file.specs.Archive.{disk_of as archive_disk_of};
    ghost use Rattle.disk_journal.specs.Stands.{disk_of, generation_of_journal};

    /// How far the node is: its generation, and how many changes it has committed.
    pub fn position(&self) -> (u32, u64)
        ensures { result ≡ (generation_of_journal self.now.link.journal, self.now.changes) }
    {
        (self.link.journal.generation(), self.changes)
    }

    /// The rows.
    pub fn tables(&self) -> &Tables
        ensures { result.now ≡ self.now.tables }
    {
        &self.tables
    }

    /// Gives both disks back. Makes no call of them.
    pub fn into_files(self) -> Pair<D>
        ensures journal { result.journal ≡ disk_of self.link.journal }
        ensures archive { result.archive ≡ archive_disk_of self.archive }
    {
        let Node {
            link,
            archive,
            tables,
            before: _,
            at: _,
            rest,
            number: _,
            changes: _,
        } = self;
        drop(tables);
        drop(rest);
        let NodeLink {
            journal,
            scanned: _,
        } = link;
        Pair {
            journal: journal.into_disk(),
            archive: archive.into_disk(),
        }
    }
}
