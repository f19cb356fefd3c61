//! The journal of a node, as the next node follows it.

use disk_journal::{Journal, Scanned};
use outside_api::{Disk, Failed, Fetched, Link};

/// The journal of a node, which is a link to itself: it brings what is committed, and never a group in doubt. It tells
/// the texts of whole groups alone.
#[derive(Drop)]
pub struct NodeLink<D: Disk> {
    pub(crate) journal: Journal<D>,
    /// How far a closed generation was scanned for the next node. Nothing is, before each write to the journal.
    pub(crate) scanned: Scanned,
}

impl<D: Disk> Link for NodeLink<D> {
    ghost use Rattle.replica_chain.specs.Ends.{link_says};

    ghost says = { link_says D.says };

    fn fetch(&mut self, generation: u32, at: u64, buffer: &mut [u8]) -> Result<Fetched, Failed> {
        match self
            .journal
            .fetch_on(&mut self.scanned, generation, at, buffer)
        {
            Ok(fetched) => Ok(fetched),
            Err(_) => Err(Failed),
        }
    }
}
