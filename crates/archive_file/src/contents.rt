//! What brings the contents of an archive.

ghost use Rattle.std.specs.Prelude.{◌≡◌, ◌↔◌, ◌≤◌, ◌<◌, ℕ, List, length, Err, IfOk, IsTrue};
ghost use Rattle.archive_file.specs.Archive.{Has, end_of};
ghost use Rattle.archive_file.specs.Contents.{HasContentsCause, IsFront, IsLooked, IsTold, RisesForFailures};
ghost use Rattle.archive_file.specs.declared.contents.ContentsFault.TheVariants.{Absent};

use crate::archive::{Archive, ContentFault};
use db_records::Spot;
use db_records::paths::Text;
use outside_api::Disk;
use std::alloc::Global;

/// The most bytes that are asked for at once.
pub const MOST_BYTES: u64 = 8_388_608;

/// Why a content doesn't come.
#[derive(Clone, Copy, PartialEq, Eq)]
pub enum ContentsFault {
    /// What brings it has failed.
    Failed,
    /// The spot ends behind what is used of the archive.
    Absent,
    /// There is no memory for the content.
    Memory,
}

/// What brings bytes of an archive, as a server does for the one that follows it.
pub trait Contents {
    /// How often it has failed.
    ghost faults: { Self → ℕ };

    /// That its archive has these bytes by now, from place 0 to the end of what is used of it. What
    /// doesn't tell its archive has none.
    ghost tells: { Self → List ℕ → Type 0 };

    /// What a call leaves of it.
    ghost keeps: { Self → Self → Type 0 };

    /// The bytes at a spot, of at most 8,388,608 bytes.
    fn content(&mut self, alloc: Global, spot: Spot) -> Result<Text, ContentsFault>
        requires { spot.length ≤ 8388608 }
        ensures content { (bytes : List ℕ) → tells self.new bytes → IfOk result (λ text. Has bytes spot text) }
        // It is absent exactly where it ends behind what is used: else it would be answered.
        ensures absent { (bytes : List ℕ) → tells self.new bytes → result ≡ Err Absent → length bytes < end_of spot }
        ensures whole { IfOk result (λ text. length text ≡ spot.length) }
        ensures grows { (before : List ℕ) → tells self.old before →
            (now : List ℕ) × tells self.new now × IsFront before now }
        ensures keeps { keeps self.old self.new }
        ensures only { RisesForFailures (faults self.old) (faults self.new) result }
        ensures cause { HasContentsCause (faults self.old) (faults self.new) result };
}

/// Whether a spot ends at or before a place.
pub(crate) fn is_within(spot: Spot, place: u64) -> bool
    ensures { IsTrue result ↔ (end_of spot ≤ place) }
{
    spot.at <= place && spot.length <= place - spot.at
}

impl<D: Disk> Contents for Archive<D> {
    ghost use Rattle.archive_file.specs.Archive.{disk_of};

    ghost faults = { λ archive. D.says.faults (disk_of archive) };

    ghost tells = { λ archive bytes. IsTold D.says archive bytes };

    ghost keeps = { λ old new. IsLooked D.says old new };

    /// Bytes that the disk doesn't have, though they are counted as used, are answered as want of memory.
    #[tactic(auto, using(crate::proofs::Fronts::told_same))]
    fn content(&mut self, alloc: Global, spot: Spot) -> Result<Text, ContentsFault> {
        if !is_within(spot, self.used()) {
            return Err(ContentsFault::Absent);
        }
        let text = match self.read(alloc, spot) {
            Ok(text) => text,
            Err(ContentFault::DiskFault) => return Err(ContentsFault::Failed),
            Err(ContentFault::Memory) => return Err(ContentsFault::Memory),
        };
        if text.len() as u64 != spot.length {
            return Err(ContentsFault::Memory);
        }
        Ok(text)
    }
}
