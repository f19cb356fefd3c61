//! The contents of an archive in memory.

ghost use Rattle.std.specs.Prelude.{◌≡◌, ◌≤◌, ◌<◌, length, IfSome, IsFalse, IsTrue, None};
ghost use Rattle.outside_api.specs.Count.{HasRisen};
ghost use Rattle.archive_file.specs.Archive.{Has, end_of};

use crate::contents::{Contents, ContentsFault, is_within};
use db_records::Spot;
use db_records::paths::Text;
use std::alloc::Global;

/// The bytes of an archive in memory, which stay as they are.
#[derive(Drop)]
pub struct MemoryContents {
    bytes: Text,
    fails: Vec<u64>,
    calls: u64,
    faults: u64,
}

impl MemoryContents {
    ghost use Rattle.archive_file.specs.Contents.{contents_bytes, contents_faults};

    /// These bytes. The calls of these numbers, from 1, fail.
    pub fn new(bytes: Text, fails: Vec<u64>) -> Self
        ensures bytes { contents_bytes result ≡ bytes }
        ensures faults { contents_faults result ≡ 0 }
    {
        MemoryContents {
            bytes,
            fails,
            calls: 0,
            faults: 0,
        }
    }

    /// Counts a call, and a fault where this call fails.
    fn call_fails(&mut self) -> bool
        ensures bytes { contents_bytes self.new ≡ contents_bytes self.old }
        ensures later { contents_faults self.old ≤ contents_faults self.new }
        ensures risen { IsTrue result → HasRisen (contents_faults self.old) (contents_faults self.new) }
        ensures stands { IsFalse result → contents_faults self.new ≡ contents_faults self.old }
    {
        self.calls = self.calls.saturating_add(1);
        let fails = self.fails.contains(&self.calls);
        if fails {
            self.faults = self.faults.saturating_add(1);
        }
        fails
    }

    /// The bytes at a spot, where it ends within them.
    fn at(&self, spot: Spot) -> Option<&[u8]>
        ensures found { IfSome result (λ content. Has (contents_bytes self.now) spot content.now) }
        ensures none { result ≡ None → length (contents_bytes self.now) < end_of spot }
    {
        if !is_within(spot, self.bytes.len() as u64) {
            return None;
        }
        let end = (spot.at + spot.length) as usize;
        Some(&self.bytes.as_bytes()[spot.at as usize..end])
    }
}

impl Contents for MemoryContents {
    ghost use Rattle.archive_file.specs.Contents.{contents_bytes, contents_faults};

    ghost faults = { contents_faults };

    ghost tells = { λ contents bytes. bytes ≡ contents_bytes contents };

    ghost keeps = { λ old new. contents_bytes new ≡ contents_bytes old };

    #[tactic(auto, using(crate::proofs::Fronts::stays, crate::proofs::Fronts::has_length))]
    fn content(&mut self, alloc: Global, spot: Spot) -> Result<Text, ContentsFault> {
        if self.call_fails() {
            return Err(ContentsFault::Failed);
        }
        let Some(bytes) = self.at(spot) else {
            return Err(ContentsFault::Absent);
        };
        match Text::from_bytes(alloc, bytes) {
            Ok(text) => Ok(text),
            Err(_) => Err(ContentsFault::Memory),
        }
    }
}
