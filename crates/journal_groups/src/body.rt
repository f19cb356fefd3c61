//! The records of a group.

ghost use Rattle.std.specs.Prelude.{◌≡◌, ◌≤◌, ◌<◌, take, length, drop, IfOk};
ghost use Rattle.record_text.specs.Answers.{Gives};
ghost use Rattle.journal_groups.specs.Reading.{window_at};
ghost use Rattle.journal_groups.specs.Reader.{HasReadOne, HasReadAll};

use db_records::Change;
use db_records::paths::Sequence;
use record_text::{Part, RecordFault, read_record};
use std::alloc::Global;

/// What was read of a group's records.
#[derive(Drop)]
pub(crate) struct Body {
    /// The changes that were read.
    pub(crate) changes: Sequence<Change>,
    /// How many bytes of records are still to be read.
    pub(crate) size: u64,
    /// How many bytes were read, from a place before the group's head.
    pub(crate) read: usize,
}

/// So many bytes, or all of them where there are fewer.
fn window_of(size: u64, bytes: &[u8]) -> &[u8]
    ensures { result.now ≡ take size bytes.now }
{
    if size < bytes.len() as u64 {
        let (window, _) = bytes.split_at(size as usize);
        window
    } else {
        bytes
    }
}

/// The record at the front and its length, with so many bytes of the group still to come.
pub(crate) fn change_of(
    alloc: Global,
    size: u64,
    bytes: &[u8],
) -> Result<(Change, usize), RecordFault>
    ensures exact { Gives (λ x. x.0) (λ x. drop x.1 bytes.now) result (window_at size bytes.now) }
    ensures within { IfOk result (λ x. (x.1 ≤ length bytes.now) × (x.1 ≤ size) × (0 < x.1)) }
{
    let window = window_of(size, bytes);
    let behind = bytes.len() - window.len();
    match read_record(alloc, window) {
        Ok((op, row, length)) => Ok((Change { op, row }, length)),
        Err(RecordFault::Memory) => Err(RecordFault::Memory),
        Err(RecordFault::Wrong { left, .. }) => Err(RecordFault::Wrong {
            part: Part::Field,
            left: left + behind,
        }),
        Err(RecordFault::Cut) => {
            if behind == 0 {
                Err(RecordFault::Cut)
            } else {
                Err(RecordFault::Wrong {
                    part: Part::Field,
                    left: behind,
                })
            }
        }
    }
}

impl Body {
    /// Reads one more record.
    fn read_change(&mut self, alloc: Global, bytes: &[u8]) -> Result<(), RecordFault>
        requires within { self.old.read ≤ length bytes.now }
        requires unread { 0 < self.old.size }
        ensures { HasReadOne bytes.now self.old self.new result }
    {
        let (_, rest) = bytes.split_at(self.read);
        let (change, length) = change_of(alloc, self.size, rest)?;
        self.changes.push(change)?;
        self.read += length;
        self.size -= length as u64;
        Ok(())
    }

    /// Reads records until none is left.
    pub(crate) fn read_all(&mut self, alloc: Global, bytes: &[u8]) -> Result<(), RecordFault>
        requires { self.old.read ≤ length bytes.now }
        ensures { HasReadAll bytes.now self.old self.new result }
    {
        while self.size > 0 {
            self.read_change(alloc, bytes)?;
        }
        Ok(())
    }
}
