//! One group.

ghost use Rattle.std.specs.Prelude.{◌≡◌, ◌+◌, ◌-◌, ◌<◌, ◌≤◌, ◌^◌, ◌++◌, ℕ, List, length, take, drop, IfOk};
ghost use Rattle.db_records.specs.declared.change.Change.{Change};
ghost use Rattle.record_text.specs.Answers.{Gives};
ghost use Rattle.journal_groups.specs.Groups.{body_of, head_of as head_text, group_text, IsGroup};
ghost use Rattle.journal_groups.specs.Causes.{GroupGoesOn, GroupStopsAt, IsAnswer, IsShort, IfShort, IfBad};
ghost use Rattle.journal_groups.specs.Reading.{group_at, placed, IsWithin, GivesAt};

use crate::body::Body;
use crate::fault::GroupFault;
use crate::mark::head_of;
use db_records::Change;
use db_records::paths::{Sequence, Text};
use itoa::Buffer;
use record_text::{RecordFault, append_record};
use std::alloc::{AllocError, Global};

/// The records of the changes, one after another.
fn print_body(alloc: Global, changes: &[Change]) -> Result<Text, AllocError>
    ensures { IfOk result (λ body. body ≡ body_of changes.now) }
{
    let mut body = Text::new(alloc);
    for change in changes {
        body = append_record(body, change.op, &change.row)?;
    }
    Ok(body)
}

/// The line before records of so many bytes.
fn print_head(alloc: Global, number: u64, size: u64) -> Result<Text, AllocError>
    ensures { IfOk result (λ head. head ≡ head_text number size) }
{
    let mut head = Text::from_bytes(alloc, b"@nx@ ")?;
    let mut buffer = Buffer::new();
    head.append(buffer.format(number).as_bytes())?;
    head.append(b" ")?;
    let mut other = Buffer::new();
    head.append(other.format(size).as_bytes())?;
    head.append(b"\n")?;
    Ok(head)
}

/// The text of the group of this number. The one error is want of memory.
pub fn print_group(alloc: Global, number: u64, changes: &[Change]) -> Result<Text, AllocError>
    ensures { IfOk result (λ text. text ≡ group_text number changes.now) }
{
    let body = print_body(alloc, changes)?;
    let mut text = print_head(alloc, number, body.len() as u64)?;
    text.append(body.as_bytes())?;
    Ok(text)
}

/// The fault of bytes of this length, of which the first stands at this place.
pub(crate) fn fault_at(at: u64, length: usize, fault: RecordFault) -> GroupFault
    requires place { at + length < 2 ^ 64 }
    requires within { IsWithin length fault }
    ensures { result ≡ placed at length fault }
{
    match fault {
        RecordFault::Memory => GroupFault::Memory,
        RecordFault::Cut => GroupFault::Short(at + length as u64),
        RecordFault::Wrong { left, .. } => GroupFault::BadGroup(at + (length - left) as u64),
    }
}

/// The group of this number at the front, and how many bytes it has.
fn group_of(
    alloc: Global,
    number: u64,
    bytes: &[u8],
) -> Result<(Sequence<Change>, usize), RecordFault>
    ensures within { IfOk result (λ x. x.1 ≤ length bytes.now) }
    ensures exact { Gives (λ x. x.0) (λ x. drop x.1 bytes.now) result (group_at number bytes.now) }
{
    let (size, rest) = head_of(number, bytes)?;
    let mut body = Body {
        changes: Sequence::new(alloc),
        size,
        read: bytes.len() - rest.len(),
    };
    body.read_all(alloc, bytes)?;
    Ok((body.changes, body.read))
}

/// The group at the front, or the place of its fault.
fn whole_group(
    alloc: Global,
    bytes: &[u8],
    number: u64,
) -> Result<(Sequence<Change>, usize), GroupFault>
    ensures within { IfOk result (λ x. x.1 ≤ length bytes.now) }
    ensures exact { GivesAt 0 bytes.now (λ x. x.0) (λ x. drop x.1 bytes.now) result (group_at number bytes.now) }
{
    match group_of(alloc, number, bytes) {
        Ok(group) => Ok(group),
        Err(fault) => Err(fault_at(0, bytes.len(), fault)),
    }
}

/// The changes of the group of this number with which the bytes begin, and the group's length in bytes.
/// The places of faults count from 0.
pub fn read_group(
    alloc: Global,
    bytes: &[u8],
    number: u64,
) -> Result<(Sequence<Change>, usize), GroupFault>
    // What is read is the text of a group.
    ensures found { IfOk result (λ x. IsGroup x.0 × (take x.1 bytes.now ≡ group_text number x.0) ×
        (x.1 ≤ length bytes.now)) }
    // The text of a group is read, whatever follows it, unless there is no memory.
    ensures only { (changes : List Change) (rest : List ℕ) → IsGroup changes →
        bytes.now ≡ group_text number changes ++ rest → IsAnswer result (changes, length (group_text number changes)) }
    // It is short just where all of the bytes may still become a group.
    ensures short { IfShort result (λ place. GroupGoesOn number bytes.now × (place ≡ length bytes.now)) }
    ensures goes { GroupGoesOn number bytes.now → IsShort result (length bytes.now) }
    // Another fault is at the first byte that can't go on.
    ensures bad { IfBad result (λ place. GroupStopsAt number bytes.now (length bytes.now - place)) }
    ensures exact { GivesAt 0 bytes.now (λ x. x.0) (λ x. drop x.1 bytes.now) result (group_at number bytes.now) }
{
    whole_group(alloc, bytes, number)
}
