//! The groups of a journal's text one after another, from bytes that come in pieces.

ghost use Rattle.std.specs.Prelude.{◌≡◌, ◌≢◌, ◌++◌, ◌+◌, ◌-◌, ◌<◌, ◌≤◌, ◌^◌, ℕ, List, length, drop, [], Ok, Some, None, IfOk, OnOk, OnErr};
ghost use Rattle.std.specs.Result.{IfErr};
ghost use Rattle.db_records.specs.declared.change.Change.{Change};
ghost use Rattle.journal_groups.specs.Reading.{head_at, placed, window_at, FailsAt, IsWithin};
ghost use Rattle.journal_groups.specs.Groups.{IsGroup, group_text, mark, open_byte};
ghost use Rattle.journal_groups.specs.Causes.{GoesOn, StopsAt, IsAnswer, IsShort, IfShort, IfBad};
ghost use Rattle.journal_groups.specs.Taken.{HasTakenHead, HasTakenRecord};
ghost use Rattle.journal_groups.specs.Reader.{State, IsNext, IsLeft, HasBody, HasBegun, HasTaken, HasRecords, IfOfText};

use crate::body::{Body, change_of};
use crate::fault::GroupFault;
use crate::group::fault_at;
use crate::mark::{head_of, mark_of};
use db_records::Change;
use db_records::paths::{Sequence, Text};
use record_text::RecordFault;
use std::alloc::{AllocError, Global};
use std::marker::Model;

/// Reads the groups of a journal's text one after another, from bytes that come in pieces.
///
/// What was read of a group that isn't whole yet is kept, so that it isn't read again when more comes.
#[derive(Drop)]
pub struct GroupReader {
    bytes: Text,
    /// How many of the bytes were taken.
    taken: usize,
    /// What was read of the next group.
    body: Option<Body>,
    at: u64,
    number: u64,
}

impl Model for GroupReader {
    ghost use Rattle.std.specs.Prelude.{◌+◌, ◌<◌, ◌≤◌, ◌^◌, length, drop};
    ghost use Rattle.journal_groups.specs.Taken.{HasTakenHead, HasTakenRecord};
    ghost use Rattle.journal_groups.specs.Reader.{State, IsBegun, records_of, read_of};

    ghost Value = { State };

    ghost view = { λ a. record { left = drop a.taken a.bytes; at = a.at; number = a.number; records = records_of a.body; reached = a.at + read_of a.body } };

    ghost invariant = { λ a. (a.taken ≤ length a.bytes) × (a.at + length (drop a.taken a.bytes) < 2 ^ 63) × (a.number ≤ 2 ^ 63 + a.at) × IsBegun a.number (drop a.taken a.bytes) a.body };
}

impl GroupReader {
    /// A reader of these bytes, of which the first stands at this place and begins a mark, and whose
    /// first group has this number.
    pub fn new(bytes: Text, at: u64, number: u64) -> GroupReader
        requires place { at + length bytes < 2 ^ 63 }
        requires number { number < 2 ^ 63 }
        ensures { result ≡ record { left = bytes; at = at; number = number; records = []; reached = at } }
    {
        GroupReader {
            bytes,
            taken: 0,
            body: None,
            at,
            number,
        }
    }

    /// The place of the first byte that is left, which is how far the groups so far reach.
    pub fn place(&self) -> u64
        ensures { result ≡ self.now.at }
    {
        self.at
    }

    /// The records that were read of the next group, where it isn't whole yet.
    pub fn records(&self) -> &[Change]
        ensures { result.now ≡ self.now.records }
    {
        match &self.body {
            Some(body) => body.changes.as_slice(),
            None => &[],
        }
    }

    /// The place where these records end.
    pub fn reached(&self) -> u64
        ensures { result ≡ self.now.reached }
    {
        match &self.body {
            Some(body) => self.at + body.read as u64,
            None => self.at,
        }
    }

    /// How many bytes are left.
    pub fn waiting(&self) -> usize
        ensures { result ≡ length self.now.left }
    {
        self.left().len()
    }

    /// The bytes that are left.
    fn left(&self) -> &[u8]
        ensures { result.now ≡ self.now.left }
    {
        let (_, left) = self.bytes.as_bytes().split_at(self.taken);
        left
    }

    /// Lets go of the bytes that were taken.
    fn let_go(&mut self, alloc: Global) -> Result<(), AllocError>
        ensures { self.new ≡ self.old }
    {
        if self.taken == 0 {
            return Ok(());
        }
        let left = Text::from_bytes(alloc, self.left())?;
        self.bytes = left;
        self.taken = 0;
        Ok(())
    }

    /// Appends the next piece of the text. Without memory for it the reader stays as it was.
    pub fn more(&mut self, alloc: Global, piece: &[u8]) -> Result<(), AllocError>
        requires { self.old.at + length self.old.left + length piece.now < 2 ^ 63 }
        ensures ok { OnOk result (self.new ≡ record self.old { left = self.old.left ++ piece.now }) }
        ensures err { OnErr result (self.new ≡ self.old) }
    {
        self.let_go(alloc)?;
        self.bytes.append(piece)?;
        Ok(())
    }

    /// Takes out what was read of the next group, or what its mark and head say, or nothing at a mark that
    /// isn't open.
    fn take_body(&mut self, alloc: Global) -> Result<Option<Body>, RecordFault>
        ensures small { self.old.number < 2 ^ 64 }
        ensures left { IsLeft self.old self.new }
        ensures none { (self.new.records ≡ []) × (self.new.reached ≡ self.new.at) }
        ensures same { result ≡ Ok None → self.new ≡ self.old }
        ensures begun { HasBegun self.old.number self.old.left result }
    {
        match self.body.take() {
            Some(body) => Ok(Some(body)),
            None => begin(alloc, self.number, self.left()),
        }
    }

    /// The fault with its place.
    fn fault(&self, fault: RecordFault) -> GroupFault
        requires { IsWithin (length self.now.left) fault }
        ensures { result ≡ placed self.now.at (length self.now.left) fault }
    {
        fault_at(self.at, self.left().len(), fault)
    }

    /// Goes so many bytes on, and lets go of what was read of the next group.
    fn pass(&mut self, length: usize)
        requires { length ≤ Rattle.std.specs.Prelude.length self.old.left }
        ensures { self.new ≡ record self.old { left = drop length self.old.left; at = self.old.at + length; records = []; reached = self.old.at + length } }
    {
        prove!(length <= self.bytes.len() - self.taken);
        self.body = None;
        self.taken += length;
        self.at += length as u64;
    }

    /// Reads the rest of the next group.
    fn finish(&mut self, alloc: Global, part: Body) -> Result<Option<Sequence<Change>>, GroupFault>
        requires { HasBody self.old.number self.old.left part }
        ensures { IsNext self.old self.new result }
    {
        let mut body = part;
        match body.read_all(alloc, self.left()) {
            Ok(()) => {
                let behind = self.left().len() - body.read;
                self.taken = self.bytes.len() - behind;
                self.body = None;
                self.at += body.read as u64;
                self.number += 1;
                Ok(Some(body.changes))
            }
            Err(fault) => {
                self.body = Some(body);
                Err(self.fault(fault))
            }
        }
    }

    /// Reads the next group.
    fn advance(&mut self, alloc: Global) -> Result<Option<Sequence<Change>>, GroupFault>
        ensures small { self.old.number < 2 ^ 64 }
        ensures next { IsNext self.old self.new result }
    {
        match self.take_body(alloc) {
            Ok(Some(body)) => self.finish(alloc, body),
            Ok(None) => Ok(None),
            Err(fault) => Err(self.fault(fault)),
        }
    }

    /// The changes of the next group, or nothing at a mark that isn't open, where the committed text ends.
    ///
    /// After nothing the reader stays as it was, and after an error the same bytes are left; it keeps the
    /// records that it read. After `Short` it goes on with [`GroupReader::more`]. The places of faults are
    /// those of the whole text.
    pub fn next(&mut self, alloc: Global) -> Result<Option<Sequence<Change>>, GroupFault>
        ensures next { IsNext self.old self.new result }
        // What is answered is the group whose text stands there.
        ensures found { IfOk result (HasTaken self.old self.new) }
        // Where the text of a group of the next number stands behind an open mark, it is answered, unless there is no
        // memory.
        ensures only { (changes : List Change) (rest : List ℕ) → IsGroup changes →
            self.old.left ≡ mark open_byte ++ (group_text self.old.number changes ++ rest) →
            IsAnswer result (Some changes) }
        ensures closed { (byte : ℕ) (rest : List ℕ) → byte ≢ open_byte → self.old.left ≡ mark byte ++ rest →
            IsAnswer result None }
        ensures kept { OnErr result (IsLeft self.old self.new) }
        // Where the bytes are at fault, the records that were read are all that stand there whole.
        ensures records { IfErr result (λ fault. IfOfText fault (HasRecords self.old.number self.old.at self.old.left self.new.records self.new.reached)) }
        // It is short just where all of the bytes may still become what is wanted.
        ensures short { IfShort result (λ place. GoesOn self.old.number self.old.left ×
            (place ≡ self.old.at + length self.old.left)) }
        ensures goes { GoesOn self.old.number self.old.left → IsShort result (self.old.at + length self.old.left) }
        // Another fault is at the first byte that can't go on.
        ensures bad { IfBad result (λ place. StopsAt self.old.number self.old.left (self.old.at + length self.old.left - place)) }
    {
        self.advance(alloc)
    }

    /// Takes the head of a group from the front, where no mark stands before it, and answers how many bytes its
    /// records have.
    ///
    /// It is for who takes the records one after another, by [`GroupReader::take_record`], so that they aren't all
    /// held. What was read of the next group is let go. After an error the same bytes are left.
    pub fn take_head(&mut self) -> Result<u64, GroupFault>
        ensures taken { IfOk result (HasTakenHead self.old self.new) }
        ensures kept { OnErr result (IsLeft self.old self.new) }
        ensures failed { IfErr result (λ fault. FailsAt self.old.at self.old.left fault (head_at self.old.number self.old.left)) }
    {
        match head_of(self.number, self.left()) {
            Ok((size, rest)) => {
                let length = self.left().len() - rest.len();
                self.pass(length);
                Ok(size)
            }
            Err(fault) => Err(self.fault(fault)),
        }
    }

    /// Takes the record at the front of a group of which so many bytes are to come, and answers how many of them are
    /// behind it.
    ///
    /// What was read of the next group is let go. After an error the same bytes are left.
    pub fn take_record(&mut self, alloc: Global, size: u64) -> Result<(Change, u64), GroupFault>
        ensures taken { IfOk result (λ x. HasTakenRecord size self.old self.new x.0 x.1) }
        ensures kept { OnErr result (IsLeft self.old self.new) }
        ensures failed { IfErr result (λ fault. FailsAt self.old.at self.old.left fault (window_at size self.old.left)) }
    {
        match change_of(alloc, size, self.left()) {
            Ok((change, length)) => {
                self.pass(length);
                Ok((change, size - length as u64))
            }
            Err(fault) => Err(self.fault(fault)),
        }
    }
}

/// The mark and the head of the next group, or nothing at a mark that isn't open.
fn begin(alloc: Global, number: u64, bytes: &[u8]) -> Result<Option<Body>, RecordFault>
    ensures { HasBegun number bytes.now result }
{
    let (opened, rest) = mark_of(bytes)?;
    if !opened {
        return Ok(None);
    }
    let (size, rest) = head_of(number, rest)?;
    Ok(Some(Body {
        changes: Sequence::new(alloc),
        size,
        read: bytes.len() - rest.len(),
    }))
}
