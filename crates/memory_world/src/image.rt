//! The files that a stop leaves, worked out from the calls up to it.

ghost use Rattle.std.specs.Prelude.{◌≡◌, ◌<◌, ℕ, [], ◌∷◌, ◌++◌, true, false, length, drop, get_or, IfOk, OnOk};
ghost use Rattle.memory_world.specs.Files.{contents};
ghost use Rattle.memory_world.specs.Replay.{State, called, replay, at_rest};
ghost use Rattle.memory_world.specs.Ranges.{is_in, Agrees, open_below, IsFilled};

use crate::call::Call;
use crate::files::{copy_files, cut_file, write_file};
use std::alloc::{AllocError, Global};

/// A range of a file at whose places a stop may leave any bytes.
#[derive(Clone, Copy, Drop)]
pub(crate) struct OpenRange {
    pub file: u32,
    pub at: u64,
    pub count: u64,
}

/// What each file reads, and the ranges that are open.
#[derive(Drop)]
pub(crate) struct Replayed {
    pub files: Vec<Vec<u8>>,
    pub ranges: Vec<OpenRange>,
}

/// The files after some calls.
pub(crate) fn replay_calls(
    alloc: Global,
    start: &[Vec<u8>],
    calls: &[Call],
) -> Result<Replayed, AllocError>
    ensures { IfOk result (λ r. Agrees r.files.items r.ranges.items (replay calls.now (at_rest (contents start.now)))) }
{
    let mut files = copy_files(alloc, start)?;
    let mut ranges = Vec::new(alloc);
    for call in calls {
        redo(alloc, &mut files, &mut ranges, call)?;
    }
    Ok(Replayed { files, ranges })
}

// Does a call again.
fn redo(
    alloc: Global,
    files: &mut Vec<Vec<u8>>,
    ranges: &mut Vec<OpenRange>,
    call: &Call,
) -> Result<(), AllocError>
    ensures { OnOk result ((s : State) → Agrees files.old.items ranges.old.items s →
        Agrees files.new.items ranges.new.items (called call.now s)) }
{
    match call {
        Call::Look => Ok(()),
        Call::Write { file, at, piece } => {
            write_file(alloc, files, *file, *at, piece)?;
            open(ranges, *file, *at, piece.len() as u64)?;
            Ok(())
        }
        Call::BrokenWrite { file, at, count } => {
            open(ranges, *file, *at, *count)?;
            Ok(())
        }
        Call::Cut { file, length } => {
            cut_file(files, *file, *length);
            open(ranges, *file, *length, u64::MAX - *length)?;
            Ok(())
        }
        Call::BrokenCut { file, length } => {
            open(ranges, *file, *length, u64::MAX - *length)?;
            Ok(())
        }
        Call::Sync => {
            *ranges = Vec::new(alloc);
            Ok(())
        }
    }
}

// Adds a range.
fn open(ranges: &mut Vec<OpenRange>, file: u32, at: u64, count: u64) -> Result<(), AllocError>
    ensures { OnOk result (ranges.new.items ≡ ranges.old.items ++ record { file = file; at = at; count = count } ∷ []) }
{
    ranges.push(OpenRange { file, at, count })?;
    Ok(())
}

/// Puts bytes of `pick`, and then 0, into the open places of all files, in order of file and place.
pub(crate) fn fill_all(files: &mut Vec<Vec<u8>>, ranges: &[OpenRange], pick: &[u8])
    ensures { IsFilled (is_in ranges.now) pick.now (contents files.old.items) (contents files.new.items) }
{
    let mut rest = pick;
    for number in 0..files.len() {
        rest = fill(files[number].as_mut_slice(), number, ranges, rest);
    }
}

// Puts bytes of `pick`, and then 0, into the open places of a file, and answers what is left.
fn fill<'p>(bytes: &mut [u8], number: usize, ranges: &[OpenRange], pick: &'p [u8]) -> &'p [u8]
    ensures kept { (k : ℕ) → is_in ranges.now number k ≡ false → get_or bytes.new k 0 ≡ get_or bytes.old k 0 }
    ensures picked { (k : ℕ) → k < length bytes.old → is_in ranges.now number k ≡ true →
        get_or bytes.new k 0 ≡ get_or pick.now (open_below (is_in ranges.now number) k) 0 }
    ensures rest { result.now ≡ drop (open_below (is_in ranges.now number) (length bytes.old)) pick.now }
{
    let mut used = 0;
    for (place, byte) in bytes.iter_mut().enumerate() {
        if is_open(ranges, number, place) {
            *byte = byte_at(pick, used);
            used += 1;
        }
    }
    &pick[used.min(pick.len())..]
}

// A byte of a text, and 0 behind its end.
fn byte_at(text: &[u8], place: usize) -> u8
    ensures { result ≡ get_or text.now place 0 }
{
    match text.get(place) {
        Some(byte) => *byte,
        None => 0,
    }
}

// Whether a place of a file is open.
fn is_open(ranges: &[OpenRange], number: usize, place: usize) -> bool
    ensures { result ≡ is_in ranges.now number place }
{
    let mut rest = ranges;
    while let [range, after @ ..] = rest {
        if range.file as usize == number
            && range.at as usize <= place
            && place - (range.at as usize) < range.count as usize
        {
            return true;
        }
        rest = after;
    }
    false
}
