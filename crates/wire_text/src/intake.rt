//! Taking the bytes of a script from its source, a buffer at a time.

ghost use Rattle.std.specs.Prelude.{◌≡◌, ◌<◌, ◌≤◌, ◌+◌, ◌-◌, [], length, take, drop, IfOk, IfErr, IfSome, IfNone};
ghost use Rattle.outside_api.specs.Told.{prepended};
ghost use Rattle.wire_text.specs.Intake.{Moves, StopCase, Stops};

use outside_api::Source;
use std::alloc::{AllocError, Global};
use std::marker::Model;

/// The most bytes of a script.
pub const MAX_SCRIPT: u64 = 67_108_864;

/// How many bytes are taken from a source at once.
const BUFFER: usize = 8_192;

/// Why no further byte came.
#[derive(Clone, Copy, PartialEq, Eq)]
pub(crate) enum Stop {
    /// The source is at its end.
    End,
    /// The script goes on past the most bytes.
    Over,
    /// The source failed.
    Failed,
}

/// Bytes of a script that were taken from its source and not read yet.
#[derive(Drop)]
pub(crate) struct Intake {
    buffer: Vec<u8>,
    start: usize,
    end: usize,
    place: u64,
}

impl Model for Intake {
    ghost use Rattle.std.specs.Prelude.{slice_range};
    ghost use Rattle.std.specs.Vec.{vec_len};
    ghost use Rattle.wire_text.specs.Intake.{Taken, IsIntake};

    ghost Value = { Taken };

    ghost view = { λ intake. record { held = slice_range intake.buffer.items intake.start intake.end; place = intake.place } };

    ghost invariant = { λ intake. IsIntake intake.start intake.end (vec_len intake.buffer) intake.place };
}

/// Takes bytes into a buffer, at least one, where there is room for so many more.
fn take_bytes<S: Source>(source: &mut S, buffer: &mut [u8], room: u64) -> Result<usize, Stop>
    requires { 0 < length buffer.old }
    ensures some { IfOk result (λ n. 0 < n) }
    ensures fits { IfOk result (λ n. n ≤ length buffer.old) }
    ensures room { IfOk result (λ n. n ≤ room) }
    ensures taken { IfOk result (λ n. S.says.left source.old ≡ prepended (take n buffer.new) (S.says.left source.new)) }
    ensures stop { IfErr result (λ stop. StopCase (S.says.left source.old) (S.says.left source.new) room (S.says.faults source.old) (S.says.faults source.new) stop) }
    ensures counts { S.says.faults source.old ≤ S.says.faults source.new }
{
    if room == 0 {
        return Err(past_end(source));
    }
    let most = room.min(buffer.len() as u64) as usize;
    match source.take(&mut buffer[..most]) {
        Ok(0) => Err(Stop::End),
        Ok(count) => Ok(count),
        Err(_) => Err(Stop::Failed),
    }
}

/// Whether the source goes on where there is no room for more.
fn past_end<S: Source>(source: &mut S) -> Stop
    ensures stop { StopCase (S.says.left source.old) (S.says.left source.new) 0 (S.says.faults source.old) (S.says.faults source.new) result }
    ensures counts { S.says.faults source.old ≤ S.says.faults source.new }
{
    let mut byte = [0u8; 1];
    match source.take(&mut byte) {
        Ok(0) => Stop::End,
        Ok(_) => Stop::Over,
        Err(_) => Stop::Failed,
    }
}

impl Intake {
    /// Nothing taken yet.
    pub fn new(alloc: Global) -> Result<Self, AllocError>
        ensures { IfOk result (λ intake. intake ≡ record { held = []; place = 0 }) }
    {
        Ok(Intake {
            buffer: Vec::from_slice(alloc, &[0u8; BUFFER])?,
            start: 0,
            end: 0,
            place: 0,
        })
    }

    /// The bytes that were not read yet.
    pub fn held(&self) -> &[u8]
        ensures held { result.now ≡ self.now.held }
        ensures most { self.now.place + length self.now.held ≤ 67108864 }
    {
        &self.buffer[self.start..self.end]
    }

    /// How many bytes were read.
    pub fn place(&self) -> u64
        ensures place { result ≡ self.now.place }
        ensures most { self.now.place + length self.now.held ≤ 67108864 }
    {
        self.place
    }

    /// Passes bytes, which are read then.
    pub fn pass(&mut self, count: usize)
        requires { count ≤ length self.old.held }
        ensures held { self.new.held ≡ drop count self.old.held }
        ensures place { self.new.place ≡ self.old.place + count }
        ensures most { self.new.place + length self.new.held ≤ 67108864 }
    {
        self.start += count;
        self.place += count as u64;
    }

    /// Takes bytes from the source where none is held, at least one; or it answers why none came.
    pub fn refill<S: Source>(&mut self, source: &mut S) -> Option<Stop>
        requires { self.old.held ≡ [] }
        ensures more { IfNone result (Moves (S.says.left source.old) (S.says.left source.new) self.old self.new []) }
        ensures some { IfNone result (0 < length self.new.held) }
        ensures stops { IfSome result (λ stop. Stops (S.says.left source.old) (S.says.left source.new) (S.says.faults source.old) (S.says.faults source.new) self.old self.new [] stop) }
        ensures counts { S.says.faults source.old ≤ S.says.faults source.new }
    {
        let room = MAX_SCRIPT - self.place;
        self.start = 0;
        self.end = 0;
        match take_bytes(source, &mut self.buffer, room) {
            Ok(count) => {
                self.end = count;
                None
            }
            Err(stop) => Some(stop),
        }
    }
}
