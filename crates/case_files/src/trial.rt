//! Runs over copies of the disks of a case, and what stops leave of them.

use crate::answers::Answers;
use crate::fault::{both, put};
use crate::gate::CaseGate;
use crate::server::{Ran, Server, Setting};
use depot_path::Text;
use outside_api::Disk;
use std::alloc::{AllocError, Global};
use std::sync::Wait;
use std::thread::Threads;

/// The greatest number of a call of a trial that may fail. No run of a case makes as many calls of an object.
pub const MOST_CALLS: u64 = 4_000;

/// The bytes that the open ones of a stop of a node are, in the order in which they are told.
const NODE_PICKS: &[u8] = b"me";

/// The bytes that the open ones of a stop are: none of a mark, that of an open mark, and that of a closed one.
const PICKS: &[u8] = b"0em";

/// How many open bytes are given one of these bytes; those behind them are 0.
const PICKED: usize = 8192;

/// How many lengths a disk gives before a call fails.
fn calls_left<D: Disk>(disk: &mut D) -> u64 {
    for asked in 0..MOST_CALLS {
        if disk.length(0).is_err() {
            return asked;
        }
    }
    MOST_CALLS
}

/// The first line of a text, without its line feed.
fn first_line(text: &[u8]) -> &[u8] {
    text.split(|byte| *byte == b'\n').next().unwrap_or(text)
}

/// Adds to which of the depots that are kept disks open: its number, from 0, or `?` where it is none of them. Of disks
/// that don't open it is the line that says so, in parentheses.
fn tell_opened(kept: &[Text], dumped: &Ran, line: &mut Answers) {
    let rows = dumped.out.given();
    if dumped.status != 0 {
        line.add(b"(");
        line.add(first_line(rows));
        line.add(b")");
        return;
    }
    match kept.iter().position(|depot| depot.as_bytes() == rows) {
        Some(number) => line.add(itoa::Buffer::new().format(number as u64).as_bytes()),
        None => line.add(b"?"),
    }
}

/// Keeps what was told.
fn keep_told(alloc: Global, told: &mut Vec<Text>, rows: &[u8]) -> Result<(), AllocError> {
    put(told, Text::from_bytes(alloc, rows)?)
}

/// Adds what a `dump` gave of the disks that a stop left, where it isn't among what was told before.
fn tell_once(alloc: Global, dumped: &Ran, told: &mut Vec<Text>, answers: &mut Answers) {
    let rows = dumped.out.given();
    if told.iter().any(|old| old.as_bytes() == rows) {
        return;
    }
    answers.add_stopped(dumped);
    if keep_told(alloc, told, rows).is_err() {
        answers.lose();
    }
}

// A run over copies of the disks of a case.
impl Ran {
    /// The moment of the journal's disk at which the run ended, where the call of the number `MOST_CALLS` was to fail.
    fn end(&mut self) -> u64 {
        (MOST_CALLS - 1).saturating_sub(calls_left(&mut self.sites.depot.journal))
    }

    /// What a run with the words of a text, which print the rows of a depot, gives out over the disks that a stop at a
    /// moment of the journal's disk leaves.
    fn dumped<R: Threads + Wait + Sync, S: Server>(
        &self,
        rt: &R,
        server: &S,
        alloc: Global,
        moment: u64,
        pick: &[u8],
        words: &str,
    ) -> Result<Ran, AllocError> {
        let setting = Setting::new(alloc, words, &[], &[]);
        let (setting, left) = both(setting, self.sites.stopped(moment, pick))?;
        server.run(rt, setting, left, &CaseGate::open())
    }

    /// Adds to what the disks open after a stop at a moment of the journal's disk, with open bytes of this one, and the
    /// archive's disk as it is at the end.
    fn tell_stop<R: Threads + Wait + Sync, S: Server>(
        &self,
        rt: &R,
        server: &S,
        alloc: Global,
        kept: &[Text],
        moment: u64,
        byte: u8,
        line: &mut Answers,
    ) {
        match self.dumped(rt, server, alloc, moment, &[byte; PICKED], "dump") {
            Ok(dumped) => {
                line.add(b" ");
                tell_opened(kept, &dumped, line);
                drop(dumped);
            }
            Err(AllocError) => line.lose(),
        }
    }

    /// The rows of the depot that the run leaves.
    pub fn rows<R: Threads + Wait + Sync, S: Server>(
        &self,
        rt: &R,
        server: &S,
        alloc: Global,
    ) -> Result<Text, AllocError> {
        let dumped = self.dumped(rt, server, alloc, u64::MAX, &[], "dump")?;
        let rows = Text::from_bytes(alloc, dumped.out.given());
        drop(dumped);
        rows
    }

    /// Adds to what the disks open after a stop at each moment of the run, in turn, each once where neighbours are
    /// alike.
    fn tell_moments<R: Threads + Wait + Sync, S: Server>(
        &self,
        rt: &R,
        server: &S,
        alloc: Global,
        kept: &[Text],
        end: u64,
        byte: u8,
        answers: &mut Answers,
    ) {
        answers.add_pick(byte);
        let mut last = Answers::new(alloc);
        for moment in 0..=end {
            let mut opened = Answers::new(alloc);
            self.tell_stop(rt, server, alloc, kept, moment, byte, &mut opened);
            answers.add_unlike(&opened, &last);
            last = opened;
        }
        answers.add(b"\n");
    }

    /// Adds what stops at the moments of the run leave, for each of the bytes that the open ones may be.
    pub fn tell_stops<R: Threads + Wait + Sync, S: Server>(
        &mut self,
        rt: &R,
        server: &S,
        alloc: Global,
        kept: &[Text],
        answers: &mut Answers,
    ) {
        let end = self.end();
        for byte in PICKS {
            self.tell_moments(rt, server, alloc, kept, end, *byte, answers);
        }
    }

    /// Adds what a stop now leaves of the node, for each of the bytes that the open ones may be, where that isn't among
    /// what was told before.
    pub fn tell_node<R: Threads + Wait + Sync, S: Server>(
        &self,
        rt: &R,
        server: &S,
        alloc: Global,
        told: &mut Vec<Text>,
        answers: &mut Answers,
    ) {
        for byte in NODE_PICKS {
            let pick = [*byte; PICKED];
            match self.dumped(rt, server, alloc, u64::MAX, &pick, "node dump") {
                Ok(dumped) => {
                    tell_once(alloc, &dumped, told, answers);
                    drop(dumped);
                }
                Err(AllocError) => answers.lose(),
            }
        }
    }

    /// Adds how the run ended, which commands were refused, and to what a stop at its end leaves the disks.
    pub fn tell_outcome<R: Threads + Wait + Sync, S: Server>(
        &self,
        rt: &R,
        server: &S,
        alloc: Global,
        words: &str,
        kept: &[Text],
        line: &mut Answers,
    ) {
        line.add_end(words, self);
        line.add_word(b"opens to");
        for byte in PICKS {
            self.tell_stop(rt, server, alloc, kept, u64::MAX, *byte, line);
        }
        line.add(b"\n");
    }
}
