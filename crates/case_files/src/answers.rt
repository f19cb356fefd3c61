//! What is printed of the cases of a file.

use crate::fault::CaseFault;
use crate::gate::CaseGate;
use crate::server::Ran;
use depot_path::Text;
use memory_world::MemorySink;
use std::alloc::{AllocError, Global};

/// What is printed of the cases of a file. What finds no memory is lost, and the rest isn't whole then.
#[derive(Drop)]
pub struct Answers {
    alloc: Global,
    text: Text,
    is_whole: bool,
}

/// Whether the words of a run ask for a thread for each party.
fn is_serve(words: &str) -> bool {
    words.starts_with("serve ")
}

/// The names of the parties that the words of a run schedule or serve, with spaces between them.
fn names_of(words: &str) -> &str {
    match words.split_once("schedule ") {
        Some((_, names)) => names,
        None => words.strip_prefix("serve ").unwrap_or(""),
    }
}

/// Whether a line tells a place of the order.
fn is_place(line: &[u8]) -> bool {
    line.starts_with(b"place ") || line.starts_with(b"fault ")
}

/// The lines of what a run gave out, each with its line feed, that tell a place of the order, in rising order of their
/// bytes.
fn sorted_places<'a>(alloc: Global, out: &'a [u8]) -> Result<Vec<&'a [u8]>, AllocError> {
    let mut lines = Vec::new(alloc);
    for line in out.split_inclusive(|byte| *byte == b'\n') {
        if is_place(line) {
            lines.push(line)?;
        }
    }
    lines.sort_unstable();
    Ok(lines)
}

impl Answers {
    /// Nothing.
    pub fn new(alloc: Global) -> Self {
        Answers {
            alloc,
            text: Text::new(alloc),
            is_whole: true,
        }
    }

    /// The bytes to print.
    pub fn as_bytes(&self) -> &[u8] {
        self.text.as_bytes()
    }

    /// Whether there was memory for all.
    pub fn is_whole(&self) -> bool {
        self.is_whole
    }

    /// Loses what finds no memory.
    pub fn lose(&mut self) {
        self.is_whole = false;
    }

    /// Adds bytes as they are.
    pub fn add(&mut self, bytes: &[u8]) {
        if self.text.append(bytes).is_err() {
            self.lose();
        }
    }

    /// Adds others, unless they are the same as the last ones.
    pub fn add_unlike(&mut self, others: &Answers, last: &Answers) {
        self.is_whole = self.is_whole && others.is_whole;
        if others.as_bytes() != last.as_bytes() {
            self.add(others.as_bytes());
        }
    }

    /// Adds a line of a front, a word and a back.
    pub fn add_line(&mut self, front: &str, word: &str, back: &str) {
        self.add(front.as_bytes());
        self.add(word.as_bytes());
        self.add(back.as_bytes());
        self.add(b"\n");
    }

    /// Adds the head of a case.
    pub fn add_case(&mut self, name: &str) {
        self.add_line("== ", name, "");
    }

    /// Adds the line of a status.
    fn add_status(&mut self, status: u8) {
        self.add_line("status ", itoa::Buffer::new().format(status), "");
    }

    /// Adds what each party got, in the order of their names, between which spaces stand.
    fn add_parties(&mut self, names: &str, sinks: &[MemorySink]) {
        for (name, sink) in names.split(' ').zip(sinks) {
            self.add_line("[", name, "]");
            self.add(sink.given());
        }
    }

    /// Adds the lines of what a run gave out, each with its line feed, that tell a place of the order, in rising order
    /// of their bytes.
    fn add_places(&mut self, out: &[u8]) {
        let Ok(places) = sorted_places(self.alloc, out) else {
            self.lose();
            return;
        };
        for line in &places {
            self.add(line);
        }
    }

    /// Adds what a run gave out whose order its threads choose: the lines of the order in rising order of their bytes,
    /// and the others behind them.
    fn add_unordered(&mut self, out: &[u8]) {
        self.add_places(out);
        for line in out.split_inclusive(|byte| *byte == b'\n') {
            if !is_place(line) {
                self.add(line);
            }
        }
    }

    /// Adds whether a gate that holds commands got what it waited for.
    fn add_gate(&mut self, gate: &CaseGate) {
        if let Some((front, word)) = gate.end() {
            self.add_line(front, word, "");
        }
    }

    /// Adds the end of a run with these words and this gate: what `out` got, the status, what each party got, and what
    /// the gate tells.
    pub fn add_run(&mut self, words: &str, ran: &Ran, gate: &CaseGate) {
        self.add_line("$ ", words, "");
        let words = words.strip_prefix("node ").unwrap_or(words);
        if is_serve(words) && !gate.is_turn() {
            self.add_unordered(ran.out.given());
        } else {
            self.add(ran.out.given());
        }
        self.add_status(ran.status);
        self.add_parties(names_of(words), &ran.sinks);
        self.add_gate(gate);
    }

    /// Adds what a `dump` gave of the disks that a stop left, and its status.
    pub fn add_stopped(&mut self, dumped: &Ran) {
        self.add(b"stopped\n");
        self.add(dumped.out.given());
        self.add_status(dumped.status);
    }

    /// Adds a word to the last line, with a space before it.
    pub fn add_word(&mut self, word: &[u8]) {
        self.add(b" ");
        self.add(word);
    }

    /// Begins a line with a byte that the open bytes of a stop are.
    pub fn add_pick(&mut self, byte: u8) {
        self.add(b"open bytes ");
        self.add(&[byte]);
        self.add(b":");
    }

    /// Adds to the last line those lines of what a run gave out that tell no place of the order.
    fn add_faults(&mut self, out: &[u8]) {
        for line in out.split(|byte| *byte == b'\n') {
            if !line.is_empty() && !line.starts_with(b"place ") {
                self.add_word(line);
                self.add(b",");
            }
        }
    }

    /// Adds to the last line the code of each reply, `-` where it has none.
    fn add_codes(&mut self, given: &[u8]) {
        let mut is_refused = false;
        for line in given.split(|byte| *byte == b'\n') {
            if line.starts_with(b"... end ") {
                if !is_refused {
                    self.add_word(b"-");
                }
                is_refused = false;
            } else if let Some(code) = line.strip_prefix(b"... code ") {
                if !is_refused {
                    self.add_word(code);
                }
                is_refused = true;
            }
        }
    }

    /// Adds to the last line each party's name, and the code of each of its replies.
    fn add_party_codes(&mut self, names: &str, sinks: &[MemorySink]) {
        for (name, sink) in names.split(' ').zip(sinks) {
            self.add_word(name.as_bytes());
            self.add_codes(sink.given());
            self.add(b",");
        }
    }

    /// Adds to the last line how a run with these words ended: its status, the places that are faults, the faults of
    /// scripts, and each party's codes.
    pub fn add_end(&mut self, words: &str, ran: &Ran) {
        self.add(b"status ");
        self.add(itoa::Buffer::new().format(ran.status).as_bytes());
        self.add(b",");
        self.add_faults(ran.out.given());
        self.add_party_codes(names_of(words), &ran.sinks);
    }

    /// Adds the fault of a line, at which the cases end.
    pub fn add_fault(&mut self, fault: CaseFault, line: u64) {
        self.add_line(fault.name(), " ", itoa::Buffer::new().format(line));
    }
}
