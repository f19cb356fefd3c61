//! A file of cases, read line by line.

ghost use Rattle.std.specs.Prelude.{◌≤◌, ◌<◌, length};
ghost use Rattle.std.specs.Iterator.{at_most};

use crate::fault::CaseFault;
use crate::step::{Step, Words, cut, damage, every_call, fail, gate, show, stops};

/// A line of a file of cases.
#[derive(Clone, Copy)]
pub struct Line<'a> {
    /// Its number, from 1.
    pub number: u64,
    /// What it asks.
    pub step: Result<Step<'a>, CaseFault>,
}

/// What is left of a file of cases.
#[derive(Clone, Copy)]
pub struct Cases<'a> {
    rest: &'a [u8],
    lines: u64,
}

impl<'a> Cases<'a> {
    /// The whole file.
    pub fn new(rest: &'a [u8]) -> Self {
        Cases { rest, lines: 0 }
    }

    /// Takes so many bytes, and the line feed behind them, if they are all there.
    fn take_block(&mut self, size: usize) -> Option<&'a [u8]>
        ensures { length self.new.rest.now ≤ length self.old.rest.now }
    {
        let (block, behind) = self.rest.split_at_checked(size)?;
        let (feed, rest) = behind.split_first()?;
        if *feed != b'\n' {
            return None;
        }
        self.rest = rest;
        Some(block)
    }

    /// Takes the next line, behind which a line feed stands but at the end of the file.
    fn take_line(&mut self) -> &'a [u8]
        requires { 0 < length self.old.rest.now }
        ensures { length self.new.rest.now < length self.old.rest.now }
    {
        self.lines = self.lines.saturating_add(1);
        let end = self.rest.iter().position(|byte| *byte == b'\n');
        let (line, rest) = match end {
            Some(end) => (&self.rest[..end], &self.rest[end + 1..]),
            None => (self.rest, [].as_slice()),
        };
        self.rest = rest;
        line
    }

    /// Takes so many bytes that a line announces, behind whose words nothing is left.
    fn take_bytes(&mut self, words: Words<'a>, size: u64) -> Result<&'a [u8], CaseFault>
        ensures { length self.new.rest.now ≤ length self.old.rest.now }
    {
        words.end(())?;
        let Some(bytes) = self.take_block(size as usize) else {
            return Err(CaseFault::CutScript);
        };
        let feeds = bytes.iter().filter(|byte| **byte == b'\n').count();
        self.lines = self.lines.saturating_add(1).saturating_add(feeds as u64);
        Ok(bytes)
    }

    /// The script of these words, with its bytes.
    fn take_script(&mut self, text: &'a str) -> Result<Step<'a>, CaseFault>
        ensures { length self.new.rest.now ≤ length self.old.rest.now }
    {
        let mut words = Words::new(text);
        let name = words.word();
        let length = words.number();
        let bytes = self.take_bytes(words, length)?;
        Ok(Step::Script { name, bytes })
    }

    /// What is put behind the script of these words.
    fn take_more(&mut self, text: &'a str) -> Result<Step<'a>, CaseFault>
        ensures { length self.new.rest.now ≤ length self.old.rest.now }
    {
        let mut words = Words::new(text);
        let name = words.word();
        let count = words.number();
        let length = words.number();
        let bytes = self.take_bytes(words, length)?;
        Ok(Step::More { name, count, bytes })
    }

    /// The file of these words, with its bytes.
    fn take_file(&mut self, text: &'a str) -> Result<Step<'a>, CaseFault>
        ensures { length self.new.rest.now ≤ length self.old.rest.now }
    {
        let mut words = Words::new(text);
        let disk = words.disk();
        let file = words.short_number();
        let length = words.number();
        let bytes = self.take_bytes(words, length)?;
        Ok(Step::File { disk, file, bytes })
    }

    /// What a line asks.
    fn step(&mut self, line: &'a [u8]) -> Result<Step<'a>, CaseFault>
        ensures { length self.new.rest.now ≤ length self.old.rest.now }
    {
        let Ok(line) = str::from_utf8(line) else {
            return Err(CaseFault::NotText);
        };
        if line.is_empty() || line.starts_with('#') {
            return Ok(Step::Skip);
        }
        let (form, words) = line.split_once(' ').unwrap_or((line, ""));
        match form {
            "case" => Ok(Step::Case(words)),
            "script" => self.take_script(words),
            "more" => self.take_more(words),
            "file" => self.take_file(words),
            "gate" => gate(words),
            "fail" => fail(words),
            "run" => Ok(Step::Run(words)),
            "kept" => Ok(Step::Kept(words)),
            "every" => every_call(words),
            "stops" => Ok(stops(words)),
            "show" => show(words),
            "damage" => damage(words),
            "cut" => cut(words),
            _ => Err(CaseFault::UnknownWord),
        }
    }
}

impl<'a> Iterator for Cases<'a> {
    type Item = Line<'a>;

    ghost remaining = { λ cases. at_most (length cases.rest.now) };

    fn next(&mut self) -> Option<Line<'a>> {
        if self.rest.is_empty() {
            return None;
        }
        let line = self.take_line();
        let number = self.lines;
        let step = self.step(line);
        Some(Line { number, step })
    }
}
