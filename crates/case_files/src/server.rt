//! A run of a server over disks in memory.

ghost use Rattle.std.specs.Thread.{IsSync};

use crate::disks::{Sites, failing_calls};
use crate::fault::{both, put};
use crate::gate::CaseGate;
use crate::step::{Failure, Outside};
use depot_path::Text;
use memory_world::{Door, MemoryDoors, MemorySink, MemorySource};
use std::alloc::{AllocError, Global};
use std::sync::Wait;
use std::thread::Threads;

/// A script, and the name of the door that brings it.
#[derive(Drop)]
pub struct Script<'a> {
    pub name: &'a str,
    pub text: Text,
}

impl<'a> Script<'a> {
    /// A script of these bytes.
    pub fn new(alloc: Global, name: &'a str, bytes: &[u8]) -> Result<Self, AllocError> {
        let text = Text::from_bytes(alloc, bytes)?;
        Ok(Script { name, text })
    }

    /// Puts bytes behind it so many times.
    pub fn append(&mut self, count: u64, bytes: &[u8]) -> Result<(), AllocError> {
        for _ in 0..count {
            self.text.append(bytes)?;
        }
        Ok(())
    }
}

/// What a run is given beside its disks and its gate.
#[derive(Drop)]
pub struct Setting<'a> {
    /// The words of the command line.
    pub words: Vec<&'a str>,
    /// The doors of the scripts.
    pub doors: MemoryDoors,
    /// What the server gives out.
    pub out: MemorySink,
}

/// What a run leaves.
#[derive(Drop)]
pub struct Ran {
    /// The status with which the program would end.
    pub status: u8,
    /// The disks.
    pub sites: Sites,
    /// What each party got, in the order of their names.
    pub sinks: Vec<MemorySink>,
    /// What the server gave out.
    pub out: MemorySink,
}

impl Ran {
    /// The disks.
    pub fn into_sites(self) -> Sites {
        let Ran {
            status: _,
            sites,
            sinks,
            out,
        } = self;
        drop(sinks);
        drop(out);
        sites
    }
}

/// A server that cases run.
pub trait Server {
    /// Runs it by a runtime in a setting over disks, with a gate. The only error is want of memory for what is told of
    /// the run.
    fn run<R: Threads + Wait + Sync>(
        &self,
        rt: &R,
        setting: Setting,
        sites: Sites,
        gate: &CaseGate,
    ) -> Result<Ran, AllocError>
        requires { IsSync R.row };
}

/// The door of a script.
fn door(alloc: Global, script: &Script, failures: &[Failure]) -> Result<Door, AllocError> {
    let texts = both(
        Text::from_bytes(alloc, script.name.as_bytes()),
        Text::from_bytes(alloc, script.text.as_bytes()),
    );
    let calls = both(
        failing_calls(alloc, failures, Outside::Source(script.name)),
        failing_calls(alloc, failures, Outside::Sink(script.name)),
    );
    let ((name, bytes), (reads, writes)) = both(texts, calls)?;
    let source = MemorySource::new(bytes, reads);
    Ok(Door::new(name, source, MemorySink::new(writes)))
}

/// The doors of these scripts.
fn doors(alloc: Global, scripts: &[Script], failures: &[Failure]) -> Result<Vec<Door>, AllocError> {
    let mut doors = Vec::new(alloc);
    for script in scripts {
        put(&mut doors, door(alloc, script, failures)?)?;
    }
    Ok(doors)
}

/// The words between the spaces of a text, none of an empty one.
fn words<'a>(alloc: Global, text: &'a str) -> Result<Vec<&'a str>, AllocError> {
    let mut words = Vec::new(alloc);
    if !text.is_empty() {
        for word in text.split(' ') {
            words.push(word)?;
        }
    }
    Ok(words)
}

impl<'a> Setting<'a> {
    /// The words of a text, these scripts behind their doors, and the calls of the objects that fail.
    pub fn new(
        alloc: Global,
        text: &'a str,
        scripts: &[Script],
        failures: &[Failure],
    ) -> Result<Self, AllocError> {
        let given = both(words(alloc, text), doors(alloc, scripts, failures));
        let calls = both(
            failing_calls(alloc, failures, Outside::Doors),
            failing_calls(alloc, failures, Outside::Out),
        );
        let ((words, doors), (comes, gives)) = both(given, calls)?;
        Ok(Setting {
            words,
            doors: MemoryDoors::new(doors, comes),
            out: MemorySink::new(gives),
        })
    }
}
