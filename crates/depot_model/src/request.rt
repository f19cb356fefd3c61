//! What a session asks.

ghost use Rattle.std.specs.Prelude.{◌≡◌, IfOk};

use crate::command::Command;
use crate::contents::Contents;
use db_records::paths::{DepotPath, Name, PathFault, Sequence, Text};
use std::alloc::AllocError;

/// Who asks: the names in the head of a session's script.
#[derive(Drop)]
pub struct Caller {
    /// The user.
    pub user: Name,
    /// The client workspace.
    pub client: Name,
    /// The host.
    pub host: Name,
}

impl Caller {
    /// The same caller once more.
    pub fn copy(&self) -> Result<Caller, AllocError>
        ensures { IfOk result (λ caller. caller ≡ self.now) }
    {
        Ok(Caller {
            user: self.user.clone()?,
            client: self.client.clone()?,
            host: self.host.clone()?,
        })
    }
}

/// What a session says that a file of its client workspace holds.
#[derive(Drop)]
pub struct Content {
    /// The file's path in the workspace.
    pub path: DepotPath,
    /// Its bytes.
    pub bytes: Text,
}

/// Why the words of a command line are no command.
pub enum WordFault {
    /// No command of that word.
    UnknownCommand(Text),
    /// Words that the command of that word doesn't take.
    BadUsage(Text),
    /// An argument that is no path or pattern.
    BadPath(Text, PathFault),
    /// An argument whose revision can't be read.
    BadRevision(Text, PathFault),
    /// A number that is too great, of the command of that word.
    BadNumber(Text),
    /// No memory.
    Memory,
}

impl Drop for WordFault {
    fn drop(self) {
        match self {
            WordFault::UnknownCommand(_) => {}
            WordFault::BadUsage(_) => {}
            WordFault::BadPath(_, _) => {}
            WordFault::BadRevision(_, _) => {}
            WordFault::BadNumber(_) => {}
            WordFault::Memory => {}
        }
    }
}

/// What a command line asks, with all that it brings.
#[derive(Drop)]
pub struct Asked {
    /// The command, or why the words are none.
    pub command: Result<Command, WordFault>,
    /// The block of input that stood before the line.
    pub input: Option<Text>,
    /// For a submit or a shelve, the contents of the session's files.
    pub contents: Contents,
}

/// A session's commands, in the order of its script.
#[derive(Drop)]
pub struct Session {
    /// Who asks.
    pub caller: Caller,
    /// What is asked.
    pub commands: Sequence<Asked>,
}

/// A command with all that its reply depends on beside the depot.
pub struct Request {
    /// Who asks.
    pub caller: Caller,
    /// The party that asks, from 1.
    pub party: u32,
    /// The command's number among those of the party, from 1.
    pub number: u32,
    /// When it was asked, in seconds since 1970.
    pub moment: u64,
    /// What is asked, or why the words are no command.
    pub command: Result<Command, WordFault>,
    /// The block of input that stood before the command.
    pub input: Option<Text>,
    /// For a submit or a shelve, the contents of the session's files.
    pub contents: Contents,
}

impl Drop for Request {
    fn drop(self) {
        let Request {
            caller: _,
            party: _,
            number: _,
            moment: _,
            command: _,
            input: _,
            contents: _,
        } = self;
    }
}
