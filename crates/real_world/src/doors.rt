//! The scripts and the outputs of a folder.

ghost use Rattle.std.specs.Prelude.{◌≡◌, IfOk};

use crate::count::Faults;
use crate::regular::{make, open_alone};
use crate::stream::{FileSink, FileSource};
use arrayvec::ArrayString;
use outside_api::{Doors, Failed};
use std::alloc::{AllocError, Global};
use std::fs::{File, TryLockError};
use std::io;
use std::io::ErrorKind;
use std::rt::Files;

/// A file of a party.
#[derive(Clone, Copy, PartialEq, Eq)]
pub enum PartyFile {
    /// Its script, the file of its name.
    Script,
    /// Its replies, the file of its name and `.out`.
    Replies,
}

/// Why a door failed.
#[derive(Drop)]
pub struct DoorFault<'a> {
    /// The name of the party.
    pub name: &'a str,
    /// Which of its files can't be opened.
    pub file: PartyFile,
    /// What the machine said.
    pub error: io::Error,
}

/// The files of a party that are open, and that haven't come.
#[derive(Drop)]
struct Party {
    script: Option<File>,
    replies: Option<File>,
}

/// The files of the current folder for the parties of these names: a party NAME has its script in the file NAME, which
/// may be anything that can be read, and its replies go to the file `NAME.out`, which is made, or emptied where it is a
/// regular file that is no link and has no other name. It doesn't tell what they hold. Once it is made its calls take
/// no memory.
///
/// The first door opens the files of all names, and locks them (`flock`) until they are closed: the scripts for all who
/// read, the replies for this party alone. It fails where one can't be opened, or another has the lock, and before any
/// is opened where the replies of a name would go to the script of another. Nothing is emptied before all are open.
#[derive(Drop)]
pub struct FolderDoors<'a, R: Files<File = File>> {
    rt: &'a R,
    names: &'a [&'a str],
    /// The files of the names, in their order.
    parties: Vec<Party>,
    are_open: bool,
    faults: Faults<DoorFault<'a>>,
}

/// The most bytes of a file's name.
const NAME: usize = 255;

/// Why replies don't go to what stands at their path.
const REFUSAL: &str = "it is a link, has a second name or is no regular file: move it away";

/// Why a file isn't used that another has locked.
const HELD: &str = "another program, or another name of this run, holds it: nothing was written";

/// The name of the file to which the replies of a party go, where a file can have it.
fn replies_of(name: &str) -> Option<ArrayString<NAME>> {
    let mut replies = ArrayString::from(name).ok()?;
    replies.try_push_str(".out").ok()?;
    Some(replies)
}

/// Checks that the replies of a name have a file of their own.
fn check_name(names: &[&str], name: &str) -> io::Result<()> {
    match replies_of(name) {
        None => Err(io::Error::from(ErrorKind::InvalidFilename)),
        Some(replies) => {
            if names.iter().any(|other| *other == replies.as_str()) {
                let message = "it is the script of another name";
                return Err(io::Error::new(ErrorKind::InvalidInput, message));
            }
            Ok(())
        }
    }
}

/// Checks that the replies of each name have a file of their own.
fn check_names<'a>(names: &[&'a str]) -> Result<(), DoorFault<'a>> {
    for name in names {
        check_name(names, name).map_err(|error| DoorFault {
            name,
            file: PartyFile::Replies,
            error,
        })?;
    }
    Ok(())
}

/// Fails where another handle of a file has a lock that excludes the one that was asked. Where the file system has no
/// locks none is taken.
fn refuse_held(lock: Result<(), TryLockError>) -> io::Result<()> {
    match lock {
        Err(TryLockError::WouldBlock) => Err(io::Error::new(ErrorKind::ResourceBusy, HELD)),
        Err(TryLockError::Error(_)) | Ok(()) => Ok(()),
    }
}

/// Opens the script of a name.
fn open_script<R: Files<File = File>>(
    rt: &R,
    name: &str,
    parties: &mut Vec<Party>,
) -> io::Result<()> {
    let script = File::open(rt, name)?;
    refuse_held(script.try_lock_shared())?;
    parties.push(Party {
        script: Some(script),
        replies: None,
    })?;
    Ok(())
}

/// Opens the scripts of all names.
fn open_scripts<'a, R: Files<File = File>>(
    rt: &R,
    names: &[&'a str],
    parties: &mut Vec<Party>,
) -> Result<(), DoorFault<'a>> {
    for name in names {
        open_script(rt, name, parties).map_err(|error| DoorFault {
            name,
            file: PartyFile::Script,
            error,
        })?;
    }
    Ok(())
}

/// Opens or makes the file to which the replies of a name go.
fn open_reply<R: Files<File = File>>(rt: &R, name: &str, party: &mut Party) -> io::Result<()> {
    let Some(path) = replies_of(name) else {
        return Err(io::Error::from(ErrorKind::InvalidFilename));
    };
    let replies = match open_alone(rt, path.as_str(), REFUSAL)? {
        Some(replies) => replies,
        None => make(rt, path.as_str())?,
    };
    refuse_held(replies.try_lock())?;
    party.replies = Some(replies);
    Ok(())
}

/// Opens or makes the files to which the replies go.
fn open_replies<'a, R: Files<File = File>>(
    rt: &R,
    names: &[&'a str],
    parties: &mut [Party],
) -> Result<(), DoorFault<'a>> {
    for (name, party) in names.iter().zip(parties) {
        open_reply(rt, name, party).map_err(|error| DoorFault {
            name,
            file: PartyFile::Replies,
            error,
        })?;
    }
    Ok(())
}

/// Empties the file to which the replies of a party go.
fn empty_reply(party: &Party) -> io::Result<()> {
    match &party.replies {
        Some(replies) => replies.set_len(0),
        None => Ok(()),
    }
}

/// Empties the files to which the replies go.
fn empty_replies<'a>(names: &[&'a str], parties: &[Party]) -> Result<(), DoorFault<'a>> {
    for (name, party) in names.iter().zip(parties) {
        empty_reply(party).map_err(|error| DoorFault {
            name,
            file: PartyFile::Replies,
            error,
        })?;
    }
    Ok(())
}

/// Opens the files of all names, and then empties those of the replies.
fn open_all<'a, R: Files<File = File>>(
    rt: &R,
    names: &[&'a str],
    parties: &mut Vec<Party>,
) -> Result<(), DoorFault<'a>> {
    parties.clear();
    check_names(names)?;
    open_scripts(rt, names, parties)?;
    open_replies(rt, names, parties.as_mut_slice())?;
    empty_replies(names, parties.as_slice())
}

/// Takes the files of a name out of those that are open.
fn take(names: &[&str], parties: &mut [Party], name: &str) -> Option<(File, File)> {
    let place = names.iter().position(|known| *known == name)?;
    let party = parties.get_mut(place)?;
    let script = party.script.take()?;
    let replies = party.replies.take()?;
    Some((script, replies))
}

impl<'a, R: Files<File = File>> FolderDoors<'a, R> {
    /// The doors of these names to the files of the current folder.
    pub fn new(rt: &'a R, alloc: Global, names: &'a [&'a str]) -> Result<Self, AllocError>
        ensures { IfOk result (λ doors. doors.faults.count ≡ 0) }
    {
        Ok(FolderDoors {
            rt,
            names,
            parties: Vec::with_capacity(alloc, names.len())?,
            are_open: false,
            faults: Faults::none(),
        })
    }

    /// Why the first door failed that did.
    pub fn first_fault(&self) -> Option<&DoorFault<'a>> {
        self.faults.first.as_ref()
    }
}

impl<R: Files<File = File>> Doors for FolderDoors<'_, R> {
    ghost use Rattle.std.specs.Prelude.{None};

    type In = FileSource;

    type Out = FileSink;

    ghost says = { record { input = λ doors name. None; output = λ doors name. None; faults = λ doors. doors.faults.count } };

    fn come(&mut self, name: &str) -> Result<(FileSource, FileSink), Failed> {
        if !self.are_open {
            if let Err(fault) = open_all(self.rt, self.names, &mut self.parties) {
                self.faults.rise(fault);
                return Err(Failed);
            }
            self.are_open = true;
        }
        match take(self.names, self.parties.as_mut_slice(), name) {
            Some((script, replies)) => Ok((FileSource::new(script), FileSink::new(replies))),
            None => {
                self.faults.add();
                Err(Failed)
            }
        }
    }
}
