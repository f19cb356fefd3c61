//! What went wrong, on standard error.

use chain_server::{Cause, ChainCause, ChainEnded, Ended, PartyCause, PartyEnd, WholeEnded};
use ended_texts::{
    CHAIN_USAGE, HELD, INCOMPLETE, MADE, MEMORY, NODE_UNMADE, UNMADE, apart_line, bad_place_line,
    damaged_line, failed_line, script_line,
};
use memory_world::MemoryDisk;
use program_words::usage;
use real_world::{DoorFault, FileSink, FileSource, FolderDisk, FolderDoors, PartyFile, line_of};
use recovery::{DepotDisk, OpenFault};
use std::alloc::{AllocError, Global};
use std::fs::File;
use std::io;
use std::io::ErrorKind;
use std::rt::Files;

/// The folders of two disks.
#[derive(Clone, Copy)]
pub struct Folders {
    pub journal: &'static str,
    pub archive: &'static str,
    /// The line that tells that their files aren't there.
    unmade: &'static str,
}

/// Those of the depot.
pub const DEPOT: Folders = Folders {
    journal: "depot.journal",
    archive: "depot.archive",
    unmade: UNMADE,
};

/// Those of a node that follows it.
pub const NODE: Folders = Folders {
    journal: "node.journal",
    archive: "node.archive",
    unmade: NODE_UNMADE,
};

/// A disk that may tell why it failed.
pub trait Telling {
    /// Why the first call failed that did.
    fn first_error(&self) -> Option<&io::Error>;
}

impl<R: Files<File = File>> Telling for FolderDisk<'_, R> {
    fn first_error(&self) -> Option<&io::Error> {
        FolderDisk::first_error(self)
    }
}

impl Telling for MemoryDisk {
    fn first_error(&self) -> Option<&io::Error> {
        None
    }
}

/// Writes a line to standard error. Where that fails there is nobody to tell.
pub fn say(rt: &impl Eprint, line: &str) {
    let _ = rt.eprintln(line);
}

/// Tells why the machine couldn't do something, where it couldn't.
fn tell_failed(
    rt: &impl Eprint,
    alloc: Global,
    what: &str,
    error: Option<&io::Error>,
) -> Result<(), AllocError> {
    if let Some(error) = error {
        let why = error.to_string(alloc)?;
        say(rt, failed_line(alloc, what, &why)?.as_str());
    }
    Ok(())
}

/// Tells why a disk failed, where it did.
fn tell_disk(
    rt: &impl Eprint,
    alloc: Global,
    folder: &str,
    error: Option<&io::Error>,
) -> Result<(), AllocError> {
    match error {
        Some(error) if error.kind() == ErrorKind::WouldBlock => {
            say(rt, failed_line(alloc, folder, HELD)?.as_str());
            Ok(())
        }
        _ => tell_failed(rt, alloc, folder, error),
    }
}

/// The file to which the replies of a name go.
fn replies_of(alloc: Global, name: &str) -> Result<String, AllocError> {
    format!(in alloc; "{name}.out")
}

/// Tells why a door failed.
fn tell_door(rt: &impl Eprint, alloc: Global, fault: &DoorFault<'_>) -> Result<(), AllocError> {
    match fault.file {
        PartyFile::Script => tell_failed(rt, alloc, fault.name, Some(&fault.error)),
        PartyFile::Replies => {
            let replies = replies_of(alloc, fault.name)?;
            tell_failed(rt, alloc, &replies, Some(&fault.error))
        }
    }
}

/// Tells why a party ended before the end of its script.
fn tell_party<R: Files<File = File> + Eprint>(
    rt: &R,
    alloc: Global,
    name: &str,
    source: &FileSource,
    party: &PartyEnd<FileSink>,
) -> Result<(), AllocError> {
    match party.end {
        PartyCause::Whole => Ok(()),
        PartyCause::Script(fault) => {
            let line = line_of(rt, name, fault.place);
            let text = script_line(alloc, name, line, fault.what, fault.place)?;
            say(rt, text.as_str());
            Ok(())
        }
        PartyCause::ReadFault => tell_failed(rt, alloc, name, source.first_error()),
        PartyCause::WriteFault => {
            let replies = replies_of(alloc, name)?;
            tell_failed(rt, alloc, &replies, party.sink.first_error())
        }
    }
}

/// Tells how the parties ended that weren't run to the end of their scripts.
fn tell_parties<R: Files<File = File> + Eprint>(
    rt: &R,
    alloc: Global,
    names: &[&str],
    sources: &[FileSource],
    parties: &[PartyEnd<FileSink>],
) -> Result<(), AllocError> {
    for (name, (source, party)) in names.iter().zip(sources.iter().zip(parties)) {
        tell_party(rt, alloc, name, source, party)?;
    }
    Ok(())
}

/// Tells where a file of a disk is damaged.
fn tell_damage(
    rt: &impl Eprint,
    alloc: Global,
    folders: Folders,
    disk: DepotDisk,
    file: u32,
    place: u64,
) -> Result<(), AllocError> {
    let folder = match disk {
        DepotDisk::Journal => folders.journal,
        DepotDisk::Archive => folders.archive,
    };
    say(rt, damaged_line(alloc, folder, file, place)?.as_str());
    Ok(())
}

/// Tells why disks failed, where they did.
fn tell_disks<D: Telling>(
    rt: &impl Eprint,
    alloc: Global,
    folders: Folders,
    journal: &D,
    archive: &D,
) -> Result<(), AllocError> {
    tell_disk(rt, alloc, folders.journal, journal.first_error())?;
    tell_disk(rt, alloc, folders.archive, archive.first_error())
}

/// Tells why standard output failed, where it did.
fn tell_output(rt: &impl Eprint, alloc: Global, out: &FileSink) -> Result<(), AllocError> {
    tell_failed(rt, alloc, "standard output", out.first_error())
}

/// Tells what the words may be.
fn tell_usage(rt: &impl Eprint, alloc: Global) -> Result<(), AllocError> {
    say(rt, usage(alloc)?.trim_end());
    say(rt, CHAIN_USAGE);
    Ok(())
}

/// Tells what of the outside failed, and what is wrong with scripts.
fn tell_outside<R: Files<File = File> + Eprint, D: Telling>(
    rt: &R,
    alloc: Global,
    folders: Folders,
    names: &[&str],
    doors: &FolderDoors<'_, R>,
    out: &FileSink,
    ended: &Ended<D, FileSource, FileSink>,
) -> Result<(), AllocError> {
    tell_disks(rt, alloc, folders, &ended.journal, &ended.archive)?;
    if let Some(fault) = doors.first_fault() {
        tell_door(rt, alloc, fault)?;
    }
    let sources = ended.sources.as_slice();
    tell_parties(rt, alloc, names, sources, ended.parties.as_slice())?;
    tell_output(rt, alloc, out)
}

/// Tells why a run over the disks of these folders ends, where not all is done.
fn tell_end<R: Files<File = File> + Eprint, D: Telling>(
    rt: &R,
    alloc: Global,
    folders: Folders,
    names: &[&str],
    doors: &FolderDoors<'_, R>,
    out: &FileSink,
    ended: &Ended<D, FileSource, FileSink>,
) -> Result<(), AllocError> {
    match ended.cause {
        Cause::Done => {}
        Cause::Usage => tell_usage(rt, alloc)?,
        Cause::Made => say(rt, MADE),
        Cause::Unmade => say(rt, folders.unmade),
        Cause::Damaged { disk, file, place } => {
            tell_damage(rt, alloc, folders, disk, file, place)?;
        }
        Cause::Script | Cause::Fault => {
            tell_outside(rt, alloc, folders, names, doors, out, ended)?;
        }
        Cause::Memory => say(rt, MEMORY),
    }
    Ok(())
}

/// Tells why the files of these folders weren't opened, where that says something of them.
fn tell_shut(
    rt: &impl Eprint,
    alloc: Global,
    folders: Folders,
    fault: OpenFault,
) -> Result<(), AllocError> {
    match fault {
        OpenFault::Damaged { disk, file, place } => {
            tell_damage(rt, alloc, folders, disk, file, place)?;
        }
        OpenFault::Unmade => say(rt, folders.unmade),
        OpenFault::DiskFault | OpenFault::Memory => {}
    }
    Ok(())
}

/// Tells why a following ends, where not all is done.
fn tell_followed<D: Telling>(
    rt: &impl Eprint,
    alloc: Global,
    out: &FileSink,
    ended: &ChainEnded<D>,
) -> Result<(), AllocError> {
    match ended.cause {
        ChainCause::Done => {}
        ChainCause::Usage => tell_usage(rt, alloc)?,
        ChainCause::Shut(fault) => tell_shut(rt, alloc, DEPOT, fault)?,
        ChainCause::NodeShut(fault) => tell_shut(rt, alloc, NODE, fault)?,
        ChainCause::Apart(there) => {
            let line = apart_line(alloc, there.generation, there.place)?;
            say(rt, line.as_str());
        }
        ChainCause::Bad(place) => say(rt, bad_place_line(alloc, place)?.as_str()),
        ChainCause::Incomplete => say(rt, INCOMPLETE),
        ChainCause::Fault => {
            tell_disks(rt, alloc, DEPOT, &ended.up.journal, &ended.up.archive)?;
            tell_disks(rt, alloc, NODE, &ended.node.journal, &ended.node.archive)?;
            tell_output(rt, alloc, out)?;
        }
        ChainCause::Memory => say(rt, MEMORY),
    }
    Ok(())
}

/// Tells why the program ends, where not all is done.
pub fn tell_whole<R: Files<File = File> + Eprint, D: Telling>(
    rt: &R,
    alloc: Global,
    names: &[&str],
    doors: &FolderDoors<'_, R>,
    out: &FileSink,
    ended: &WholeEnded<D, FileSource, FileSink>,
) -> Result<(), AllocError> {
    match ended {
        WholeEnded::Depot { ended, .. } => tell_end(rt, alloc, DEPOT, names, doors, out, ended),
        WholeEnded::Node { ended, .. } => tell_end(rt, alloc, NODE, names, doors, out, ended),
        WholeEnded::Followed { ended } => tell_followed(rt, alloc, out, ended),
    }
}
