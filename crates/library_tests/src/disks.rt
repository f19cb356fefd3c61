//! Disks in folders, step by step. The tests say the steps as data: a function that owns a disk, and each call in it,
//! is dear to prove.

use crate::machine::{is_cleared, is_free, is_made};
use outside_api::{Disk, Failed};
use real_world::FolderDisk;
use std::fs::File;
use std::io::ErrorKind;
use std::rt::Files;

/// What is asked of a disk and how it is answered, or what is done meanwhile beside it.
#[derive(Clone, Copy)]
pub enum Step<'a> {
    /// A file has so many bytes.
    HasLength(u32, u64),
    /// A read of up to eight bytes from a place of a file on gives these.
    Reads(u32, u64, &'a [u8]),
    /// Bytes are written at a place of a file.
    Writes(u32, u64, &'a [u8]),
    /// A byte is written to each of ten files, which are more than a disk keeps handles of.
    WritesTen,
    /// A file is cut to a length.
    Cuts(u32, u64),
    /// A sync succeeds.
    Syncs,
    /// No byte is written to a file.
    FailsToWrite(u32),
    /// One of the ten files isn't written.
    FailsToWriteTen,
    /// A sync fails.
    FailsToSync,
    /// Another disk over this folder is refused.
    Refuses(&'a str),
    /// There is nothing at a path.
    IsFree(&'a str),
    /// A folder is made at a path.
    MakesFolder(&'a str),
    /// A folder is removed with all that is in it.
    Clears(&'a str),
}

/// Whether bytes are written at a place of a file.
fn writes<R: Files<File = File>>(
    disk: &mut FolderDisk<'_, R>,
    file: u32,
    at: u64,
    bytes: &[u8],
) -> bool {
    disk.write_at(file, at, bytes).is_ok()
}

/// Whether a read of up to eight bytes from a place of a file on gives these.
fn reads<R: Files<File = File>>(
    disk: &mut FolderDisk<'_, R>,
    file: u32,
    at: u64,
    bytes: &[u8],
) -> bool {
    let mut buffer = [0u8; 8];
    match disk.read(file, at, &mut buffer) {
        Ok(count) => &buffer[..count] == bytes,
        Err(_) => false,
    }
}

/// Whether a byte is written to each of ten files.
fn writes_ten<R: Files<File = File>>(disk: &mut FolderDisk<'_, R>) -> bool {
    for file in 10..20 {
        if !writes(disk, file, 0, b"x") {
            return false;
        }
    }
    true
}

/// Whether each call of a disk fails, since another has its folder.
pub fn is_refused(disk: &mut FolderDisk<'_, HostRuntime>) -> bool {
    let is_refused = disk.length(0) == Err(Failed)
        && disk.read(0, 0, &mut [0u8; 8]) == Err(Failed)
        && !writes(disk, 0, 0, b"x")
        && disk.cut(0, 0).is_err()
        && disk.sync().is_err();
    match disk.first_error() {
        Some(error) => is_refused && error.kind() == ErrorKind::WouldBlock,
        None => false,
    }
}

/// Whether a disk that is made over this folder is refused.
fn refuses(rt: &HostRuntime, folder: &str) -> bool {
    let Ok(mut disk) = FolderDisk::new(rt, rt.alloc(), folder) else {
        return false;
    };
    let is_refused = is_refused(&mut disk);
    drop(disk);
    is_refused
}

/// Whether a step is as it says.
fn is_so<R: Files<File = File>>(
    rt: &HostRuntime,
    disk: &mut FolderDisk<'_, R>,
    step: Step,
) -> bool {
    match step {
        Step::HasLength(file, length) => disk.length(file) == Ok(length),
        Step::Reads(file, at, bytes) => reads(disk, file, at, bytes),
        Step::Writes(file, at, bytes) => writes(disk, file, at, bytes),
        Step::WritesTen => writes_ten(disk),
        Step::Cuts(file, length) => disk.cut(file, length).is_ok(),
        Step::Syncs => disk.sync().is_ok(),
        Step::FailsToWrite(file) => !writes(disk, file, 0, b"x"),
        Step::FailsToWriteTen => !writes_ten(disk),
        Step::FailsToSync => disk.sync().is_err(),
        Step::Refuses(folder) => refuses(rt, folder),
        Step::IsFree(path) => is_free(rt, path),
        Step::MakesFolder(path) => is_made(rt, path),
        Step::Clears(path) => is_cleared(rt, path),
    }
}

/// Whether steps are as they say, one after another.
pub fn are_so<R: Files<File = File>>(
    rt: &HostRuntime,
    disk: &mut FolderDisk<'_, R>,
    steps: &[Step],
) -> bool {
    for step in steps {
        if !is_so(rt, disk, *step) {
            return false;
        }
    }
    true
}

/// Whether steps of a disk that is made over this folder of these files, and then dropped, are as they say.
pub fn plays_over<R: Files<File = File>>(
    rt: &HostRuntime,
    files: &R,
    folder: &str,
    steps: &[Step],
) -> bool {
    let Ok(mut disk) = FolderDisk::new(files, rt.alloc(), folder) else {
        return false;
    };
    let are_so = are_so(rt, &mut disk, steps);
    drop(disk);
    are_so
}

/// Whether steps of a disk that is made over this folder, and then dropped, are as they say.
pub fn plays(rt: &HostRuntime, folder: &str, steps: &[Step]) -> bool {
    plays_over(rt, rt, folder, steps)
}
