//! Numbered files in a folder.

ghost use Rattle.std.specs.Prelude.{◌≡◌, ◌<◌, length, Ok, IfOk, OnOk};
ghost use Rattle.outside_api.specs.Count.{HasCause};

use crate::count::Faults;
use crate::folder::Folder;
use outside_api::{Disk, Failed};
use std::alloc::{AllocError, Global};
use std::fs::File;
use std::io;
use std::io::ErrorKind;
use std::rt::Files;

/// The files of a folder, each of which is named by its number in decimal, for one program at a time. A file that isn't
/// there has no bytes, and neither the folder nor a file is made before something is written. The folder may be a link
/// to one, and so may a file that is read. What is no regular file isn't opened, and a file that is a link or has a
/// second name isn't written: the call fails. It doesn't tell what the files hold. Once it is made its calls take no
/// memory.
///
/// Before the first other call it takes the advisory lock of the folder (`flock`, exclusive), and keeps it until it
/// ends, also by a kill. While another program has the lock each call fails, and nothing is made, read or written.
///
/// A sync brings to the device what was written since the last one, and where a file was made, the names of files and
/// of the folder. The first sync brings there what an earlier run may have left: the root, which is file 0, and the
/// files of the generation that it tells and of the next.
#[derive(Drop)]
pub struct FolderDisk<'a, R: Files<File = File>> {
    folder: Folder<'a, R>,
    faults: Faults<io::Error>,
    /// How many calls it was asked; the count stays at its last value.
    calls: u64,
}

/// The most bytes of a file.
const MOST: u64 = 9_223_372_036_854_775_807;

impl<'a, R: Files<File = File>> FolderDisk<'a, R> {
    /// The files of the folder of this path. Makes no call of the machine.
    pub fn new(rt: &'a R, alloc: Global, path: &str) -> Result<Self, AllocError>
        ensures { IfOk result (λ disk. disk.faults.count ≡ 0) }
    {
        Ok(FolderDisk {
            folder: Folder::new(rt, alloc, path)?,
            faults: Faults::none(),
            calls: 0,
        })
    }

    /// Why the first call failed that did, in the machine's words: `WouldBlock` where another program has the folder's
    /// lock.
    pub fn first_error(&self) -> Option<&io::Error> {
        self.faults.first.as_ref()
    }
}

/// An answer of the machine, whose error is counted.
fn counted<T: Drop>(faults: &mut Faults<io::Error>, answer: io::Result<T>) -> Result<T, Failed>
    ensures value { IfOk result (λ value. answer ≡ Ok value) }
    ensures only { OnOk result (faults.new.count ≡ faults.old.count) }
    ensures cause { HasCause faults.old.count faults.new.count result }
{
    match answer {
        Ok(value) => Ok(value),
        Err(error) => {
            faults.rise(error);
            Err(Failed)
        }
    }
}

impl<R: Files<File = File>> Disk for FolderDisk<'_, R> {
    ghost use Rattle.real_world.specs.Untold.{no_files};

    ghost says = { record {
      seen = λ disk. no_files;
      may_leave = λ disk. no_files;
      moment = λ disk. 0;
      left_since = λ disk t. no_files;
      faults = λ disk. disk.faults.count;
      calls = λ disk. disk.calls;
    } };

    ghost reads_an_image = { λ disk c seen. absurd seen };

    ghost reads_one = { λ disk c d seen other file. absurd seen };

    ghost within = { λ disk c file seen. absurd seen };

    ghost counts_now = { λ disk t c le may. absurd may };

    ghost only_now = { λ disk c left. absurd left };

    fn length(&mut self, file: u32) -> Result<u64, Failed> {
        self.calls = self.calls.saturating_add(1);
        let length = counted(&mut self.faults, self.folder.length(file))?;
        if length > MOST {
            self.faults.rise(io::Error::from(ErrorKind::FileTooLarge));
            return Err(Failed);
        }
        Ok(length)
    }

    fn read(&mut self, file: u32, at: u64, buffer: &mut [u8]) -> Result<usize, Failed> {
        self.calls = self.calls.saturating_add(1);
        let count = self.folder.read(file, at, buffer);
        counted(&mut self.faults, count)
    }

    fn write_at(&mut self, file: u32, at: u64, piece: &[u8]) -> Result<(), Failed> {
        self.calls = self.calls.saturating_add(1);
        if at > MOST || piece.len() as u64 > MOST - at {
            self.faults.rise(io::Error::from(ErrorKind::FileTooLarge));
            return Err(Failed);
        }
        let written = self.folder.write_at(file, at, piece);
        counted(&mut self.faults, written)
    }

    fn cut(&mut self, file: u32, length: u64) -> Result<(), Failed> {
        self.calls = self.calls.saturating_add(1);
        let cut = self.folder.cut(file, length);
        counted(&mut self.faults, cut)
    }

    fn sync(&mut self) -> Result<(), Failed> {
        self.calls = self.calls.saturating_add(1);
        let synced = self.folder.sync();
        counted(&mut self.faults, synced)
    }
}
