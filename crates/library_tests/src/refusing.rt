//! Files of the machine, one of which refuses each sync.

use std::alloc::Allocator;
use std::fs::{File, Metadata, OpenOptions};
use std::io;
use std::rt::Files;

/// A regular file of the system that takes digits and refuses a sync. Not every machine has it.
const REFUSING: &str = "/proc/self/coredump_filter";

/// Whether the machine has a file that takes what is written and refuses a sync.
pub fn has_refusing(rt: &HostRuntime) -> bool {
    match File::options().write(true).open(rt, REFUSING) {
        Ok(file) => {
            let is_refused = file.sync_all().is_err();
            drop(file);
            is_refused
        }
        Err(error) => {
            drop(error);
            false
        }
    }
}

/// The files of the machine, where at one path there is a file that takes digits and refuses each sync, so that it
/// tells whether a sync comes to it.
#[derive(Drop)]
pub struct OneRefusing<'a, R> {
    files: &'a R,
    path: &'a str,
}

impl<'a, R> OneRefusing<'a, R> {
    /// These files, where the file of this path refuses each sync.
    pub fn new(files: &'a R, path: &'a str) -> Self {
        OneRefusing { files, path }
    }

    /// Where the file of a path is.
    fn place<'p>(&self, path: &'p str) -> &'p str {
        if path == self.path { REFUSING } else { path }
    }
}

impl<R: Files> Files for OneRefusing<'_, R> {
    type File = R::File;

    type Dir = R::Dir;

    fn open_file(&self, how: &OpenOptions, path: &str) -> io::Result<R::File> {
        self.files.open_file(how, self.place(path))
    }

    fn open_dir(&self, path: &str) -> io::Result<R::Dir> {
        self.files.open_dir(path)
    }

    fn metadata(&self, path: &str) -> io::Result<Metadata> {
        self.files.metadata(self.place(path))
    }

    fn symlink_metadata(&self, path: &str) -> io::Result<Metadata> {
        self.files.symlink_metadata(self.place(path))
    }

    fn copy(&self, from: &str, to: &str) -> io::Result<u64> {
        self.files.copy(from, to)
    }

    fn rename(&self, from: &str, to: &str) -> io::Result<()> {
        self.files.rename(from, to)
    }

    fn remove_file(&self, path: &str) -> io::Result<()> {
        self.files.remove_file(path)
    }

    fn create_dir(&self, path: &str) -> io::Result<()> {
        self.files.create_dir(path)
    }

    fn remove_dir(&self, path: &str) -> io::Result<()> {
        self.files.remove_dir(path)
    }

    fn remove_dir_all<B: Allocator>(&self, alloc: B, path: &str) -> io::Result<()> {
        self.files.remove_dir_all(alloc, path)
    }
}
