//! The paths of numbered files.

use itoa::Buffer;
use std::alloc::{AllocError, Global};

/// The path of a folder, with room for that of a file in it, so that a file is named without taking memory.
#[derive(Drop)]
pub(crate) struct Paths {
    folder: String,
    room: String,
}

impl Paths {
    /// The paths of this folder and its files.
    pub fn new(alloc: Global, folder: &str) -> Result<Self, AllocError> {
        let mut paths = Paths {
            folder: String::from_str(alloc, folder)?,
            room: String::new(alloc),
        };
        let _longest = paths.file(u32::MAX)?;
        Ok(paths)
    }

    /// The folder.
    pub fn folder(&self) -> &str {
        self.folder.as_str()
    }

    /// The folder that the folder stands in.
    pub fn parent(&mut self) -> Result<&str, AllocError> {
        self.below("..")
    }

    /// The file of this number, in decimal.
    pub fn file(&mut self, number: u32) -> Result<&str, AllocError> {
        self.below(Buffer::new().format(number))
    }

    fn below(&mut self, name: &str) -> Result<&str, AllocError> {
        self.room.clear();
        self.room.push_str(self.folder.as_str())?;
        self.room.push_str("/")?;
        self.room.push_str(name)?;
        Ok(self.room.as_str())
    }
}
