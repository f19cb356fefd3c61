//! Regular files, which are all that a run writes.

use std::fs::{File, Metadata, OpenOptions};
use std::io::ErrorKind;
use std::os::unix::fs::MetadataExt;
use std::rt::Files;
use std::{fs, io};

/// What was found at a path, where something stands there.
pub(crate) fn found<T: Drop>(answer: io::Result<T>) -> io::Result<Option<T>> {
    match answer {
        Ok(found) => Ok(Some(found)),
        Err(error) if error.kind() == ErrorKind::NotFound => Ok(None),
        Err(error) => Err(error),
    }
}

/// Whether it is a regular file to which no other name leads.
fn is_alone(file: &Metadata) -> bool {
    file.is_file() && file.nlink() <= 1
}

/// Opens a file to write it, where something stands at the path: a regular file that is no link and has no other name.
/// Else, and where it is exchanged meanwhile, the error is the refusal, and nothing was written.
pub(crate) fn open_alone<R: Files<File = File>>(
    rt: &R,
    path: &str,
    refusal: &'static str,
) -> io::Result<Option<File>> {
    let Some(seen) = found(fs::symlink_metadata(rt, path))? else {
        return Ok(None);
    };
    if is_alone(&seen) {
        let mut how = OpenOptions::new();
        // Asked for reading too, a pipe that stands there by now is opened without waiting for its other end.
        how.read(true);
        how.write(true);
        let file = how.open(rt, path)?;
        let opened = file.metadata()?;
        if is_alone(&opened) && opened.dev() == seen.dev() && opened.ino() == seen.ino() {
            return Ok(Some(file));
        }
    }
    Err(io::Error::new(ErrorKind::InvalidInput, refusal))
}

/// Makes a file, where nothing stands at the path, nor a link.
pub(crate) fn make<R: Files<File = File>>(rt: &R, path: &str) -> io::Result<File> {
    let mut how = OpenOptions::new();
    how.read(true);
    how.write(true);
    how.create_new(true);
    how.open(rt, path)
}
