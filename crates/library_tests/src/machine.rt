//! Files and folders of the machine, as the tests make, read and remove them.

use std::fs;
use std::os::unix::fs::symlink;

/// Whether a file of the machine has this text.
pub fn has_text(rt: &HostRuntime, path: &str, text: &str) -> bool {
    match fs::read_to_string(rt, path) {
        Ok(found) => found.as_str() == text,
        Err(error) => {
            drop(error);
            false
        }
    }
}

/// Whether there is no file and no folder of the machine at a path.
pub fn is_free(rt: &HostRuntime, path: &str) -> bool {
    fs::metadata(rt, path).is_err()
}

/// Whether a file of this text is written.
pub fn is_written(rt: &HostRuntime, path: &str, text: &str) -> bool {
    fs::write(rt, path, text).is_ok()
}

/// Whether a folder is made.
pub fn is_made(rt: &HostRuntime, path: &str) -> bool {
    fs::create_dir(rt, path).is_ok()
}

/// Whether a path is made to lead to another.
pub fn is_linked(rt: &HostRuntime, path: &str, to: &str) -> bool {
    symlink(rt, to, path).is_ok()
}

/// Whether a file is given a second name.
pub fn is_named(rt: &HostRuntime, file: &str, name: &str) -> bool {
    fs::hard_link(rt, file, name).is_ok()
}

/// Whether a file, or a link, is removed.
pub fn is_removed(rt: &HostRuntime, path: &str) -> bool {
    fs::remove_file(rt, path).is_ok()
}

/// Whether an empty folder is removed.
pub fn is_unmade(rt: &HostRuntime, path: &str) -> bool {
    fs::remove_dir(rt, path).is_ok()
}

/// Whether a folder is removed with all that is in it.
pub fn is_cleared(rt: &HostRuntime, path: &str) -> bool {
    fs::remove_dir_all(rt, path).is_ok()
}
