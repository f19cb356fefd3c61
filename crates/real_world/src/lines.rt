//! The lines of a file.

use crate::interrupts::read;
use std::fs;
use std::fs::File;
use std::rt::Files;

/// How many bytes are read at a time.
const PIECE: usize = 4_096;

/// How many line ends there are.
fn line_ends(bytes: &[u8]) -> u64 {
    bytes.iter().filter(|byte| **byte == b'\n').count() as u64
}

/// In which line of a file the byte at a place stands, where the file can be read once more. Places count from 0, and
/// lines from 1. A place behind the file's end is in its last line.
pub fn line_of<R: Files<File = File>>(rt: &R, path: &str, place: u64) -> Option<u64> {
    if !fs::metadata(rt, path).ok()?.is_file() {
        return None;
    }
    let mut file = File::open(rt, path).ok()?;
    let mut piece = [0u8; PIECE];
    let mut line: u64 = 1;
    let mut left = place;
    for _ in 0..u64::MAX {
        let count = read(&mut file, &mut piece).ok()?;
        let before = left.min(count as u64) as usize;
        line = line.saturating_add(line_ends(&piece[..before]));
        left -= before as u64;
        if count == 0 || left == 0 {
            break;
        }
    }
    Some(line)
}
