//! Calls of the machine that a signal may interrupt, and that are asked again then.

ghost use Rattle.std.specs.Prelude.{◌≤◌, IfOk, length};

use std::fs::File;
use std::io;
use std::io::{ErrorKind, Read, Write};
use std::os::unix::fs::FileExt;

/// Whether a signal interrupted the call that answered so.
fn is_interrupted(answer: &io::Result<usize>) -> bool {
    match answer {
        Ok(_) => false,
        Err(error) => error.kind() == ErrorKind::Interrupted,
    }
}

/// Reads bytes of a file from a place on.
pub(crate) fn read_at(file: &File, buffer: &mut [u8], at: u64) -> io::Result<usize>
    ensures { IfOk result (λ n. n ≤ length buffer.new) }
{
    for _ in 0..u64::MAX {
        let answer = file.read_at(buffer, at);
        if !is_interrupted(&answer) {
            return answer;
        }
    }
    Err(io::Error::from(ErrorKind::Interrupted))
}

/// Reads the next bytes of a file.
pub(crate) fn read(file: &mut File, buffer: &mut [u8]) -> io::Result<usize>
    ensures { IfOk result (λ n. n ≤ length buffer.new) }
{
    for _ in 0..u64::MAX {
        let answer = file.read(buffer);
        if !is_interrupted(&answer) {
            return answer;
        }
    }
    Err(io::Error::from(ErrorKind::Interrupted))
}

/// Writes the front of a piece, and answers how many bytes: at least 1 of a piece that isn't empty.
pub(crate) fn write<W: Write>(target: &mut W, piece: &[u8]) -> io::Result<usize>
    ensures fits { IfOk result (λ n. n ≤ length piece.now) }
{
    for _ in 0..u64::MAX {
        let answer = target.write(piece);
        if !is_interrupted(&answer) {
            return answer;
        }
    }
    Err(io::Error::from(ErrorKind::Interrupted))
}
