//! Reading lines.

ghost use Rattle.std.specs.Prelude.{◌≡◌, ◌≤◌, ℕ, List, ◌+◌, ◌++◌, length, IfOk, OnOk};
ghost use Rattle.wire_text.specs.Intake.{TakesLine, LineCase};

use crate::intake::{Intake, Stop};
use crate::parts::cut_at;
use outside_api::Source;
use std::alloc::{AllocError, Global};

/// The most bytes of a line.
pub const MAX_LINE: usize = 8_192;

/// What comes where a line is wanted.
#[derive(Drop)]
pub(crate) enum LineRead {
    /// A line, without its line feed.
    Line(Vec<u8>),
    /// A line that has too many bytes.
    TooLong,
    /// No further byte, before a line feed.
    Stopped(Stop),
}

/// Moves the bytes that are held up to the next line feed to the end of a line, and answers whether there was one.
fn move_line(intake: &mut Intake, line: &mut Vec<u8>) -> Result<bool, AllocError>
    ensures line { IfOk result (λ is_whole. (piece : List ℕ) × (line.new.items ≡ line.old.items ++ piece) ×
        TakesLine intake.old intake.new piece is_whole) }
    ensures most { OnOk result (intake.new.place + length intake.new.held ≤ 67108864) }
{
    let held = intake.held();
    match cut_at(b'\n', held) {
        Some((piece, _)) => {
            line.extend_from_slice(piece)?;
            let count = piece.len() + 1;
            intake.pass(count);
            Ok(true)
        }
        None => {
            line.extend_from_slice(held)?;
            let count = held.len();
            intake.pass(count);
            Ok(false)
        }
    }
}

/// Reads a line.
pub(crate) fn read_line<S: Source>(
    alloc: Global,
    source: &mut S,
    intake: &mut Intake,
) -> Result<LineRead, AllocError>
    requires { intake.old.place + length intake.old.held ≤ 67108864 }
    ensures line { IfOk result (LineCase (S.says.left source.old) (S.says.left source.new) (S.says.faults source.old) (S.says.faults source.new) intake.old intake.new) }
    ensures counts { S.says.faults source.old ≤ S.says.faults source.new }
{
    let mut line = Vec::new(alloc);
    loop {
        let is_whole = move_line(intake, &mut line)?;
        if line.len() > MAX_LINE {
            return Ok(LineRead::TooLong);
        }
        if is_whole {
            return Ok(LineRead::Line(line));
        }
        if let Some(stop) = intake.refill(source) {
            return Ok(LineRead::Stopped(stop));
        }
    }
}
