//! Reading a script part by part: a line with the block that belongs to it.

ghost use Rattle.std.specs.Prelude.{◌≡◌, ◌≤◌, ◌+◌, ◌-◌, ◌∷◌, [], ◌++◌, length, Some, None, IfOk, OnOk};
ghost use Rattle.wire_text.specs.Parts.{IsFree};
ghost use Rattle.wire_text.specs.Reading.{PartCase, point_at, stopped_of};
ghost use Rattle.wire_text.specs.Script.{fault_at};
ghost use Rattle.wire_text.specs.Words.{line_of};

use crate::blocks::{BlockRead, read_block};
use crate::entry::{Entry, Item};
use crate::fault::{ScriptFault, ScriptFaultKind};
use crate::intake::{Intake, MAX_SCRIPT, Stop};
use crate::line_kind::{LineKind, line_kind};
use crate::lines::{LineRead, read_line};
use crate::words::read_words;
use depot_model::Content;
use depot_model::paths::{Name, Text};
use outside_api::Source;
use std::alloc::{AllocError, Global};

/// What comes where a part of a script is wanted.
#[derive(Drop)]
pub(crate) enum PartRead {
    /// A part, and what it says if it says something.
    Read(Option<Entry>),
    /// The script's end, or its first fault.
    Ended(Option<ScriptFault>),
    /// The source failed.
    Failed,
}

/// The end of a script at a fault.
fn fault(what: ScriptFaultKind, place: u64) -> PartRead
    ensures { result ≡ PartRead.Ended (Some (fault_at what place)) }
{
    PartRead::Ended(Some(ScriptFault { what, place }))
}

/// What it means that no further byte came, where a part begins at one place and the bytes end at the other.
fn stopped(stop: Stop, waits: bool, start: u64, end: u64) -> PartRead
    ensures { result ≡ stopped_of stop waits start end }
{
    match stop {
        Stop::End => {
            if start < end || waits {
                fault(ScriptFaultKind::Cut, end)
            } else {
                PartRead::Ended(None)
            }
        }
        Stop::Over => fault(ScriptFaultKind::LongData, MAX_SCRIPT),
        Stop::Failed => PartRead::Failed,
    }
}

/// The command of a line.
fn command(
    alloc: Global,
    number: u32,
    line: &[u8],
    input: &mut Option<Text>,
) -> Result<PartRead, AllocError>
    ensures command { IfOk result (λ read. read ≡ PartRead.Read (Some (Entry.Command (record { number = number; line = line_of line.now; input = input.old })))) }
    ensures input { OnOk result (input.new ≡ None) }
{
    let line = read_words(alloc, line)?;
    Ok(PartRead::Read(Some(Entry::Command(Item {
        number,
        line,
        input: input.take(),
    }))))
}

/// Reads the part of a line that was read: its block, where one belongs to it.
fn read_line_part<S: Source>(
    alloc: Global,
    source: &mut S,
    intake: &mut Intake,
    client: &Name,
    number: u32,
    input: &mut Option<Text>,
    line: &[u8],
) -> Result<PartRead, AllocError>
    requires free { IsFree 10 line.now }
    requires short { length line.now ≤ 8192 }
    requires start { length line.now + 1 ≤ intake.old.place }
    ensures part { IfOk result (PartCase (line.now ++ 10 ∷ []) (S.says.left source.old) (S.says.left source.new) (S.says.faults source.old) (S.says.faults source.new) intake.old intake.new (point_at client.now (intake.old.place - (length line.now + 1)) number input.old) input.new) }
    ensures counts { S.says.faults source.old ≤ S.says.faults source.new }
{
    let start = intake.place() - (line.len() as u64 + 1);
    match line_kind(alloc, client, input.is_some(), line)? {
        LineKind::Skipped => Ok(PartRead::Read(None)),
        LineKind::Bad => Ok(fault(ScriptFaultKind::BadData, start)),
        LineKind::LongBlock => Ok(fault(ScriptFaultKind::LongData, start)),
        LineKind::Clear(path) => Ok(PartRead::Read(Some(Entry::Clear(path)))),
        LineKind::CommandLine => {
            let read = command(alloc, number, line, input)?;
            Ok(read)
        }
        LineKind::Block(path, size) => match read_block(alloc, source, intake, size)? {
            BlockRead::Block(bytes) => Ok(PartRead::Read(Some(Entry::Put(Content {
                path,
                bytes,
            })))),
            BlockRead::Bad => Ok(fault(ScriptFaultKind::BadData, start)),
            BlockRead::Stopped(stop) => Ok(stopped(stop, input.is_some(), start, intake.place())),
        },
        LineKind::Input(size) => match read_block(alloc, source, intake, size)? {
            BlockRead::Block(bytes) => {
                *input = Some(bytes);
                Ok(PartRead::Read(None))
            }
            BlockRead::Bad => Ok(fault(ScriptFaultKind::BadData, start)),
            BlockRead::Stopped(stop) => Ok(stopped(stop, input.is_some(), start, intake.place())),
        },
    }
}

/// Reads a part. An input may wait for its command before and after it.
pub(crate) fn read_part<S: Source>(
    alloc: Global,
    source: &mut S,
    intake: &mut Intake,
    client: &Name,
    number: u32,
    input: &mut Option<Text>,
) -> Result<PartRead, AllocError>
    ensures part { IfOk result (PartCase [] (S.says.left source.old) (S.says.left source.new) (S.says.faults source.old) (S.says.faults source.new) intake.old intake.new (point_at client.now intake.old.place number input.old) input.new) }
    ensures counts { S.says.faults source.old ≤ S.says.faults source.new }
{
    let start = intake.place();
    match read_line(alloc, source, intake)? {
        LineRead::Line(line) => {
            let part = read_line_part(alloc, source, intake, client, number, input, &line)?;
            Ok(part)
        }
        LineRead::TooLong => Ok(fault(ScriptFaultKind::LongLine, start)),
        LineRead::Stopped(stop) => Ok(stopped(stop, input.is_some(), start, intake.place())),
    }
}
