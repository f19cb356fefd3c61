//! Reading a whole script.

ghost use Rattle.std.specs.Prelude.{◌≡◌, ◌<◌, ◌≤◌, [], ◌++◌, length, None, Some, IfOk, OnOk, IsTrue};
ghost use Rattle.std.specs.List.{list_all};
ghost use Rattle.std.specs.Option.{option_to_list};
ghost use Rattle.wire_text.specs.Reading.{HeadCase, EntriesCase, IsReadScript, point_at, end_by, head_stopped};
ghost use Rattle.wire_text.specs.Script as spec;

use crate::entry::Entry;
use crate::fault::{ScriptFault, ScriptFaultKind};
use crate::head::{Head, read_head_line};
use crate::intake::{Intake, Stop};
use crate::lines::{LineRead, read_line};
use crate::part::{PartRead, read_part};
use depot_model::paths::{Name, Sequence};
use outside_api::Source;
use std::alloc::{AllocError, Global};

/// How a script ends.
#[derive(Clone, Copy, PartialEq, Eq)]
pub enum ScriptEnd {
    /// It was read to its end.
    Whole,
    /// It has a fault.
    Fault(ScriptFault),
    /// The source failed.
    ReadFault,
}

/// What was read of a script.
#[derive(Drop)]
pub struct ReadScript {
    /// Whom it speaks for, where it begins with a head.
    pub head: Option<Head>,
    /// What it says, up to its end.
    pub entries: Sequence<Entry>,
    /// How its reading ended.
    pub end: ScriptEnd,
}

/// What comes where a head is wanted.
#[derive(Drop)]
pub(crate) enum HeadRead {
    /// The head.
    Head(Head),
    /// The fault of a script that has none.
    Fault(ScriptFault),
    /// The source failed.
    Failed,
}

/// There is no head.
fn no_head(what: ScriptFaultKind, place: u64) -> HeadRead
    ensures { result ≡ HeadRead.Fault (spec.fault_at what place) }
{
    HeadRead::Fault(ScriptFault { what, place })
}

/// What it means that no further byte came before the head's end, where the bytes end at this place.
fn stopped(stop: Stop, end: u64) -> HeadRead
    ensures { result ≡ head_stopped stop end }
{
    match stop {
        Stop::End => no_head(ScriptFaultKind::Cut, end),
        Stop::Over => no_head(ScriptFaultKind::Cut, end),
        Stop::Failed => HeadRead::Failed,
    }
}

/// Reads the head of a script.
pub(crate) fn read_head<S: Source>(
    alloc: Global,
    source: &mut S,
    intake: &mut Intake,
) -> Result<HeadRead, AllocError>
    requires { intake.old ≡ record { held = []; place = 0 } }
    ensures head { IfOk result (HeadCase (S.says.left source.old) (S.says.left source.new) (S.says.faults source.old) (S.says.faults source.new) intake.new) }
    ensures counts { S.says.faults source.old ≤ S.says.faults source.new }
{
    match read_line(alloc, source, intake)? {
        LineRead::Line(line) => match read_head_line(alloc, &line)? {
            Some(head) => Ok(HeadRead::Head(head)),
            None => Ok(no_head(ScriptFaultKind::BadHead, 0)),
        },
        LineRead::TooLong => Ok(no_head(ScriptFaultKind::LongLine, 0)),
        LineRead::Stopped(stop) => Ok(stopped(stop, intake.place())),
    }
}

/// The number of the command after an entry.
pub(crate) fn number_after(number: u32, entry: &Entry) -> u32
    requires { number ≤ 67108864 }
    ensures { result ≡ spec.number_after number (Some entry.now) }
{
    match entry {
        Entry::Command(_) => number + 1,
        Entry::Put(_) | Entry::Clear(_) => number,
    }
}

/// Adds an entry, if there is one, and answers the number of the next command.
fn keep(entries: &mut Sequence<Entry>, number: u32, entry: Option<Entry>) -> Result<u32, AllocError>
    requires { number ≤ 67108864 }
    ensures entries { OnOk result (entries.new ≡ entries.old ++ option_to_list entry) }
    ensures number { IfOk result (λ next. next ≡ spec.number_after number entry) }
{
    match entry {
        Some(entry) => {
            let next = number_after(number, &entry);
            entries.push(entry)?;
            Ok(next)
        }
        None => Ok(number),
    }
}

/// How a script ends that has this fault, if it has one.
fn end_of(fault: Option<ScriptFault>) -> ScriptEnd
    ensures { result ≡ end_by fault }
{
    match fault {
        Some(fault) => ScriptEnd::Fault(fault),
        None => ScriptEnd::Whole,
    }
}

/// Reads what a script says behind its head.
fn read_entries<S: Source>(
    alloc: Global,
    source: &mut S,
    intake: &mut Intake,
    client: &Name,
) -> Result<(Sequence<Entry>, ScriptEnd), AllocError>
    requires some { 0 < intake.old.place }
    requires most { intake.old.place ≤ 67108864 }
    ensures read { IfOk result (λ read. EntriesCase (S.says.left source.old) (S.says.left source.new) (S.says.faults source.old) (S.says.faults source.new) intake.old.held (point_at client.now intake.old.place 1 None) read.0 read.1) }
    ensures few { IfOk result (λ read. length read.0 < 67108864) }
    ensures short { IfOk result (λ read. IsTrue (list_all spec.has_short_content read.0)) }
    ensures counts { S.says.faults source.old ≤ S.says.faults source.new }
{
    let mut entries = Sequence::new(alloc);
    let mut number = 1;
    let mut input = None;
    loop {
        match read_part(alloc, source, intake, client, number, &mut input)? {
            PartRead::Read(entry) => number = keep(&mut entries, number, entry)?,
            PartRead::Ended(fault) => return Ok((entries, end_of(fault))),
            PartRead::Failed => return Ok((entries, ScriptEnd::ReadFault)),
        }
    }
}

/// A script that has no head.
fn without_head(alloc: Global, end: ScriptEnd) -> ReadScript
    ensures { result ≡ record { head = None; entries = []; end = end } }
{
    ReadScript {
        head: None,
        entries: Sequence::new(alloc),
        end,
    }
}

/// Reads a whole script.
pub fn read_script<S: Source>(alloc: Global, source: &mut S) -> Result<ReadScript, AllocError>
    ensures read { IfOk result (IsReadScript (S.says.left source.old) (S.says.left source.new) (S.says.faults source.old) (S.says.faults source.new)) }
    ensures few { IfOk result (λ read. length read.entries < 67108864) }
    ensures short { IfOk result (λ read. IsTrue (list_all spec.has_short_content read.entries)) }
    ensures counts { S.says.faults source.old ≤ S.says.faults source.new }
{
    let mut intake = Intake::new(alloc)?;
    match read_head(alloc, source, &mut intake)? {
        HeadRead::Failed => Ok(without_head(alloc, ScriptEnd::ReadFault)),
        HeadRead::Fault(fault) => Ok(without_head(alloc, ScriptEnd::Fault(fault))),
        HeadRead::Head(head) => {
            let (entries, end) = read_entries(alloc, source, &mut intake, head.client())?;
            Ok(ReadScript {
                head: Some(head),
                entries,
                end,
            })
        }
    }
}
