//! The rows that deeds make.

ghost use Rattle.std.specs.Prelude.{◌≡◌, IfOk, option_map};
ghost use Rattle.std.specs.Option.{option_copied};
ghost use Rattle.depot_rows.specs.depot_model.Records as records;
ghost use Rattle.depot_rows.specs.Deed.{pending_of};
ghost use Rattle.depot_rows.specs.Effects as effects;
ghost use Rattle.row_changes.specs.Landing.{taken_in, given_to};
ghost use Rattle.row_changes.specs.Source.{source_path, source_rev, content_digest, content_length, content_place};

use crate::words::{action_word, how_word, into_word, printed_or_empty};
use depot_rows::paths::Text;
use depot_rows::records::{
    ChangeRecord, CounterRecord, IntegedRecord, Record, ResolveRecord, RevRecord, Spot,
    WorkingRecord,
};
use depot_rows::{Credit, Entry, Landing, Opening, Owing, Pending, Source, Stored};
use std::alloc::{AllocError, Global};

/// The path and the number of a source, no bytes and 0 where there is none. The one error is want of
/// memory.
fn source_fields(alloc: Global, source: Option<&Source>) -> Result<(Text, u32), AllocError>
    ensures { IfOk result (λ fields. (fields.0 ≡ source_path (option_copied source.entry)) ×
        (fields.1 ≡ source_rev (option_copied source.entry))) }
{
    match source {
        Some(source) => Ok((source.path.print(alloc)?, source.rev)),
        None => Ok((Text::new(alloc), 0)),
    }
}

/// The row of an opened file with this lock number. The one error is want of memory.
pub(crate) fn working_row(alloc: Global, opening: &Opening, lock: u32) -> Result<Record, AllocError>
    ensures { IfOk result (λ row. row ≡ effects.working_row lock opening.now) }
{
    let (source, source_rev) = source_fields(alloc, opening.source.as_ref())?;
    Ok(Record::Working(WorkingRecord {
        path: opening.path.print(alloc)?,
        client: Text::from_bytes(alloc, opening.client.as_bytes())?,
        base: opening.base,
        action: Text::from_bytes(alloc, action_word(opening.action))?,
        file_type: opening.file_type.clone()?,
        change: opening.change,
        lock,
        source,
        source_rev,
        moved: printed_or_empty(alloc, opening.moved.as_ref())?,
    }))
}

/// The row of a pending change. The one error is want of memory.
pub(crate) fn pending_row(alloc: Global, pending: &Pending) -> Result<Record, AllocError>
    ensures { IfOk result (λ row. row ≡ records.pending_record (pending_of pending.now)) }
{
    Ok(Record::Change(ChangeRecord {
        change: pending.change,
        status: Text::from_bytes(alloc, b"pending")?,
        user: Text::from_bytes(alloc, pending.user.as_bytes())?,
        client: Text::from_bytes(alloc, pending.client.as_bytes())?,
        moment: pending.moment,
        text: pending.text.clone()?,
    }))
}

/// The row of a submitted change. The one error is want of memory.
pub(crate) fn change_row(alloc: Global, landing: &Landing) -> Result<Record, AllocError>
    ensures { IfOk result (λ row. row ≡ effects.change_row landing.now) }
{
    Ok(Record::Change(ChangeRecord {
        change: landing.change,
        status: Text::from_bytes(alloc, b"submitted")?,
        user: Text::from_bytes(alloc, landing.user.as_bytes())?,
        client: Text::from_bytes(alloc, landing.client.as_bytes())?,
        moment: landing.moment,
        text: landing.text.clone()?,
    }))
}

/// The digest of a content, no bytes where there is none. The one error is want of memory.
fn digest_of(alloc: Global, content: Option<&Stored>) -> Result<Text, AllocError>
    ensures { IfOk result (λ digest. digest ≡ content_digest (option_copied content.entry)) }
{
    match content {
        Some(stored) => Ok(stored.digest.clone()?),
        None => Ok(Text::new(alloc)),
    }
}

/// Where a content stands, its length and place, each 0 where there is none.
fn spot_of(content: Option<&Stored>) -> Spot
    ensures length { result.length ≡ content_length (option_copied content.entry) }
    ensures place { result.at ≡ content_place (option_copied content.entry) }
{
    match content {
        Some(stored) => stored.spot,
        None => Spot { at: 0, length: 0 },
    }
}

/// The row of a revision that a change submitted. The one error is want of memory.
pub(crate) fn rev_row(alloc: Global, change: u32, entry: &Entry) -> Result<Record, AllocError>
    ensures { IfOk result (λ row. row ≡ effects.rev_row change entry.now) }
{
    let digest = digest_of(alloc, entry.content.as_ref())?;
    let spot = spot_of(entry.content.as_ref());
    Ok(Record::Rev(RevRecord {
        path: entry.path.print(alloc)?,
        rev: entry.rev,
        change,
        action: Text::from_bytes(alloc, action_word(entry.action))?,
        file_type: entry.file_type.clone()?,
        digest,
        length: spot.length,
        at: spot.at,
        moved: printed_or_empty(alloc, entry.moved.as_ref())?,
    }))
}

/// The row of what a revision takes in from another file. The one error is want of memory.
pub(crate) fn taken_row(
    alloc: Global,
    change: u32,
    entry: &Entry,
    credit: &Credit,
) -> Result<Record, AllocError>
    ensures { IfOk result (λ row. row ≡ Record.Integed (taken_in change entry.now credit.now)) }
{
    Ok(Record::Integed(IntegedRecord {
        to_file: entry.path.print(alloc)?,
        from_file: credit.from.print(alloc)?,
        start_from: credit.first,
        end_from: credit.last,
        start_to: entry.rev,
        end_to: entry.rev,
        how: Text::from_bytes(alloc, how_word(credit.how))?,
        change,
    }))
}

/// The row of what another file gives to a revision. The one error is want of memory.
pub(crate) fn given_row(
    alloc: Global,
    change: u32,
    entry: &Entry,
    credit: &Credit,
) -> Result<Record, AllocError>
    ensures { IfOk result (λ row. row ≡ Record.Integed (given_to change entry.now credit.now)) }
{
    Ok(Record::Integed(IntegedRecord {
        to_file: credit.from.print(alloc)?,
        from_file: entry.path.print(alloc)?,
        start_from: entry.rev,
        end_from: entry.rev,
        start_to: credit.first,
        end_to: credit.last,
        how: Text::from_bytes(alloc, into_word(credit.how))?,
        change,
    }))
}

/// The row of a resolve that is owed. The one error is want of memory.
pub(crate) fn owed_row(alloc: Global, owing: &Owing) -> Result<Record, AllocError>
    ensures { IfOk result (λ row. row ≡ effects.owed_row owing.now) }
{
    Ok(Record::Resolve(ResolveRecord {
        client: Text::from_bytes(alloc, owing.client.as_bytes())?,
        path: owing.path.print(alloc)?,
        from: owing.from.print(alloc)?,
        first: owing.first,
        last: owing.last,
        how: Text::new(alloc),
    }))
}

/// The row of a counter whose value is above 0, or none.
pub(crate) fn numbered_row(name: Text, value: u64) -> Option<Record>
    ensures { result ≡ records.numbered_record (effects.counter_row name) value }
{
    if value == 0 {
        None
    } else {
        Some(Record::Counter(CounterRecord { name, value }))
    }
}

/// The row with another lock number. The one error is want of memory.
fn with_lock(row: &Record, lock: u32) -> Result<Record, AllocError>
    ensures { IfOk result (λ copy. copy ≡ effects.with_lock lock row.now) }
{
    let mut copy = row.copy()?;
    if let Record::Working(working) = &mut copy {
        working.lock = lock;
    }
    Ok(copy)
}

/// The row with another lock number, where there is a row. The one error is want of memory.
pub(crate) fn locked_row(row: Option<&Record>, lock: u32) -> Result<Option<Record>, AllocError>
    ensures { IfOk result (λ copy. copy ≡ option_map (effects.with_lock lock) (option_copied row.entry)) }
{
    match row {
        Some(row) => Ok(Some(with_lock(row, lock)?)),
        None => Ok(None),
    }
}

/// The row with another word of how it was paid. The one error is want of memory.
fn with_how(row: &Record, how: Text) -> Result<Record, AllocError>
    ensures { IfOk result (λ copy. copy ≡ effects.with_how how row.now) }
{
    let mut copy = row.copy()?;
    if let Record::Resolve(resolve) = &mut copy {
        resolve.how = how;
    }
    Ok(copy)
}

/// The row with another word of how it was paid, where there is a row. The one error is want of
/// memory.
pub(crate) fn paid_row(row: Option<&Record>, how: Text) -> Result<Option<Record>, AllocError>
    ensures { IfOk result (λ copy. copy ≡ option_map (effects.with_how how) (option_copied row.entry)) }
{
    match row {
        Some(row) => Ok(Some(with_how(row, how)?)),
        None => Ok(None),
    }
}
