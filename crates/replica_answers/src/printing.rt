//! The answer to `print`, with the contents of an archive.

ghost use Rattle.std.specs.Prelude.{◌≡◌, ◌≤◌, ◌<◌, ◌+◌, ℕ, List, length, decimal, map, IsSome, IsTrue, Some, IfOk, OnOk, IfSome, Err};
ghost use Rattle.std.specs.Result.{IfErr};
ghost use Rattle.outside_api.specs.Reaching.{Reaches};
ghost use Rattle.archive_file.specs.Archive.{Has};
ghost use Rattle.archive_file.specs.Contents.{IsFront};
ghost use Rattle.command_core.specs.Outcomes.{IsFormedBy};
ghost use Rattle.depot_rows.specs.depot_model.Deeds.{Deed};
ghost use Rattle.depot_rows.specs.depot_model.declared.reply.Row.{Row as AnyRow};
ghost use Rattle.depot_rows.specs.Standing.{Stand};
ghost use Rattle.depot_rows.specs.table_changes.Changed.{rows_of};
ghost use Rattle.depot_runs.specs.Replica.{replica_reply};
ghost use Rattle.recovery.specs.Standing.{HasContent, HasContents};
ghost use Rattle.reply_rows.specs.Made.{waiting};
ghost use Rattle.replica_replies.specs.Prints.{AreShown, IsShown};
ghost use Rattle.replica_answers.specs.Printing.{AreDigested, AreGiven, AreRowsOf, EndsBehind, Gives, GrowsTo, HasPrintCause, IsDigested, IsFaultOf, IsFirstFault, IsGiven, IsGivenIn, IsPrintFault, IsRowOf, StandsUnlessFailed};
ghost use Rattle.replica_answers.specs.declared.printing.PrintFault.TheVariants as faults;

use crate::answers::waiting_reply;
use archive_file::{Contents, ContentsFault, MOST_BYTES, digest};
use depot_rows::model::{Field, Reply, Request, Row};
use depot_rows::paths::{Sequence, Text};
use depot_rows::records::{Key, Record, RevRecord, Spot, TableId};
use depot_rows::tables::Tables;
use itoa::Buffer;
use replica_pull::Replica;
use std::alloc::{AllocError, Global};

/// Why a `print` isn't answered.
#[derive(Clone, Copy, PartialEq, Eq)]
pub enum PrintFault {
    /// What brings the contents has failed.
    Failed,
    /// The spot of a revision, which begins at this place of the archive, ends behind what is used of it.
    Absent(u64),
    /// The bytes at the spot of a revision, which begins at this place of the archive, haven't its digest.
    BadContent(u64),
    /// There was no memory.
    Memory,
}

impl From<AllocError> for PrintFault {
    ghost from_gives = { λ _ fault. fault ≡ faults.Memory };

    fn from(_: AllocError) -> PrintFault {
        PrintFault::Memory
    }
}

/// The number that these digits print, if they print one.
fn number_of(digits: &[u8]) -> Option<u32>
    ensures { IfSome result (λ n. digits.now ≡ decimal n) }
{
    let Ok(text) = str::from_utf8(digits) else {
        return None;
    };
    let number = text.parse::<u32>().ok()?;
    if Buffer::new().format(number).as_bytes() == digits {
        Some(number)
    } else {
        None
    }
}

/// Whether a field has this name.
fn has_name(field: &Field, name: &[u8]) -> bool
    ensures { IsTrue result → field.now.name ≡ name.now }
{
    field.name.as_bytes() == name
}

/// The row of the revision that a row of a reply shows: the file and the number are its first fields.
fn row_shown<'a>(
    alloc: Global,
    tables: &'a Tables,
    row: &Row,
) -> Result<Option<&'a RevRecord>, AllocError>
    ensures { IfOk result (λ found. IfSome found (λ revision. IsRowOf (rows_of tables.now) row.now revision.now)) }
{
    let [file, rev, ..] = row.fields.as_slice() else {
        return Ok(None);
    };
    if !has_name(file, b"depotFile") {
        return Ok(None);
    }
    if !has_name(rev, b"rev") {
        return Ok(None);
    }
    let Some(number) = number_of(rev.value.as_bytes()) else {
        return Ok(None);
    };
    let path = Text::from_bytes(alloc, file.value.as_bytes())?;
    let key = Key::Rev { path, rev: number };
    match tables.version(TableId::Rev).get(&key) {
        Some(Record::Rev(revision)) => Ok(Some(revision)),
        _ => Ok(None),
    }
}

/// The bytes at a spot for a revision whose own spot begins at the place.
fn piece_at<C: Contents>(
    alloc: Global,
    contents: &mut C,
    spot: Spot,
    place: u64,
) -> Result<Text, PrintFault>
    requires { spot.length ≤ 8388608 }
    ensures piece { (bytes : List ℕ) → C.tells contents.new bytes → IfOk result (λ text. Has bytes spot text) }
    ensures whole { IfOk result (λ text. length text ≡ spot.length) }
    ensures absent { (bytes : List ℕ) (at : ℕ) → C.tells contents.new bytes → result ≡ Err (faults.Absent at) →
        (at ≡ place) × (length bytes < spot.at + spot.length) }
    ensures never_bad { (at : ℕ) → result ≡ Err (faults.BadContent at) → ⊥ }
    ensures grows { (before : List ℕ) → C.tells contents.old before →
        (now : List ℕ) × (C.tells contents.new now × IsFront before now) }
    ensures keeps { C.keeps contents.old contents.new }
    ensures only { StandsUnlessFailed (C.faults contents.old) (C.faults contents.new) result }
    ensures cause { HasPrintCause (C.faults contents.old) (C.faults contents.new) result }
{
    match contents.content(alloc, spot) {
        Ok(text) => Ok(text),
        Err(ContentsFault::Failed) => Err(PrintFault::Failed),
        Err(ContentsFault::Absent) => Err(PrintFault::Absent(place)),
        Err(ContentsFault::Memory) => Err(PrintFault::Memory),
    }
}

/// The bytes at the spot of a revision: first it is asked whether the archive has so many, and then for them in pieces.
fn bytes_of<C: Contents>(
    alloc: Global,
    contents: &mut C,
    revision: &RevRecord,
) -> Result<Text, PrintFault>
    ensures bytes { (before : List ℕ) → C.tells contents.old before →
        IfOk result (λ text. GrowsTo (C.tells contents.new) before (λ now. HasContent now revision.now text)) }
    ensures absent { (now : List ℕ) (at : ℕ) → C.tells contents.new now → result ≡ Err (faults.Absent at) →
        (at ≡ revision.now.at) × EndsBehind now revision.now }
    ensures never_bad { (at : ℕ) → result ≡ Err (faults.BadContent at) → ⊥ }
    ensures grows { (before : List ℕ) → C.tells contents.old before →
        (now : List ℕ) × (C.tells contents.new now × IsFront before now) }
    ensures reached { Reaches C.keeps contents.old contents.new }
    ensures only { StandsUnlessFailed (C.faults contents.old) (C.faults contents.new) result }
    ensures cause { HasPrintCause (C.faults contents.old) (C.faults contents.new) result }
{
    let end = revision.at.saturating_add(revision.length);
    piece_at(alloc, contents, Spot { at: end, length: 0 }, revision.at)?;
    let mut bytes = Vec::new(alloc);
    let mut at = revision.at;
    while at < end {
        let length = (end - at).min(MOST_BYTES);
        let piece = piece_at(alloc, contents, Spot { at, length }, revision.at)?;
        bytes.extend_from_slice(piece.as_bytes())?;
        at += length;
    }
    if bytes.len() as u64 != revision.length {
        return Err(PrintFault::Memory);
    }
    Ok(Text::from_vec(bytes))
}

/// The content of the revision that a row of a reply shows. A row that shows none is answered as want of memory.
fn content_of<C: Contents>(
    alloc: Global,
    tables: &Tables,
    contents: &mut C,
    row: &Row,
) -> Result<Text, PrintFault>
    ensures told { (d : List Deed) (content before : List ℕ) → Stand (rows_of tables.now) d →
        IsShown d row.now content → C.tells contents.old before →
        HasContents before (rows_of tables.now) d → Gives (λ text. text ≡ content) result }
    ensures digested { IfOk result (IsDigested (rows_of tables.now) row.now) }
    ensures given { (before : List ℕ) → C.tells contents.old before →
        IfOk result (λ text. GrowsTo (C.tells contents.new) before (λ now. IsGiven (rows_of tables.now) now row.now text)) }
    ensures fault { (before : List ℕ) → C.tells contents.old before →
        IfErr result (λ fault. GrowsTo (C.tells contents.new) before (λ now. IsFaultOf (rows_of tables.now) now row.now fault)) }
    ensures grows { (before : List ℕ) → C.tells contents.old before →
        (now : List ℕ) × (C.tells contents.new now × IsFront before now) }
    ensures reached { Reaches C.keeps contents.old contents.new }
    ensures only { StandsUnlessFailed (C.faults contents.old) (C.faults contents.new) result }
    ensures cause { HasPrintCause (C.faults contents.old) (C.faults contents.new) result }
{
    let Some(revision) = row_shown(alloc, tables, row)? else {
        return Err(PrintFault::Memory);
    };
    let text = bytes_of(alloc, contents, revision)?;
    let found = digest(alloc, text.as_bytes())?;
    if found.as_bytes() != revision.digest.as_bytes() {
        return Err(PrintFault::BadContent(revision.at));
    }
    Ok(text)
}

/// Puts its content into a row that waits for one.
fn fill_row<C: Contents>(
    alloc: Global,
    tables: &Tables,
    contents: &mut C,
    row: &mut Row,
) -> Result<(), PrintFault>
    ensures told { (d : List Deed) (told : AnyRow) (before : List ℕ) → Stand (rows_of tables.now) d →
        ((content : List ℕ) → told.content ≡ Some content → IsShown d told content) →
        row.old ≡ waiting told → C.tells contents.old before → HasContents before (rows_of tables.now) d →
        Gives (λ _. row.new ≡ told) result }
    ensures same { OnOk result (waiting row.new ≡ waiting row.old) }
    ensures digested { OnOk result ((content : List ℕ) → row.new.content ≡ Some content →
        IsDigested (rows_of tables.now) row.new content) }
    ensures given { (before : List ℕ) → C.tells contents.old before →
        OnOk result (GrowsTo (C.tells contents.new) before (λ now. IsGivenIn (rows_of tables.now) now row.new)) }
    ensures fault { (before : List ℕ) → C.tells contents.old before →
        IfErr result (λ fault. IsSome row.old.content ×
        GrowsTo (C.tells contents.new) before (λ now. IsFaultOf (rows_of tables.now) now row.old fault)) }
    ensures grows { (before : List ℕ) → C.tells contents.old before →
        (now : List ℕ) × (C.tells contents.new now × IsFront before now) }
    ensures reached { Reaches C.keeps contents.old contents.new }
    ensures only { StandsUnlessFailed (C.faults contents.old) (C.faults contents.new) result }
    ensures cause { HasPrintCause (C.faults contents.old) (C.faults contents.new) result }
{
    if row.content.is_some() {
        let content = content_of(alloc, tables, contents, row)?;
        row.content = Some(content);
    }
    Ok(())
}

/// Puts their contents into the rows of a reply that wait for them, the first row first.
fn fill_rows<C: Contents>(
    alloc: Global,
    tables: &Tables,
    contents: &mut C,
    reply: Reply,
) -> Result<Reply, PrintFault>
    ensures told { (d : List Deed) (told : List AnyRow) (before : List ℕ) → Stand (rows_of tables.now) d →
        AreShown d told → reply.rows ≡ map waiting told →
        C.tells contents.old before → HasContents before (rows_of tables.now) d →
        Gives (λ filled. filled.rows ≡ told) result }
    ensures same { IfOk result (λ filled. map waiting filled.rows ≡ map waiting reply.rows) }
    ensures digested { IfOk result (λ filled. AreDigested (rows_of tables.now) filled.rows) }
    ensures given { (before : List ℕ) → C.tells contents.old before →
        IfOk result (λ filled. GrowsTo (C.tells contents.new) before (λ now. AreGiven (rows_of tables.now) now filled.rows)) }
    ensures fault { (before : List ℕ) → C.tells contents.old before →
        IfErr result (λ fault. GrowsTo (C.tells contents.new) before (λ now. IsFirstFault (rows_of tables.now) now reply.rows fault)) }
    ensures reached { Reaches C.keeps contents.old contents.new }
    ensures only { StandsUnlessFailed (C.faults contents.old) (C.faults contents.new) result }
    ensures cause { HasPrintCause (C.faults contents.old) (C.faults contents.new) result }
{
    let mut rows = reply.rows.into_vec();
    let mut next = 0;
    while next < rows.len() {
        let row = &mut rows[next];
        fill_row(alloc, tables, contents, row)?;
        next += 1;
    }
    Ok(Reply {
        rows: Sequence::from_vec(rows),
    })
}

/// What a replica answers to a `print`, from its own rows and with contents of the archive of the depot that it
/// follows, each of which has the digest of its revision. Where the spot of a revision that is printed ends behind what
/// is used of the archive, or its bytes have another digest, the fault tells where it begins.
pub fn answer_print<C: Contents>(
    alloc: Global,
    replica: &Replica,
    contents: &mut C,
    request: &Request,
) -> Result<Reply, PrintFault>
    ensures rows { IfOk result (λ reply. (d : List Deed) → Stand (rows_of replica.now.tables) d →
        IsFormedBy request.now → AreRowsOf d request.now reply.rows) }
    ensures digested { IfOk result (λ reply. AreDigested (rows_of replica.now.tables) reply.rows) }
    ensures told { (d : List Deed) (bytes : List ℕ) → Stand (rows_of replica.now.tables) d → IsFormedBy request.now →
        C.tells contents.old bytes →
        HasContents bytes (rows_of replica.now.tables) d →
        Gives (λ reply. reply.rows ≡ replica_reply d request.now) result }
    ensures given { (bytes : List ℕ) → C.tells contents.old bytes →
        IfOk result (λ reply. GrowsTo (C.tells contents.new) bytes (λ now. AreGiven (rows_of replica.now.tables) now reply.rows)) }
    ensures fault { (bytes : List ℕ) → IsFormedBy request.now → C.tells contents.old bytes →
        IfErr result (λ fault. GrowsTo (C.tells contents.new) bytes (λ now. IsPrintFault (rows_of replica.now.tables) request.now now fault)) }
    ensures reached { Reaches C.keeps contents.old contents.new }
    ensures only { StandsUnlessFailed (C.faults contents.old) (C.faults contents.new) result }
    ensures cause { HasPrintCause (C.faults contents.old) (C.faults contents.new) result }
{
    let reply = waiting_reply(alloc, replica, request)?;
    fill_rows(alloc, replica.tables(), contents, reply)
}
