//! What a command is answered and does, once its reply is printed.

ghost use Rattle.std.specs.Prelude.{◌≡◌, ◌≢◌, ◌≤◌, ℕ, List, [], ◌∷◌, All, IsFalse, IsTrue, true, false, IfOk, OnErr, map};
ghost use Rattle.archive_file.specs.Archive.{disk_of, used_of};
ghost use Rattle.command_core.specs.Outcomes.{IsOutcome};
ghost use Rattle.depot_rows.specs.depot_model.Deeds.{Deed};
ghost use Rattle.depot_rows.specs.depot_model.Printed.{printed};
ghost use Rattle.depot_rows.specs.depot_model.Rows.{disk_row};
ghost use Rattle.depot_rows.specs.depot_model.declared.reply.Row.{Row};
ghost use Rattle.depot_rows.specs.depot_model.declared.request.Request.{Request};
ghost use Rattle.depot_rows.specs.table_changes.Changed.{AllRows};
ghost use Rattle.outside_api.specs.Count.{HasRisen};
ghost use Rattle.outside_api.specs.Disk.{Files, NoMore, Same};
ghost use Rattle.reply_rows.specs.Made.{contents_of, waiting};
ghost use Rattle.row_texts.specs.Texts.{IsOf64Bits, is_counted};
ghost use Rattle.depot_commit.specs.Holding.{HasItsContents};
ghost use Rattle.depot_commit.specs.Storing.{EndsBy};
ghost use Rattle.depot_commit.specs.Telling.{IsReplyOf, IsTold, IsUnwritten};

use crate::counting::{are_counted, know_records};
use crate::storing::{are_within, read_all};
use archive_file::{Archive, ContentFault};
use command_core::Outcome;
use depot_rows::paths::{Sequence, Text};
use depot_rows::records::Change;
use itoa::Buffer;
use outside_api::Disk;
use reply_rows::filled;
use std::alloc::{AllocError, Global};
use wire_text::print_reply;

/// What a command is answered and does, once its reply is printed.
#[derive(Drop)]
pub struct Told {
    /// The printed reply.
    pub reply: Text,
    /// That of a fault place.
    pub of_fault: Text,
    /// What the command changes.
    pub changes: Sequence<Change>,
    /// The contents that it stores.
    pub stores: Sequence<Text>,
    /// Whether the archive's disk failed where a content was to be read. Then nothing is said of the
    /// reply, and the command gets a fault place.
    pub unread: bool,
}

impl Told {
    /// Whether the archive's disk failed where a content was to be read.
    pub fn is_unread(&self) -> bool
        ensures { result ≡ self.now.unread }
    {
        self.unread
    }

    /// Whether nothing is written for it: it changes nothing, or a content couldn't be read.
    pub fn is_unwritten(&self) -> bool
        ensures unwritten { IsTrue result → IsUnwritten self.now }
        ensures read { IsFalse result → self.now.unread ≡ false }
        ensures some { IsFalse result → self.now.changes ≢ [] }
    {
        self.unread || self.changes.is_empty()
    }
}

/// The reply to the command of that number where a disk failed.
fn fault_reply(alloc: Global, number: u32) -> Result<Text, AllocError>
    ensures { IfOk result (λ text. text ≡ printed (disk_row ∷ []) number) }
{
    let mut text = Text::from_bytes(alloc, b"... code 30\n... name Disk\n\n... end ")?;
    text.append(Buffer::new().format(number).as_bytes())?;
    text.append(b"\n\n")?;
    Ok(text)
}

/// Whether an outcome can be committed and answered: a text may say the numbers of each row that is
/// changed, and the contents that the reply reads lie within what is used of the archive, as those of
/// the tables' rows do.
fn is_ready(outcome: &Outcome, used: u64) -> bool
    ensures { result ≡ true →
        All (λ change. IsTrue (is_counted change.row)) outcome.now.changes × All (EndsBy used) outcome.now.reads }
{
    are_within(outcome.reads.as_slice(), used) && are_counted(outcome.changes.as_slice())
}

/// What an outcome tells with the contents that its reply waits for.
fn told_with(
    alloc: Global,
    outcome: Outcome,
    contents: Sequence<Text>,
    of_fault: Text,
    number: u32,
) -> Result<Told, AllocError>
    requires fault { of_fault ≡ printed (disk_row ∷ []) number }
    requires small { All (λ change. IsOf64Bits change.row) outcome.changes }
    requires counted { All (λ change. IsTrue (is_counted change.row)) outcome.changes }
    ensures told { IfOk result (IsTold outcome number) }
    ensures read { IfOk result (λ told. told.unread ≡ false) }
    ensures reply { (rows : List Row) → outcome.reply.rows ≡ map waiting rows → contents ≡ contents_of rows →
        IfOk result (λ told. told.reply ≡ printed rows number) }
{
    let Outcome {
        reply,
        changes,
        stores,
        reads,
    } = outcome;
    drop(reads);
    let whole = filled(reply, contents);
    match print_reply(alloc, &whole, number) {
        Ok(reply) => Ok(Told {
            reply,
            of_fault,
            changes,
            stores,
            unread: false,
        }),
        Err(error) => {
            drop(changes);
            drop(stores);
            Err(error)
        }
    }
}

/// What is told of an outcome where a content couldn't be read.
fn told_unread(alloc: Global, outcome: Outcome, of_fault: Text) -> Told
    ensures { result ≡ record { reply = []; of_fault = of_fault; changes = outcome.changes; stores = outcome.stores; unread = true } }
{
    let Outcome {
        reply,
        changes,
        stores,
        reads,
    } = outcome;
    drop(reply);
    drop(reads);
    Told {
        reply: Text::new(alloc),
        of_fault,
        changes,
        stores,
        unread: true,
    }
}

/// Prints the reply of an outcome that waits for no content. The one error is want of memory; it also
/// stands for an outcome that changes a row with a number that no text says.
pub fn tell(alloc: Global, outcome: Outcome, number: u32) -> Result<Told, AllocError>
    requires { outcome.reads ≡ [] }
    ensures told { IfOk result (IsTold outcome number) }
    ensures read { IfOk result (λ told. told.unread ≡ false) }
    ensures reply { (rows : AllRows) (from : ℕ) (d : List Deed) (request : Request) → request.number ≡ number →
        IsOutcome rows from d request outcome → IfOk result (IsReplyOf d request) }
{
    if !are_counted(outcome.changes.as_slice()) {
        drop(outcome);
        return Err(AllocError);
    }
    know_records(outcome.changes.as_slice());
    match fault_reply(alloc, number) {
        Ok(of_fault) => told_with(alloc, outcome, Sequence::new(alloc), of_fault, number),
        Err(error) => {
            drop(outcome);
            Err(error)
        }
    }
}

/// Reads the contents that the reply of an outcome waits for, where they aren't given, and prints it. The one error is
/// want of memory; it also stands for an outcome that changes a row with a number that no text says, and for one that
/// reads behind what is used of the archive.
pub fn tell_reading<D: Disk>(
    alloc: Global,
    archive: &mut Archive<D>,
    outcome: Outcome,
    number: u32,
) -> Result<Told, AllocError>
    ensures told { IfOk result (IsTold outcome number) }
    // The reply is the request's after each depot whose contents stand in what the archive's disk reads.
    ensures reply { (files : Files) (rows : AllRows) (from : ℕ) (d : List Deed) (request : Request) →
        D.says.seen (disk_of archive.old) files → request.number ≡ number →
        HasItsContents rows d files → IsOutcome rows from d request outcome → IfOk result (IsReplyOf d request) }
    ensures same { Same (D.says.seen (disk_of archive.old)) (D.says.seen (disk_of archive.new)) }
    ensures crash { NoMore (D.says.may_leave (disk_of archive.old)) (D.says.may_leave (disk_of archive.new)) }
    ensures used { used_of archive.new ≡ used_of archive.old }
    ensures no_call { outcome.reads ≡ [] → archive.new ≡ archive.old }
    ensures never_falls { D.says.faults (disk_of archive.old) ≤ D.says.faults (disk_of archive.new) }
    // Where all contents were read, or memory was wanting, no call of the disk failed.
    ensures only { IfOk result (λ told. told.unread ≡ false →
        D.says.faults (disk_of archive.new) ≡ D.says.faults (disk_of archive.old)) }
    ensures no_memory { OnErr result (D.says.faults (disk_of archive.new) ≡ D.says.faults (disk_of archive.old)) }
    ensures cause { IfOk result (λ told. told.unread ≡ true →
        HasRisen (D.says.faults (disk_of archive.old)) (D.says.faults (disk_of archive.new))) }
{
    if !is_ready(&outcome, archive.used()) {
        drop(outcome);
        return Err(AllocError);
    }
    know_records(outcome.changes.as_slice());
    let of_fault = match fault_reply(alloc, number) {
        Ok(text) => text,
        Err(error) => {
            drop(outcome);
            return Err(error);
        }
    };
    match read_all(alloc, archive, outcome.reads.as_slice()) {
        Ok(contents) => told_with(alloc, outcome, contents, of_fault, number),
        Err(ContentFault::DiskFault) => Ok(told_unread(alloc, outcome, of_fault)),
        Err(ContentFault::Memory) => {
            drop(outcome);
            Err(AllocError)
        }
    }
}
