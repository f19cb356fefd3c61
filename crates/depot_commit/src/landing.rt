//! Giving a command its place over the parts of a depot in files.

ghost use Rattle.std.specs.Prelude.{◌≡◌, ◌≤◌, ◌++◌, ℕ, List, [], false, None, IfOk, IfSome, OnErr, if◌then◌else◌};
ghost use Rattle.command_core.specs.declared.outcome.Outcome.{Outcome};
ghost use Rattle.depot_rows.specs.Standing.{Stand};
ghost use Rattle.depot_rows.specs.depot_model.Deeds.{Deed};
ghost use Rattle.depot_rows.specs.depot_model.Places.{Placed, taken};
ghost use Rattle.depot_rows.specs.table_changes.Changed.{AllFitIn, changed_by, rows_of};
ghost use Rattle.depot_rows.specs.depot_model.Commands.{step};
ghost use Rattle.disk_journal.specs.Stands.{disk_of};
ghost use Rattle.session_loop.specs.Taking.{Answers, IsProper, place_by, with_place};
ghost use Rattle.depot_commit.specs.Committing.{AreRowsAfter, IsOutcomeOf, IsToldAt};
ghost use Rattle.depot_commit.specs.Growing.{Chronicle, HasGroups, grown};
ghost use Rattle.depot_commit.specs.Opening.{opens_generation};
ghost use Rattle.depot_commit.specs.Placing.{AreCounted, HasLanded, HasRunBeside};
ghost use Rattle.depot_commit.specs.Running.{CanCommit};
ghost use Rattle.depot_commit.specs.Storing.{stores_end};
ghost use Rattle.depot_commit.specs.Telling.{IsReplyOf, IsTold};

use crate::imaging::Imaging;
use crate::store::Store;
use crate::telling::Told;
use crate::writing::{Following, commit, follow};
use depot_rows::model::{Answer, Command, Place, Request};
use depot_rows::paths::{Sequence, Text};
use depot_rows::records::Change;
use depot_rows::tables::Tables;
use disk_journal::Journal;
use outside_api::{Disk, DiskFault};
use sound_requests::requests_are_typed;
use std::alloc::{AllocError, Global};

/// A command that was given its place.
#[derive(Drop)]
pub struct Landed {
    /// What it is answered.
    pub answer: Answer,
    /// What it changed: nothing at the place of a fault.
    pub changes: Sequence<Change>,
    /// The contents that it stored, which count as used.
    pub stored: Sequence<Text>,
    /// Whether the archive's disk failed; then its place is that of a fault.
    pub lost: bool,
}

/// Whether a request opens a generation, where it isn't refused.
fn opens(request: &Request) -> bool
    ensures { result ≡ opens_generation request.now }
{
    matches!(&request.command, Ok(Command::Checkpoint))
}

/// The answer to a request: the reply, or that of a fault.
fn answer_of(request: &Request, reply: Text, of_fault: Text, fault: bool) -> Answer
    ensures fault { result.place.fault ≡ fault }
    ensures told { IsToldAt (place_by request.now false) reply of_fault result }
{
    let place = Place {
        party: request.party,
        number: request.number,
        moment: request.moment,
        fault,
    };
    if fault {
        Answer {
            place,
            reply: of_fault,
        }
    } else {
        Answer { place, reply }
    }
}

/// A command for which nothing was written, and nothing counts as stored.
fn land_nothing(alloc: Global, request: &Request, told: Told, fault: bool, lost: bool) -> Landed
    ensures fault { result.answer.place.fault ≡ fault }
    ensures told { IsToldAt (place_by request.now false) told.reply told.of_fault result.answer }
    ensures nothing { (result.changes ≡ []) × (result.stored ≡ []) }
    ensures lost { result.lost ≡ lost }
{
    Landed {
        answer: answer_told(request, told, fault),
        changes: Sequence::new(alloc),
        stored: Sequence::new(alloc),
        lost,
    }
}

/// A command whose contents were stored, and whose changes were written, unless the journal's disk failed.
fn land_stored(alloc: Global, request: &Request, told: Told, failed: bool) -> Landed
    ensures fault { result.answer.place.fault ≡ failed }
    ensures told { IsToldAt (place_by request.now false) told.reply told.of_fault result.answer }
    ensures changes { result.changes ≡ (if failed then [] else told.changes) }
    ensures stored { result.stored ≡ told.stores }
    ensures lost { result.lost ≡ false }
{
    let Told {
        reply,
        of_fault,
        changes,
        stores,
        unread: _,
    } = told;
    Landed {
        answer: answer_of(request, reply, of_fault, failed),
        changes: none_if(alloc, failed, changes),
        stored: stores,
        lost: false,
    }
}

/// None of these changes, or all.
fn none_if(alloc: Global, none: bool, changes: Sequence<Change>) -> Sequence<Change>
    ensures { result ≡ (if none then [] else changes) }
{
    if none {
        drop(changes);
        Sequence::new(alloc)
    } else {
        changes
    }
}

/// Gives the command of a request its place: settles what is in doubt, stores what it tells, where there is
/// something to store, and writes its group or the next generation. The tables after its changes may be
/// given. Where a content of its reply couldn't be read the place is that of a fault, and no call of a disk
/// is made; nor is one where it changes nothing. Where a disk failed the rows stay. What was stored counts
/// as used also where the writing failed, since it may be in doubt; where a content couldn't be stored,
/// nothing is in doubt, and what was stored stays unused. All memory is had before the first call of a disk;
/// the one error is want of it, and then nothing is done.
pub fn place<D: Disk, S: Store, I: Imaging>(
    alloc: Global,
    tables: &mut Tables,
    journal: &mut Journal<D>,
    store: &mut S,
    request: &Request,
    told: Told,
    changed: Option<Tables>,
) -> Result<Landed, AllocError>
    requires can { CanCommit D.says journal.old }
    requires used { S.ends_at store.old tables.old.archive_end }
    requires some { S.is_archive ≡ false → told.stores ≡ [] }
    requires fit { changed ≡ None → AllFitIn (rows_of tables.old) told.changes }
    ensures can { CanCommit D.says journal.new }
    ensures used { S.ends_at store.new tables.new.archive_end }
    ensures nothing { OnErr result ((tables.new ≡ tables.old) × (journal.new ≡ journal.old) × (store.new ≡ store.old)) }
    ensures landed { IfOk result (λ landed. HasLanded S.stores told landed tables.old.archive_end tables.new.archive_end store.old store.new) }
    // Where the tables and the journal have run places beside an archive in which contents were stored since a moment,
    // they have run one more after it, beside the archive in which these contents were stored too.
    ensures ran { (from : ℕ) (before : List (List ℕ)) (since : ℕ) (start : List Deed) (places : List Placed) (outcome : Outcome) →
        HasRunBeside D.says I.images from before tables.old journal.old since start places →
        tables.old.archive_end ≡ stores_end before from → IsProper request.now →
        IsOutcomeOf (rows_of tables.old) tables.old.archive_end request.now outcome →
        IsTold outcome request.now.number told →
        IfSome changed (λ given. rows_of given ≡ changed_by (rows_of tables.old) outcome.changes) →
        IfOk result (λ landed. HasRunBeside D.says I.images from (before ++ landed.stored) tables.new journal.new since start (with_place places request.now landed.answer)) }
    ensures answers { (start : List Deed) (places : List Placed) (outcome : Outcome) →
        IsTold outcome request.now.number told → IsReplyOf (taken step start places) request.now told →
        IfOk result (λ landed. Answers start places request.now landed.answer) }
    ensures rows { (outcome : Outcome) → IsTold outcome request.now.number told →
        IfSome changed (λ given. rows_of given ≡ changed_by (rows_of tables.old) outcome.changes) →
        IfOk result (λ landed. AreRowsAfter (rows_of tables.old) outcome.changes landed.answer.place.fault (rows_of tables.new)) }
    ensures grows { (d : List Deed) (c : Chronicle) (outcome : Outcome) → Stand (rows_of tables.old) d →
        IsProper request.now → IsOutcomeOf (rows_of tables.old) tables.old.archive_end request.now outcome →
        IsTold outcome request.now.number told → HasGroups D.says journal.old c →
        IfOk result (λ landed. HasGroups D.says journal.new (grown (opens_generation request.now) landed.answer.place.fault outcome.changes c)) }
    ensures no_call { told.changes ≡ [] →
        (tables.new ≡ tables.old) × (journal.new ≡ journal.old) × (store.new ≡ store.old) }
    ensures never_falls { D.says.faults (disk_of journal.old) ≤ D.says.faults (disk_of journal.new) }
    ensures never_falls_contents { S.faults store.old ≤ S.faults store.new }
    ensures counted { IfOk result (λ landed. AreCounted told landed (D.says.faults (disk_of journal.old)) (D.says.faults (disk_of journal.new)) (S.faults store.old) (S.faults store.new)) }
    // All contents were read where memory was wanting.
    ensures no_memory { OnErr result (told.unread ≡ false) }
{
    requests_are_typed(request);
    if told.is_unwritten() {
        drop(changed);
        let lost = told.is_unread();
        return Ok(land_nothing(alloc, request, told, lost, lost));
    }
    let opening = opens(request);
    let following = match follow(
        alloc,
        tables,
        journal,
        told.changes.as_slice(),
        opening,
        changed,
    ) {
        Ok(following) => following,
        Err(error) => {
            drop(told);
            return Err(error);
        }
    };
    let Following { changed, writing } = following;
    match journal.settle() {
        Ok(()) => {}
        Err(DiskFault) => return Ok(land_nothing(alloc, request, told, true, false)),
    }
    let end = match store.store(tables.archive_end(), told.stores.as_slice()) {
        Ok(end) => end,
        Err(DiskFault) => return Ok(land_nothing(alloc, request, told, true, true)),
    };
    let failed = commit(tables, journal, changed, writing);
    tables.set_archive_end(end);
    Ok(land_stored(alloc, request, told, failed))
}

/// The answer to a request: what is told, or that of a fault.
pub(crate) fn answer_told(request: &Request, told: Told, fault: bool) -> Answer
    ensures fault { result.place.fault ≡ fault }
    ensures told { IsToldAt (place_by request.now false) told.reply told.of_fault result }
{
    let Told {
        reply,
        of_fault,
        changes,
        stores,
        unread: _,
    } = told;
    drop(changes);
    drop(stores);
    answer_of(request, reply, of_fault, fault)
}
