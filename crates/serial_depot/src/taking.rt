//! Taking commands one after another.

ghost use Rattle.std.specs.Prelude.{◌≡◌, ◌⊎◌, ◌≤◌, ℕ, List, [], true, false, None, IfOk, IfSome, OnErr};
ghost use Rattle.archive_file.specs.Archive.{disk_of as archive_disk_of};
ghost use Rattle.outside_api.specs.Count.{HasRisen};
ghost use Rattle.depot_rows.specs.depot_model.Deeds.{Deed};
ghost use Rattle.depot_rows.specs.depot_model.Commands.{step};
ghost use Rattle.depot_rows.specs.depot_model.Places.{Placed};
ghost use Rattle.depot_rows.specs.depot_model.Records.{SameRows};
ghost use Rattle.depot_rows.specs.depot_model.Step.{after};
ghost use Rattle.depot_rows.specs.Standing.{Stand};
ghost use Rattle.reply_rows.specs.Made.{contents_of};
ghost use Rattle.depot_rows.specs.table_changes.Changed.{AllFitIn, changed_by, rows_of};
ghost use Rattle.disk_journal.specs.Stands.{disk_of};
ghost use Rattle.session_loop.specs.Taking.{Answers, IsProper, with_place};
ghost use Rattle.depot_commit.specs.Committing.{AreRowsAfter, IsOutcomeOf};
ghost use Rattle.depot_commit.specs.Growing.{Chronicle, HasGroups, KeepsStored, grown};
ghost use Rattle.depot_commit.specs.Opening.{opens_generation};
ghost use Rattle.serial_depot.specs.Running.{CanTake, GrowsBy, HasRun, HasStayed, HaveCause, HaveStood};

use crate::depot::SerialDepot;
use archive_file::Archive;
use command_core::{Outcome, evaluate};
use depot_commit::{Landed, place, tell_reading};
use depot_rows::model::{Answer, Request};
use depot_rows::tables::Tables;
use outside_api::{Disk, Gate};
use session_loop::Taker;
use std::alloc::{AllocError, Global};
use std::marker::Brand;

impl<D: Disk> SerialDepot<D> {
    /// Gives the command of a request its place, whose outcome was found in tables with the same rows, as
    /// [`command_core::evaluate`] does; the tables after its changes may be given. The one error is want of memory, and
    /// then nothing is done; a command that would change a row with a number that no text says is answered so too,
    /// before any call of a disk. The command may be held back at the gate.
    pub fn place_outcome<G: Gate>(
        &mut self,
        alloc: Global,
        gate: &G,
        request: &Request,
        outcome: Outcome,
        changed: Option<Tables>,
    ) -> Result<Answer, AllocError>
        requires can { CanTake D.says self.old }
        requires fit { changed ≡ None → AllFitIn (rows_of self.old.tables) outcome.changes }
        ensures can { CanTake D.says self.new }
        ensures ran { (since : ℕ) (start : List Deed) (places : List Placed) →
            HasRun D.says self.old since start places → IsProper request.now →
            IsOutcomeOf (rows_of self.old.tables) self.old.tables.archive_end request.now outcome →
            IfSome changed (λ given. rows_of given ≡ changed_by (rows_of self.old.tables) outcome.changes) →
            IfOk result (λ answer. HasRun D.says self.new since start (with_place places request.now answer)) }
        ensures answers { (since : ℕ) (start : List Deed) (places : List Placed) →
            HasRun D.says self.old since start places →
            IsOutcomeOf (rows_of self.old.tables) self.old.tables.archive_end request.now outcome →
            IfOk result (Answers start places request.now) }
        ensures rows { IfSome changed (λ given. rows_of given ≡ changed_by (rows_of self.old.tables) outcome.changes) →
            IfOk result (λ answer. AreRowsAfter (rows_of self.old.tables) outcome.changes answer.place.fault (rows_of self.new.tables)) }
        // The journal has one group more, or the next generation where the request opens one; at a fault, and without
        // changes, it has the groups that it had.
        ensures grows { (d : List Deed) (c : Chronicle) → Stand (rows_of self.old.tables) d → IsProper request.now →
            IsOutcomeOf (rows_of self.old.tables) self.old.tables.archive_end request.now outcome →
            HasGroups D.says self.old.journal c →
            IfOk result (λ answer. HasGroups D.says self.new.journal (grown (opens_generation request.now) answer.place.fault outcome.changes c)) }
        ensures unplaced { OnErr result (HasStayed D.says self.old self.new) }
        // What lies in the archive below the end of what was used stays.
        ensures stored { KeepsStored D.says self.old.archive self.new.archive }
        // With nothing to store the contents in the archive end where they did.
        ensures end { outcome.stores ≡ [] → self.new.tables.archive_end ≡ self.old.tables.archive_end }
        // An outcome without changes makes no call of the journal's disk, and none of the archive's where it waits for
        // no content.
        ensures no_write { outcome.changes ≡ [] →
            (self.new.journal ≡ self.old.journal) × (self.new.tables ≡ self.old.tables) }
        ensures no_call { outcome.changes ≡ [] → outcome.reads ≡ [] → self.new ≡ self.old }
        ensures never_falls { D.says.faults (disk_of self.old.journal) ≤ D.says.faults (disk_of self.new.journal) }
        ensures never_falls_contents { D.says.faults (archive_disk_of self.old.archive) ≤ D.says.faults (archive_disk_of self.new.archive) }
        ensures caused { IfOk result (λ answer. HaveCause D.says answer.place.fault self.old self.new) }
    {
        let told = match tell_reading(alloc, &mut self.archive, outcome, request.number) {
            Ok(told) => told,
            Err(error) => {
                drop(changed);
                return Err(error);
            }
        };
        gate.pass(request.party, request.number);
        match place::<D, Archive<D>, Brand>(
            alloc,
            &mut self.tables,
            &mut self.journal,
            &mut self.archive,
            request,
            told,
            changed,
        ) {
            Ok(landed) => {
                gate.answered(request.party, request.number);
                let Landed {
                    answer,
                    changes,
                    stored,
                    lost: _,
                } = landed;
                drop(changes);
                drop(stored);
                Ok(answer)
            }
            Err(error) => Err(error),
        }
    }

    /// Takes the command of a request, and gives its place and its reply. The one error is want of memory, and then
    /// nothing is done. The command may be held back at the gate.
    pub fn take_request<G: Gate>(
        &mut self,
        alloc: Global,
        gate: &G,
        request: &Request,
    ) -> Result<Answer, AllocError>
        requires { CanTake D.says self.old }
        ensures can { CanTake D.says self.new }
        ensures ran { (since : ℕ) (start : List Deed) (places : List Placed) →
            HasRun D.says self.old since start places → IsProper request.now →
            IfOk result (λ answer. HasRun D.says self.new since start (with_place places request.now answer)) }
        ensures answers { (since : ℕ) (start : List Deed) (places : List Placed) →
            HasRun D.says self.old since start places → IsProper request.now →
            IfOk result (Answers start places request.now) }
        ensures nothing { (since : ℕ) (start : List Deed) (places : List Placed) →
            HasRun D.says self.old since start places →
            OnErr result (HasRun D.says self.new since start places) }
        ensures grows { IsProper request.now →
            IfOk result (λ answer. GrowsBy D.says request.now answer.place.fault self.old self.new) }
        ensures same { OnErr result ((self.new.tables ≡ self.old.tables) × (self.new.journal ≡ self.old.journal)) }
        // What lies in the archive below the end of what was used stays.
        ensures stored { KeepsStored D.says self.old.archive self.new.archive }
        // A command after which no row differs makes no call of the journal's disk, and none of the archive's where it
        // prints no content.
        ensures no_write { (d : List Deed) → Stand (rows_of self.old.tables) d → IsProper request.now →
            SameRows d (after d (step d request.now).deeds) →
            (self.new.journal ≡ self.old.journal) × (self.new.tables ≡ self.old.tables) }
        ensures no_call { (d : List Deed) → Stand (rows_of self.old.tables) d → IsProper request.now →
            SameRows d (after d (step d request.now).deeds) →
            contents_of (step d request.now).rows ≡ [] → self.new ≡ self.old }
        ensures never_falls { D.says.faults (disk_of self.old.journal) ≤ D.says.faults (disk_of self.new.journal) }
        ensures never_falls_contents { D.says.faults (archive_disk_of self.old.archive) ≤ D.says.faults (archive_disk_of self.new.archive) }
        // Where the place isn't that of a fault, and where memory was wanting, no call of a disk failed.
        ensures only { IfOk result (λ answer. answer.place.fault ≡ false → HaveStood D.says self.old self.new) }
        ensures no_memory { OnErr result (HaveStood D.says self.old self.new) }
        ensures cause { IfOk result (λ answer. answer.place.fault ≡ true →
            HasRisen (D.says.faults (disk_of self.old.journal)) (D.says.faults (disk_of self.new.journal)) ⊎ HasRisen (D.says.faults (archive_disk_of self.old.archive)) (D.says.faults (archive_disk_of self.new.archive))) }
    {
        let outcome = evaluate(alloc, &self.tables, request)?;
        let answer = self.place_outcome(alloc, gate, request, outcome, None)?;
        Ok(answer)
    }
}

impl<D: Disk> Taker for SerialDepot<D> {
    ghost can_take = { λ depot. CanTake D.says depot };

    ghost has_run = { λ depot since start places. HasRun D.says depot since start places };

    ghost unwritten = { λ old new. (new.journal ≡ old.journal) × (new.tables ≡ old.tables) };

    ghost untouched = { λ old new. new ≡ old };

    ghost faults = { λ depot. D.says.faults (disk_of depot.journal) };

    ghost content_faults = { λ depot. D.says.faults (archive_disk_of depot.archive) };

    fn take<G: Gate>(
        &mut self,
        alloc: Global,
        gate: &G,
        request: Request,
    ) -> Result<Answer, AllocError> {
        let answer = self.take_request(alloc, gate, &request);
        drop(request);
        answer
    }
}
