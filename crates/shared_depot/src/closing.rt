//! A shared depot once all threads have ended.
ghost use Rattle.std.specs.Prelude.{◌≡◌, ◌≤◌, ◌+◌, ◌⊎◌, ℕ, List, [], length, map};
ghost use Rattle.std.specs.List.{AllByRecursion};
ghost use mathlib.Core.List.{IsPrefix};
ghost use Rattle.archive_file.specs.Archive.{disk_of as archive_disk_of};
ghost use Rattle.depot_rows.specs.depot_model.Deeds.{Deed};
ghost use Rattle.disk_journal.specs.Stands.{disk_of};
ghost use Rattle.locked_tables.specs.Taken.{IsParty, of_party, place_of, placed_of};
ghost use Rattle.party_marks.specs.Marks.{MayMark, marks_of};
ghost use Rattle.serial_depot.specs.Running.{CanTake, HasRun};
ghost use Rattle.session_loop.specs.Served.{HaveRisenBy, StandWithoutFaults, fault_count};
ghost use Rattle.shared_depot.specs.Common.{HasAllStored, IsFollowed};

use crate::both_marks::BothMarks;
use crate::common::CommonDepot;
use crate::of_archive::OfArchive;
use crate::serving::Serving;
use crate::shared::SharedDepot;
use crate::stored_archive::StoredArchive;
use crate::written_journal::WrittenJournal;
use archive_file::Archive;
use depot_rows::model::Place;
use depot_rows::tables::Tables;
use disk_journal::Journal;
use locked_tables::{OrderWords, PartyPass, PlacedOrder};
use outside_api::Disk;
use party_marks::{MarkWords, Marks};
use serial_depot::SerialDepot;
use std::marker::Model;

/// A shared depot, out of its locks. Contracts see the one order of all places, and all marks.
#[derive(Drop)]
pub struct OpenedDepot<D: Disk, N: Serving> {
    words: OrderWords<N>,
    mark_words: MarkWords<N>,
    content_words: MarkWords<OfArchive<N>>,
    order: PlacedOrder<N>,
    tables: Tables,
    journal: Journal<D>,
    archive: Archive<D>,
    marks: Marks<N>,
    content_marks: Marks<OfArchive<N>>,
}

impl<D: Disk, N: Serving> Model for OpenedDepot<D, N> {
    ghost use Rattle.std.specs.Prelude.{◌++◌};
    ghost use Rattle.archive_file.specs.Archive.{disk_of as archive_disk_of};
    ghost use Rattle.disk_journal.specs.Stands.{disk_of};
    ghost use Rattle.shared_depot.specs.Common.{HasRunOrder, IsArchiveAfter, IsCountAfter, OpenedKnown};
    ghost use Rattle.shared_depot.specs.Stored.{is_lost, is_unwritten};

    ghost Value = { OpenedKnown };

    ghost view = { λ o. record { order = o.order; marks = o.marks.list ++ o.content_marks.list } };

    ghost invariant = { λ o. HasRunOrder D.says N.rows N.end N.images N.begins N.masters o.order o.tables o.journal ×
        IsArchiveAfter D.says N.end N.images N.begins o.order o.archive ×
        IsCountAfter is_unwritten N.faults (D.says.faults (disk_of o.journal)) o.order o.marks.list × IsCountAfter is_lost N.content_faults (D.says.faults (archive_disk_of o.archive)) o.order o.content_marks.list };
}

/// What a shared depot that is closed gives back.
#[derive(Drop)]
pub struct Closed<D: Disk> {
    /// The depot in files.
    pub depot: SerialDepot<D>,
    /// The places of all commands, in the order in which it ran them.
    pub order: Vec<Place>,
}

impl<D: Disk, N: Serving> SharedDepot<D, N> {
    /// Takes the depot out of its locks. What its order is, the passes of the parties tell.
    pub fn open(self) -> OpenedDepot<D, N> {
        let SharedDepot {
            words,
            tables: locks,
            archive,
            journal,
            common,
            mark_words,
            content_words,
        } = self;
        drop(locks);
        let StoredArchive {
            mut lane,
            archive,
            marks: content_marks,
        } = archive.into_inner();
        let WrittenJournal {
            lane: mut journal_lane,
            tables,
            journal,
            marks,
        } = journal.into_inner();
        let mut common = common.into_inner();
        common.learn_journal(&words, &mut journal_lane);
        let CommonDepot {
            mut order,
            tables: shown,
            ..
        } = common;
        order.learn_archive(&words, &mut lane);
        drop(shown);
        drop(journal_lane);
        drop(lane);
        OpenedDepot {
            words,
            mark_words,
            content_words,
            order,
            tables,
            journal,
            archive,
            marks,
            content_marks,
        }
    }
}

impl<D: Disk, N: Serving> OpenedDepot<D, N> {
    /// A party learns the whole order, which begins with what it knew; each of its own places was
    /// known to it, and so was each mark.
    pub fn hear(&mut self, pass: &mut PartyPass<N>, marks: &mut BothMarks<N>)
        ensures same { self.new ≡ self.old }
        ensures told { pass.new ≡ record pass.old { list = self.old.order } }
        ensures begins { IsPrefix pass.old.list self.old.order }
        ensures own { of_party pass.old.party self.old.order ≡ of_party pass.old.party pass.old.list }
        ensures marked { marks_of marks.old.party self.old.marks ≡ marks_of marks.old.party marks.old.list }
    {
        self.order.tell(&self.words, pass);
        self.marks.tell(&self.mark_words, &mut marks.journal);
        self.content_marks
            .tell(&self.content_words, &mut marks.archive);
    }

    /// Gives back the depot in files, which has run the order, and the order. It takes no memory.
    pub fn close(self) -> Closed<D>
        ensures order { result.order.items ≡ map place_of self.order }
        // Each place is of a party whose lane is one of the run's.
        ensures parties { AllByRecursion (λ taken. IsParty N.run taken.request.party) self.order }
        ensures can { CanTake D.says result.depot }
        ensures ran { (since : ℕ) (start : List Deed) → N.begins since start →
            HasRun D.says result.depot since start (map placed_of self.order) }
        // From each depot that replicas follow on, they follow it after the order.
        ensures followed { IsFollowed D.says N.begins N.masters self.order result.depot }
        ensures stored { HasAllStored D.says N.end N.images N.begins self.order result.depot.archive }
        // Each mark is of a party that may mark.
        ensures mark_parties { AllByRecursion
            (λ mark. MayMark N.marks mark.party ⊎ MayMark N.content_marks mark.party) self.marks }
        // The fault places and the marks together are at most as many as the counts of the two disks rose. Where there
        // is neither, the counts stand.
        ensures failures { HaveRisenBy (fault_count result.order.items + length self.marks) N.faults
            (D.says.faults (disk_of result.depot.journal)) N.content_faults
            (D.says.faults (archive_disk_of result.depot.archive)) }
        ensures stand { length self.marks ≡ 0 →
            StandWithoutFaults N.faults (D.says.faults (disk_of result.depot.journal)) N.content_faults
            (D.says.faults (archive_disk_of result.depot.archive)) [] result.order.items }
        ensures never_falls { N.faults ≤ D.says.faults (disk_of result.depot.journal) }
        ensures never_falls_contents { N.content_faults ≤ D.says.faults (archive_disk_of result.depot.archive) }
    {
        let OpenedDepot {
            words: _,
            mark_words: _,
            content_words: _,
            order,
            tables,
            journal,
            archive,
            marks,
            content_marks,
        } = self;
        order.parties_are_of_run();
        marks.parties_are_of_run();
        content_marks.parties_are_of_run();
        Closed {
            depot: SerialDepot::new(tables, journal, archive),
            order: order.into_places(),
        }
    }
}
