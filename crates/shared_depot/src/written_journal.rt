//! What lies behind the lock of the journal.
ghost use Rattle.std.specs.Prelude.{◌≡◌, [], IfOk};
ghost use Rattle.depot_rows.specs.table_changes.Changed.{rows_of};
ghost use Rattle.disk_journal.specs.Stands.{disk_of};
ghost use Rattle.shared_depot.specs.Common.{HasRunOrder};

use crate::common::CommonDepot;
use crate::serving::Serving;
use depot_rows::changes::change_tables;
use depot_rows::tables::Tables;
use disk_journal::Journal;
use locked_tables::{LockedJournal, OrderWords};
use outside_api::Disk;
use party_marks::Marks;
use std::alloc::{AllocError, Global};
use std::marker::Model;

/// The journal and the tables, which have run a beginning of the order behind which nothing was written,
/// with the seat of the journal's lane, and the marks of parties that were told that the journal's disk
/// failed: the count of the disk has risen for each of these, and for each place at which it failed.
/// Contracts see that beginning.
#[derive(Drop)]
pub(crate) struct WrittenJournal<D: Disk, N: Serving> {
    pub(crate) lane: LockedJournal<N>,
    pub(crate) tables: Tables,
    pub(crate) journal: Journal<D>,
    pub(crate) marks: Marks<N>,
}

impl<D: Disk, N: Serving> Model for WrittenJournal<D, N> {
    ghost use Rattle.std.specs.Prelude.{List};
    ghost use Rattle.disk_journal.specs.Stands.{disk_of};
    ghost use Rattle.locked_tables.specs.declared.taken.Taken.{Taken};
    ghost use Rattle.shared_depot.specs.Common.{HasRunOrder, IsCountAfter};
    ghost use Rattle.shared_depot.specs.Stored.{is_unwritten};

    ghost Value = { List Taken };

    ghost view = { λ w. w.lane };

    ghost invariant = { λ w. HasRunOrder D.says N.rows N.end N.images N.begins N.masters w.lane w.tables w.journal ×
        IsCountAfter is_unwritten N.faults (D.says.faults (disk_of w.journal)) w.lane w.marks.list };
}

/// The tables once more. The one error is want of memory.
pub(crate) fn share_tables(alloc: Global, tables: &Tables) -> Result<Tables, AllocError>
    ensures { IfOk result (λ shared. rows_of shared ≡ rows_of tables.now) }
{
    change_tables(alloc, tables, &[])
}

impl<D: Disk, N: Serving> WrittenJournal<D, N> {
    /// A journal and tables that have run no place, where there is no mark.
    pub(crate) fn new(
        lane: LockedJournal<N>,
        tables: Tables,
        journal: Journal<D>,
        marks: Marks<N>,
    ) -> WrittenJournal<D, N>
        requires lane { lane ≡ [] }
        requires marks { marks.list ≡ [] }
        requires run { HasRunOrder D.says N.rows N.end N.images N.begins N.masters [] tables journal }
        requires count { D.says.faults (disk_of journal) ≡ N.faults }
        ensures { result ≡ [] }
    {
        WrittenJournal {
            lane,
            tables,
            journal,
            marks,
        }
    }

    /// The journal's lane learns the whole order, behind whose places that it knew nothing was written.
    pub(crate) fn learn(&mut self, words: &OrderWords<N>, common: &mut CommonDepot<D, N>)
        ensures same { common.new ≡ common.old }
        ensures learnt { self.new ≡ common.old }
    {
        common.learn_journal(words, &mut self.lane);
    }
}
