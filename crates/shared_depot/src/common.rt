//! What lies behind the lock of the order.
ghost use Rattle.std.specs.Prelude.{◌≡◌, ◌-◌, List, []};
ghost use Rattle.depot_rows.specs.db_records.declared.table.TableId.{TableId};
ghost use Rattle.depot_rows.specs.table_changes.Changed.{rows_of};
ghost use Rattle.locked_tables.specs.Known.{GoesOnWithout};
ghost use Rattle.locked_tables.specs.Taken.{archive_lane, end_after};
ghost use Rattle.shared_depot.specs.Common.{GoesOnQuietly, WasRun};

use crate::serving::Serving;
use depot_rows::tables::Tables;
use locked_tables::{LockedArchive, LockedJournal, OrderWords, PlacedOrder};
use outside_api::Disk;
use std::marker::{Model, PhantomData};

/// The order of all places, and the tables after them. Some tables and a journal have run exactly the
/// commands of these places, and those at which nothing is written are the ones that don't touch the
/// journal's lane. Contracts see the order.
#[derive(Drop)]
pub(crate) struct CommonDepot<D: Disk, N: Serving> {
    pub(crate) order: PlacedOrder<N>,
    pub(crate) tables: Tables,
    of: PhantomData<D>,
}

impl<D: Disk, N: Serving> Model for CommonDepot<D, N> {
    ghost use Rattle.std.specs.Prelude.{List};
    ghost use Rattle.locked_tables.specs.declared.taken.Taken.{Taken};
    ghost use Rattle.shared_depot.specs.Common.{KeepsOrder};

    ghost Value = { List Taken };

    ghost view = { λ c. c.order };

    ghost invariant = { λ c. KeepsOrder D.says N.rows N.end N.images N.begins N.masters c.order c.tables };
}

impl<D: Disk, N: Serving> CommonDepot<D, N> {
    /// An order without a place, and tables that have run none, as others did with a journal.
    pub(crate) fn new(order: PlacedOrder<N>, tables: Tables) -> CommonDepot<D, N>
        requires order { order ≡ [] }
        requires rows { (table : TableId) → rows_of tables table ≡ N.rows table }
        requires run { WasRun D.says N.rows N.end N.images N.begins N.masters [] }
        ensures { result ≡ [] }
    {
        CommonDepot {
            order,
            tables,
            of: PhantomData,
        }
    }

    /// The archive's lane learns the whole order, behind whose places that it knew none touches it.
    pub(crate) fn learn_archive(&mut self, words: &OrderWords<N>, lane: &mut LockedArchive<N>)
        ensures same { self.new ≡ self.old }
        ensures learnt { lane.new ≡ self.old }
        ensures behind { GoesOnWithout archive_lane lane.old self.old }
        ensures end { end_after N.end self.old ≡ end_after N.end lane.old }
    {
        self.order.learn_archive(words, lane);
    }

    /// The journal's lane learns the whole order, behind whose places that it knew none touches it: at
    /// those nothing was written.
    pub(crate) fn learn_journal(&mut self, words: &OrderWords<N>, lane: &mut LockedJournal<N>)
        ensures same { self.new ≡ self.old }
        ensures learnt { lane.new ≡ self.old }
        ensures on { GoesOnQuietly D.says N.rows N.end N.images N.begins lane.old self.old }
    {
        self.order.learn_journal(words, lane);
    }
}
