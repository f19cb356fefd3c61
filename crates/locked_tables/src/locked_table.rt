//! What lies behind the lock of a table.
ghost use Rattle.std.specs.Prelude.{◌≡◌, []};
ghost use Rattle.depot_model.specs.db_records.Table.{table_number};
ghost use Rattle.order_words.specs.Seats.{fresh_lane};
ghost use Rattle.locked_tables.specs.Taken.{rows_after};

use crate::naming::Naming;
use crate::taken::Taken;
use depot_model::records::TableId;
use order_words::LaneSeat;
use std::marker::{Model, PhantomData};
use table_changes::tables::Version;

/// A version of a table, with the seat of the table's lane. Contracts see which table it is, and a
/// beginning of the order: the version is the table after these places, which are all that touch
/// it.
#[derive(Drop)]
pub struct LockedTable<N: Naming> {
    pub(crate) seat: LaneSeat<Taken>,
    pub(crate) version: Version,
    of: PhantomData<N>,
}

impl<N: Naming> Model for LockedTable<N> {
    ghost use Rattle.std.specs.Prelude.{◌≡◌};
    ghost use Rattle.depot_model.specs.db_records.Table.{table_number};
    ghost use Rattle.locked_tables.specs.Known.{TableKnown, at_rest};
    ghost use Rattle.locked_tables.specs.Taken.{rows_after};

    ghost Value = { TableKnown };

    ghost view = { λ t. record { table = t.version.table; list = t.seat.list } };

    ghost invariant = { λ t. (t.seat ≡ at_rest N.run (table_number t.version.table) t.seat.list) × (t.version.rows ≡ rows_after N.rows t.seat.list t.version.table) };
}

impl<N: Naming> LockedTable<N> {
    /// A table as it was when the order was empty.
    pub fn new(seat: LaneSeat<Taken>, version: Version) -> LockedTable<N>
        requires seat { seat ≡ fresh_lane N.run (table_number version.table) }
        requires rows { version.rows ≡ N.rows version.table }
        ensures { result ≡ record { table = version.table; list = [] } }
    {
        LockedTable {
            seat,
            version,
            of: PhantomData,
        }
    }

    /// Which table it is.
    pub fn table(&self) -> TableId
        ensures { result ≡ self.now.table }
    {
        self.version.table()
    }

    /// The version.
    pub fn version(&self) -> &Version
        ensures { result.now ≡ record { table = self.now.table; rows = rows_after N.rows self.now.list self.now.table } }
    {
        &self.version
    }
}
