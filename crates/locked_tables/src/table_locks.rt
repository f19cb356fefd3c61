//! The locks of all tables.
ghost use Rattle.std.specs.Prelude.{◌≡◌, None, IfOk};
ghost use Rattle.std.specs.List.{AllByRecursion};
ghost use Rattle.depot_model.specs.db_records.declared.table.TableId.{TableId as AnyTable};
ghost use Rattle.table_changes.specs.Changed.{rows_of};
ghost use Rattle.locked_tables.specs.Held.{table_held};
ghost use Rattle.locked_tables.specs.Known.{IsSeatOfTable};

use crate::held_table::HeldTable;
use crate::locked_table::LockedTable;
use crate::naming::Naming;
use crate::taken::Taken;
use depot_model::records::TableId;
use order_words::LaneSeat;
use std::alloc::{AllocError, Global};
use std::sync::{Mutex, Wait};
use table_changes::tables::Tables;

/// The lock of each table, in the order of the tables' numbers. Who takes several takes them in
/// that order.
#[derive(Drop)]
pub struct TableLocks<N: Naming> {
    locks: Vec<Mutex<LockedTable<N>>>,
}

impl<N: Naming> TableLocks<N> {
    /// The tables as they are when the order is empty, with the seats of their lanes in rising
    /// order. The one error is want of memory.
    pub fn new(
        alloc: Global,
        seats: Vec<LaneSeat<Taken>>,
        tables: &Tables,
    ) -> Result<TableLocks<N>, AllocError>
        requires seats { AllByRecursion (IsSeatOfTable N.run) seats.items }
        requires rows { (table : AnyTable) → rows_of tables.now table ≡ N.rows table }
    {
        let mut locks = Vec::new(alloc);
        for seat in seats {
            let table = TableId::ALL[seat.lane() as usize];
            let version = tables.version(table).share()?;
            locks.push(Mutex::new(LockedTable::new(seat, version)))?;
        }
        Ok(TableLocks { locks })
    }

    /// Takes the lock of a table. Of what lies behind a lock no contract knows more than its type
    /// says, so that the table is looked at; the error stands for another one, which `new` puts
    /// behind no lock where it is given a seat for each table.
    pub fn hold(&self, rt: &impl Wait, table: TableId) -> Result<HeldTable<'_, N>, AllocError>
        ensures { IfOk result (λ held. (table_held held ≡ table) × (held.next ≡ None)) }
    {
        let lock = self.locks.get(table.number()).ok_or(AllocError)?;
        let guard = lock.lock(rt);
        if guard.table() != table {
            return Err(AllocError);
        }
        Ok(HeldTable { guard, next: None })
    }
}
