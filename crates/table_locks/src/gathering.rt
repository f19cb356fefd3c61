//! How a command takes the locks of its set.
ghost use Rattle.std.specs.Prelude.{◌≡◌, [], ◌∷◌, false, filter, IfOk, OnOk};
ghost use Rattle.depot_model.specs.db_records.Table.{all_tables};
ghost use Rattle.table_locks.specs.Gathered.{AddsHeld, IsShown, has_table, tables_held};
ghost use Rattle.table_locks.specs.Ways.{holds_table};

use crate::gathered::Gathered;
use crate::ways::is_taken;
use command_needs::Needs;
use depot_model::records::TableId;
use locked_tables::{Naming, TableLocks};
use std::alloc::{AllocError, Global};
use std::sync::Wait;

impl<'a, N: Naming> Gathered<'a, N> {
    /// Takes the lock of the next table, where the set asks for it.
    fn take(
        &mut self,
        rt: &impl Wait,
        locks: &'a TableLocks<N>,
        needs: &Needs,
        whole: bool,
        table: TableId,
    ) -> Result<(), AllocError>
        requires shown { IsShown N.rows self.old }
        requires apart { has_table self.old table ≡ false }
        ensures { OnOk result (AddsHeld N.rows (filter (holds_table whole needs.now) (table ∷ [])) self.old self.new) }
    {
        if is_taken(needs, whole, table) {
            return self.hold(rt, locks, table);
        }
        Ok(())
    }
}

/// Takes the locks of the tables of a set that are written, in the order of `TableId`; where the
/// whole set is to be held, that of each. At the others `Gathered::look` looks later. The error stands for
/// want of memory, or is one that `TableLocks::hold` names.
pub fn gather<'a, N: Naming>(
    rt: &impl Wait,
    alloc: Global,
    locks: &'a TableLocks<N>,
    needs: &Needs,
    whole: bool,
) -> Result<Gathered<'a, N>, AllocError>
    ensures shown { IfOk result (IsShown N.rows) }
    ensures held { IfOk result (λ gathered. tables_held gathered ≡ filter (holds_table whole needs.now) all_tables) }
    ensures unseen { IfOk result (λ gathered. gathered.peeks.items ≡ []) }
{
    let mut gathered = Gathered::empty(alloc)?;
    for table in TableId::ALL {
        gathered.take(rt, locks, needs, whole, table)?;
    }
    Ok(gathered)
}
