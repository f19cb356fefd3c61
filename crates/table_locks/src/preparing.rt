//! What a command prepares before it is given its place.
ghost use Rattle.std.specs.Prelude.{◌≡◌, ◌==◌, List, IfOk, IsTrue, OnOk};
ghost use Rattle.depot_model.specs.db_records.Record.{table_of};
ghost use Rattle.depot_model.specs.db_records.Table.{table_number};
ghost use Rattle.depot_model.specs.db_records.declared.table.TableId.{TableId as AnyTable};
ghost use Rattle.locked_tables.specs.Held.{known_of};
ghost use Rattle.locked_tables.specs.Taken.{rows_after};
ghost use Rattle.locked_tables.specs.declared.taken.Taken.{Taken};
ghost use Rattle.table_changes.specs.Changed.{AllFitIn, AllRows, changed_by, rows_of};
ghost use Rattle.table_locks.specs.Confirmed.{IsConfirmed, tables_of};
ghost use Rattle.table_locks.specs.Gathered.{is_of};
ghost use Rattle.table_locks.specs.Prepared.{FollowFrom, Follows, IsPrepared, are_held, is_changed, is_held};
ghost use Rattle.table_locks.specs.declared.gathered.Gathered.{Gathered};

use crate::confirmed::Confirmed;
use depot_model::records::{Change, TableId};
use locked_tables::{HeldTable, Naming};
use std::alloc::AllocError;
use table_changes::tables::Tables;

/// Whether a change is of a row of the table.
fn is_of_row(change: &Change, table: TableId) -> bool
    ensures { result ≡ (table_number (table_of change.now.row) == table_number table) }
{
    change.row.table().number() == table.number()
}

/// Whether one of the changes is.
fn changes_table(changes: &[Change], table: TableId) -> bool
    ensures { result ≡ is_changed changes.now table }
{
    changes.iter().any(|change| is_of_row(change, table))
}

/// Whether it is this table.
fn is_of_table<N: Naming>(held: &HeldTable<'_, N>, table: TableId) -> bool
    ensures { result ≡ is_of table (known_of held.now) }
{
    held.guard.table().number() == table.number()
}

/// A held table of which a row changes gets the version that is to follow. The one error is that
/// there are too many shares.
fn follow<N: Naming>(
    held: &mut HeldTable<'_, N>,
    after: &Tables,
    changes: &[Change],
) -> Result<(), AllocError>
    ensures { OnOk result (Follows (rows_of after.now) changes.now held.old held.new) }
{
    let table = held.guard.table();
    held.next = None;
    if changes_table(changes, table) {
        held.next = Some(after.version(table).share()?);
    }
    Ok(())
}

/// So does each of them from an index on.
fn follow_from<N: Naming>(
    held: &mut [HeldTable<'_, N>],
    after: &Tables,
    changes: &[Change],
    from: usize,
) -> Result<(), AllocError>
    ensures { OnOk result (FollowFrom from (rows_of after.now) changes.now held.old held.new) }
{
    if from < held.len() {
        follow(&mut held[from], after, changes)?;
        return follow_from(held, after, changes, from + 1);
    }
    Ok(())
}

impl<'a, N: Naming> Confirmed<'a, N> {
    /// Whether a table is held.
    fn holds_table(&self, table: TableId) -> bool
        ensures { result ≡ is_held self.now.held.items table }
    {
        self.held.iter().any(|held| is_of_table(held, table))
    }

    /// Whether that of each change is.
    fn holds_each(&self, changes: &[Change]) -> bool
        ensures { result ≡ are_held self.now.held.items changes.now }
    {
        changes
            .iter()
            .all(|change| self.holds_table(change.row.table()))
    }

    /// Whether the table of each change is held. Changes that fit the versions that were gathered
    /// then fit the tables as they are after the whole order.
    pub fn holds(&self, changes: &[Change]) -> bool
        ensures held { result ≡ are_held self.now.held.items changes.now }
        ensures fit { IsTrue result → (start : AllRows) (order : List Taken) (gathered : Gathered N) →
            IsConfirmed start order gathered self.now →
            AllFitIn (rows_of self.now.tables) changes.now → AllFitIn (rows_after start order) changes.now }
    {
        self.holds_each(changes)
    }

    /// Prepares changes of tables that are held, and gives these tables: each of which a row changes
    /// has the version that it has in `after` as the one that is to follow. Where those are the tables
    /// after the whole order and then the changes, the command can be given its place. The one error is
    /// that there are too many shares.
    pub fn prepare(
        self,
        after: &Tables,
        changes: &[Change],
    ) -> Result<Vec<HeldTable<'a, N>>, AllocError>
        requires held { IsTrue (are_held self.held.items changes.now) }
        ensures prepared { IfOk result (λ prepared. (order : List Taken) (gathered : Gathered N) →
            IsConfirmed N.rows order gathered self.entry →
            ((table : AnyTable) → rows_of after.now table ≡ changed_by (rows_after N.rows order) changes.now table) →
            IsPrepared N.rows changes.now prepared.items) }
        ensures held { IfOk result (λ prepared. tables_of prepared.items ≡ tables_of self.entry.held.items) }
    {
        let Confirmed { mut held, tables } = self;
        drop(tables);
        follow_from(held.as_mut_slice(), after, changes, 0)?;
        Ok(held)
    }
}
