//! What a command has gathered of its set.
ghost use Rattle.std.specs.Prelude.{◌≡◌, ◌≤◌, ◌-◌, ◌^◌, [], ◌∷◌, false, IfOk, OnOk};
ghost use Rattle.depot_model.specs.db_records.declared.table.TableId.{TableId as AnyTable};
ghost use Rattle.depot_model.specs.declared.request.Request.{Request};
ghost use Rattle.locked_tables.specs.Taken.{rows_after};
ghost use Rattle.table_changes.specs.Changed.{rows_of};
ghost use Rattle.table_changes.specs.table_store.Tables.{version_of};
ghost use Rattle.table_locks.specs.Gathered.{AddsHeld, AddsPeeks, Covers, IsShown, has_table};

use depot_model::records::TableId;
use locked_tables::{HeldTable, Naming, OrderWords, Peek, PlacedOrder, TableLocks};
use std::alloc::{AllocError, Global};
use std::sync::Wait;
use table_changes::tables::Tables;

/// The tables whose locks a command has taken, those that it looked at, and the version of each
/// of them. The tables outside its set have no rows here.
#[derive(Drop)]
pub struct Gathered<'a, N: Naming> {
    pub(crate) held: Vec<HeldTable<'a, N>>,
    pub(crate) peeks: Vec<Peek<N>>,
    pub(crate) tables: Tables,
}

impl<'a, N: Naming> Gathered<'a, N> {
    /// Nothing yet. The one error is want of memory.
    pub(crate) fn empty(alloc: Global) -> Result<Gathered<'a, N>, AllocError>
        ensures { IfOk result (λ gathered. (gathered.held.items ≡ []) × (gathered.peeks.items ≡ [])) }
    {
        Ok(Gathered {
            held: Vec::new(alloc),
            peeks: Vec::new(alloc),
            tables: Tables::empty(alloc)?,
        })
    }

    /// The tables over which the command is evaluated.
    pub fn tables(&self) -> &Tables
        ensures { result.now ≡ self.now.tables }
    {
        &self.tables
    }

    /// Sets how many bytes of the archive are used. All else stays.
    pub fn set_archive_end(&mut self, used: u64)
        requires { used ≤ 2 ^ 63 - 1 }
        ensures end { self.new.tables.archive_end ≡ used }
        ensures versions { (table : AnyTable) → version_of self.new.tables table ≡ version_of self.old.tables table }
        ensures same { (self.new.held ≡ self.old.held) × (self.new.peeks ≡ self.old.peeks) }
        ensures shown { IsShown N.rows self.old → IsShown N.rows self.new }
        ensures covers { (request : Request) → Covers self.old request → Covers self.new request }
    {
        self.tables.set_archive_end(used);
    }

    /// Takes the lock of a table that it doesn't have yet. The error is that of `TableLocks::hold`,
    /// or stands for want of memory.
    pub(crate) fn hold(
        &mut self,
        rt: &impl Wait,
        locks: &'a TableLocks<N>,
        table: TableId,
    ) -> Result<(), AllocError>
        requires shown { IsShown N.rows self.old }
        requires apart { has_table self.old table ≡ false }
        ensures { OnOk result (AddsHeld N.rows (table ∷ []) self.old self.new) }
    {
        let held = locks.hold(rt, table)?;
        let version = held.guard.version().share()?;
        self.held.push(held)?;
        self.tables.put(version);
        Ok(())
    }

    /// Looks at a table that it doesn't have yet, as it is after the whole order. The error stands
    /// for want of memory, or for too many shares.
    pub(crate) fn peek(
        &mut self,
        words: &OrderWords<N>,
        order: &mut PlacedOrder<N>,
        tables: &Tables,
        table: TableId,
    ) -> Result<(), AllocError>
        requires rows { rows_of tables.now table ≡ rows_after N.rows order.old table }
        requires shown { IsShown N.rows self.old }
        requires apart { has_table self.old table ≡ false }
        ensures same { order.new ≡ order.old }
        ensures held { self.new.held ≡ self.old.held }
        ensures end { self.new.tables.archive_end ≡ self.old.tables.archive_end }
        ensures seen { OnOk result (AddsPeeks N.rows (table ∷ []) self.old self.new) }
    {
        let now = tables.version(table);
        let peek = order.look(words, now)?;
        let version = peek.version().share()?;
        self.peeks.push(peek)?;
        self.tables.put(version);
        Ok(())
    }
}
