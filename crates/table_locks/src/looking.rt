//! How a command looks at the tables of its set whose locks it doesn't take.
ghost use Rattle.std.specs.Prelude.{◌≡◌, [], ◌∷◌, true, false, filter, IsTrue, OnOk};
ghost use Rattle.command_needs.specs.Sets.{AreOfWords};
ghost use Rattle.depot_model.specs.db_records.Table.{all_tables};
ghost use Rattle.depot_model.specs.db_records.declared.table.TableId.{TableId as AnyTable};
ghost use Rattle.depot_model.specs.declared.request.Request.{Request};
ghost use Rattle.locked_tables.specs.Taken.{rows_after};
ghost use Rattle.table_changes.specs.Changed.{rows_of};
ghost use Rattle.table_locks.specs.Gathered.{AddsPeeks, Covers, IsShown, has_table, tables_held, tables_seen};
ghost use Rattle.table_locks.specs.Ways.{holds_table, looks_at};

use crate::gathered::Gathered;
use crate::ways::is_looked_at;
use command_needs::Needs;
use depot_model::records::TableId;
use locked_tables::{Naming, OrderWords, PlacedOrder};
use std::alloc::AllocError;
use table_changes::tables::Tables;

impl<'a, N: Naming> Gathered<'a, N> {
    /// Looks at the next table, where the set asks for it.
    fn look_next(
        &mut self,
        words: &OrderWords<N>,
        order: &mut PlacedOrder<N>,
        tables: &Tables,
        needs: &Needs,
        whole: bool,
        table: TableId,
    ) -> Result<(), AllocError>
        requires rows { rows_of tables.now table ≡ rows_after N.rows order.old table }
        requires shown { IsShown N.rows self.old }
        requires apart { looks_at whole needs.now table ≡ true → has_table self.old table ≡ false }
        ensures same { order.new ≡ order.old }
        ensures held { self.new.held ≡ self.old.held }
        ensures end { self.new.tables.archive_end ≡ self.old.tables.archive_end }
        ensures seen { OnOk result (AddsPeeks N.rows (filter (looks_at whole needs.now) (table ∷ [])) self.old self.new) }
    {
        if is_looked_at(needs, whole, table) {
            return self.peek(words, order, tables, table);
        }
        Ok(())
    }

    /// Looks at the tables of the set whose locks `gather` didn't take, as they are after the whole
    /// order. What it has then is a version of each table of the set. The error stands for want of
    /// memory, or for too many shares.
    pub fn look(
        &mut self,
        words: &OrderWords<N>,
        order: &mut PlacedOrder<N>,
        tables: &Tables,
        needs: &Needs,
        whole: bool,
    ) -> Result<(), AllocError>
        requires rows { (table : AnyTable) → rows_of tables.now table ≡ rows_after N.rows order.old table }
        requires shown { IsShown N.rows self.old }
        requires held { tables_held self.old ≡ filter (holds_table whole needs.now) all_tables }
        requires unseen { self.old.peeks.items ≡ [] }
        ensures same { order.new ≡ order.old }
        ensures kept { self.new.held ≡ self.old.held }
        ensures end { self.new.tables.archive_end ≡ self.old.tables.archive_end }
        ensures shown { OnOk result (IsShown N.rows self.new) }
        ensures held { OnOk result (tables_held self.new ≡ filter (holds_table whole needs.now) all_tables) }
        ensures seen { OnOk result (tables_seen self.new ≡ filter (looks_at whole needs.now) all_tables) }
        ensures alone { OnOk result (IsTrue whole → self.new.peeks.items ≡ []) }
        ensures covers { OnOk result ((request : Request) → AreOfWords request.command needs.now →
            Covers self.new request) }
    {
        for table in TableId::ALL {
            self.look_next(words, order, tables, needs, whole, table)?;
        }
        Ok(())
    }
}
