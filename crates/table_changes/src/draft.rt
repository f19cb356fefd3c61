//! Drafts of all tables.

ghost use Rattle.std.specs.Prelude.{◌≡◌, ◌≤◌, ◌-◌, ◌^◌, ◌↔◌, IfOk, IsTrue, OnOk, OnErr};
ghost use Rattle.table_changes.specs.InOrder.{all_numbers, numbers_of};

use std::alloc::{AllocError, Global};
use table_store::records::{Change, TableId};
use table_store::{Draft, Tables};

/// The rows of all tables, changed one after another until they are tables, and how many bytes of the
/// archive are used.
#[derive(Drop)]
pub struct TablesDraft {
    /// A draft of each table, at the place that is the table's number.
    drafts: Vec<Draft>,
    archive_end: u64,
    ghost in_order: { numbers_of drafts.items ≡ all_numbers },
    ghost end_fits: { archive_end ≤ 2 ^ 63 - 1 },
}

impl TablesDraft {
    ghost use Rattle.table_store.specs.db_records.declared.table.TableId.{TableId};
    ghost use Rattle.table_changes.specs.Changed.{FitsIn, changed_in, rows_of};
    ghost use Rattle.table_changes.specs.Drafts.{draft_of, rows_of_draft};

    /// A draft that begins with the rows of these tables. The one error is want of memory.
    pub fn of(alloc: Global, tables: &Tables) -> Result<TablesDraft, AllocError>
        ensures rows { IfOk result (λ draft. rows_of_draft draft ≡ rows_of tables.now) }
        ensures end { IfOk result (λ draft. draft.archive_end ≡ tables.now.archive_end) }
    {
        let mut drafts = Vec::new(alloc);
        for table in TableId::ALL {
            drafts.push(tables.version(table).draft()?)?;
        }
        Ok(TablesDraft {
            drafts,
            archive_end: tables.archive_end(),
        })
    }

    /// The draft of a table.
    fn draft(&self, table: TableId) -> &Draft
        ensures rows { result.now ≡ draft_of self.now table }
        ensures table { result.now.table ≡ table }
    {
        &self.drafts[table.number()]
    }

    /// Whether a change fits these rows: a Put of an absent key, a Replace of a present key, or a
    /// Remove of a row that is there as given, in the table of its row.
    pub fn fits(&self, change: &Change) -> bool
        ensures { IsTrue result ↔ FitsIn (rows_of_draft self.now) change.now }
    {
        self.draft(change.row.table()).fits(change)
    }

    /// Makes a copy of a change that fits. The one error is want of memory, and then the rows stay as they
    /// were.
    pub fn change(&mut self, alloc: Global, change: &Change) -> Result<(), AllocError>
        requires { FitsIn (rows_of_draft self.old) change.now }
        ensures ok { OnOk result (rows_of_draft self.new ≡ changed_in (rows_of_draft self.old) change.now) }
        ensures err { OnErr result (rows_of_draft self.new ≡ rows_of_draft self.old) }
        ensures end { self.new.archive_end ≡ self.old.archive_end }
    {
        self.take(alloc, change.copy()?)
    }

    /// Makes a change that fits, and keeps its row. The one error is want of memory, and then the rows
    /// stay as they were.
    pub fn take(&mut self, alloc: Global, change: Change) -> Result<(), AllocError>
        requires { FitsIn (rows_of_draft self.old) change }
        ensures ok { OnOk result (rows_of_draft self.new ≡ changed_in (rows_of_draft self.old) change) }
        ensures err { OnErr result (rows_of_draft self.new ≡ rows_of_draft self.old) }
        ensures end { self.new.archive_end ≡ self.old.archive_end }
    {
        self.drafts[change.row.table().number()].take(alloc, change)
    }

    /// The tables with these rows. The one error is want of memory.
    pub fn finish(self, alloc: Global) -> Result<Tables, AllocError>
        ensures rows { IfOk result (λ tables. rows_of tables ≡ rows_of_draft self) }
        ensures end { IfOk result (λ tables. tables.archive_end ≡ self.archive_end) }
    {
        let mut tables = Tables::empty(alloc)?;
        for draft in self.drafts {
            tables.put(draft.finish(alloc)?);
        }
        tables.set_archive_end(self.archive_end);
        Ok(tables)
    }
}
