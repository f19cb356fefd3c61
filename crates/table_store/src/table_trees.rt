//! The trees of a draft that was changed.

ghost use Rattle.std.specs.Prelude.{◌≡◌, ◌≢◌, List, IfOk, IsTrue, OnOk, OnErr, ◌↔◌};
ghost use Rattle.std.specs.Option.{option_copied};
ghost use Rattle.db_records.specs.declared.record.Record.{Record};
ghost use Rattle.db_records.specs.declared.change.Op.TheVariants.{Remove};
ghost use Rattle.db_records.specs.Record.{table_of};
ghost use Rattle.table_store.specs.Rows.{AllOfTable, Fits, row_at, changed_once, with_rows};
ghost use Rattle.table_store.specs.Marks.{AllHavePlaces};

use crate::protections::read_protects;
use crate::row_order::{ByKey, ByMark};
use crate::search_key::{MarkRef, SearchKey};
use crate::shared_row::SharedRow;
use crate::tree::{Tree, fits};
use crate::version::Version;
use db_records::{Change, Key, Op, Record, TableId};
use std::alloc::{AllocError, Global};
use std::marker::Model;

/// The rows of one table, in trees that only one draft has.
///
/// A change is made in place where its page isn't shared with a version and keeps its first row. Else it
/// copies the handles of the rows of that page, and where the branch is shared, those of its pages. Rows
/// that come in the order of their keys are put behind the others without a search.
#[derive(Drop)]
pub(crate) struct TableTrees {
    table: TableId,
    tree: Tree<ByKey>,
    /// The rows that have marks, as in [`Version`].
    marked: Tree<ByMark>,
}

impl Model for TableTrees {
    ghost use Rattle.table_store.specs.Rows.{TableRows, AllOfTable};
    ghost use Rattle.table_store.specs.Marks.{AllHavePlaces};

    ghost Value = { TableRows };

    ghost view = { λ a. record { table = a.table; rows = a.tree } };

    ghost invariant = { λ a. AllOfTable a.table a.tree × AllHavePlaces a.marked a.tree };
}

impl TableTrees {
    /// The rows of the first tree, and the second one to find them by.
    pub(crate) fn new(table: TableId, tree: Tree<ByKey>, marked: Tree<ByMark>) -> TableTrees
        requires of_table { AllOfTable table tree }
        requires places { AllHavePlaces marked tree }
        ensures { result ≡ record { table = table; rows = tree } }
    {
        TableTrees {
            table,
            tree,
            marked,
        }
    }

    /// The table whose rows these are.
    pub(crate) fn table(&self) -> TableId
        ensures { result ≡ self.now.table }
    {
        self.table
    }

    /// The row that has the key.
    pub(crate) fn get(&self, key: &Key) -> Option<&Record>
        ensures { option_copied result ≡ row_at key.now self.now.rows }
    {
        self.tree.get(SearchKey::Given(key))
    }

    /// Whether a change fits these rows, as [`Version::fits`] says it of a version.
    pub(crate) fn fits(&self, change: &Change) -> bool
        ensures { IsTrue result ↔ Fits self.now change.now }
    {
        change.row.table() == self.table && fits(&self.tree, change)
    }

    /// Makes a change of a row of this table. The one error is want of memory, and then the rows stay as
    /// they were.
    pub(crate) fn change(
        &mut self,
        alloc: Global,
        op: Op,
        row: &SharedRow,
    ) -> Result<(), AllocError>
        requires { table_of row.now ≡ self.old.table }
        ensures ok { OnOk result (self.new ≡ with_rows self.old (changed_once self.old.rows (record { op = op; row = row.now }))) }
        ensures err { OnErr result (self.new ≡ self.old) }
    {
        if op != Op::Remove {
            change_place(&mut self.marked, alloc, op, row)?;
            return self.tree.change(alloc, op, row);
        }
        self.tree.change(alloc, Op::Remove, row)?;
        // Without memory for it the place stays: it costs a look-up, and finds nothing.
        if let Err(_) = change_place(&mut self.marked, alloc, Op::Remove, row) {}
        Ok(())
    }

    /// The version with these rows. The one error is want of memory.
    pub(crate) fn finish(self, alloc: Global) -> Result<Version, AllocError>
        ensures { IfOk result (λ version. version ≡ self) }
    {
        let protects = read_protects(alloc, self.table, self.tree.walk())?;
        Version::of_trees(alloc, self.table, self.tree, self.marked, protects)
    }
}

/// Makes a change among the rows that have marks. A row without one is none of them.
fn change_place(
    marked: &mut Tree<ByMark>,
    alloc: Global,
    op: Op,
    row: &SharedRow,
) -> Result<(), AllocError>
    ensures places { OnOk result ((rows : List Record) → AllHavePlaces marked.old rows → AllHavePlaces marked.new (changed_once rows (record { op = op; row = row.now }))) }
    ensures more { OnOk result (op ≢ Remove → (rows : List Record) → AllHavePlaces marked.old rows → AllHavePlaces marked.new rows) }
    ensures err { OnErr result (marked.new ≡ marked.old) }
{
    match MarkRef::of_row(row.row()) {
        Some(_) => marked.change(alloc, op, row),
        None => Ok(()),
    }
}
