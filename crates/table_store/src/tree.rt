//! The tree of a table: branches, one after another.

ghost use Rattle.std.specs.Prelude.{◌≡◌, ◌↔◌, [], IfOk, IsTrue, OnOk, OnErr};
ghost use Rattle.std.specs.Option.{option_copied};
ghost use Rattle.db_records.specs.Record.{key_of};
ghost use Rattle.table_store.specs.Places.{StandsRising, placed_once, standing_at, standing_from};
ghost use Rattle.table_store.specs.Rows.{FitsAt, row_at};
ghost use Rattle.table_store.specs.SearchKey.{sought_place};

use crate::branch::Branch;
use crate::node::{SharedNode, change_nodes, end_below, nodes_up_to, share_nodes};
use crate::row_order::{ByKey, RowOrder};
use crate::search_key::SearchKey;
use crate::shared_row::SharedRow;
use crate::walk::Walk;
use db_records::{Change, Op, Record};
use std::alloc::{AllocError, Global};
use std::marker::Model;

/// Branches, one after another in an order of rows.
#[derive(Drop)]
pub(crate) struct Tree<O: RowOrder> {
    list: Vec<SharedNode<Branch<O>>>,
}

impl<O: RowOrder> Model for Tree<O> {
    ghost use Rattle.std.specs.Prelude.{List};
    ghost use Rattle.db_records.specs.declared.record.Record.{Record};
    ghost use Rattle.table_store.specs.Nodes.{rows_of, AreNodes};

    ghost Value = { List Record };

    ghost view = { λ a. rows_of a.list.items };

    ghost invariant = { λ a. AreNodes O.place a.list.items };
}

impl<O: RowOrder> Tree<O> {
    /// No branches.
    pub(crate) fn empty(alloc: Global) -> Tree<O>
        ensures { result ≡ [] }
    {
        Tree {
            list: Vec::new(alloc),
        }
    }

    /// The same branches, shared.
    pub(crate) fn share(&self, alloc: Global) -> Result<Tree<O>, AllocError>
        ensures { IfOk result (λ tree. tree ≡ self.now) }
    {
        Ok(Tree {
            list: share_nodes(alloc, &self.list)?,
        })
    }

    /// The rows stand in their order.
    pub(crate) fn rows_rise(&self)
        ensures { StandsRising O.place self.now }
    {
        let _list = &self.list;
    }

    /// The row that is looked for.
    pub(crate) fn get(&self, sought: SearchKey<'_>) -> Option<&Record>
        ensures { option_copied result ≡ standing_at O.place (sought_place O.place sought.entry) self.now }
    {
        let count = nodes_up_to(&self.list, sought);
        if count == 0 {
            return None;
        }
        self.list[count - 1].node().get(sought)
    }

    /// All rows.
    pub(crate) fn walk(&self) -> Walk<'_, O>
        ensures { result ≡ self.now }
    {
        Walk::new(&[], &[], &self.list)
    }

    /// The rows from the first at or above what is looked for.
    pub(crate) fn walk_from(&self, sought: SearchKey<'_>) -> Walk<'_, O>
        ensures { result ≡ standing_from O.place (sought_place O.place sought.entry) self.now }
    {
        let count = nodes_up_to(&self.list, sought);
        if count == 0 {
            return self.walk();
        }
        let (rows, pages) = self.list[count - 1].node().from_key(sought);
        Walk::new(rows, pages, &self.list[count..])
    }

    /// Makes a change: in the branch of its row, where that isn't shared.
    pub(crate) fn change(
        &mut self,
        alloc: Global,
        op: Op,
        row: &SharedRow,
    ) -> Result<(), AllocError>
        ensures ok { OnOk result (self.new ≡ placed_once O.place self.old op row.now) }
        ensures err { OnErr result (self.new ≡ self.old) }
    {
        change_nodes(&mut self.list, alloc, op, row)
    }
}

/// Whether a change fits the rows of a tree: a Put of an absent key, a Replace of a present key, or a
/// Remove of a row that is there as given.
pub(crate) fn fits(tree: &Tree<ByKey>, change: &Change) -> bool
    ensures { IsTrue result ↔ FitsAt change.now.op change.now.row (row_at (key_of change.now.row) tree.now) }
{
    if end_below(&tree.list, &change.row) {
        return change.op == Op::Put;
    }
    let there = tree.get(SearchKey::OfRow(&change.row));
    match change.op {
        Op::Put => there.is_none(),
        Op::Replace => there.is_some(),
        Op::Remove => match there {
            Some(row) => row.same(&change.row),
            None => false,
        },
    }
}
