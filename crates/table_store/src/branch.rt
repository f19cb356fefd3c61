//! Branches: pages, one after another.

ghost use Rattle.std.specs.Prelude.{◌≡◌, ◌++◌};
ghost use Rattle.std.specs.Option.{option_copied};
ghost use Rattle.table_store.specs.Places.{standing_at, standing_from};
ghost use Rattle.table_store.specs.Nodes.{rows_of, AllFilled};
ghost use Rattle.table_store.specs.SearchKey.{sought_place};

use crate::node::{
    Node, Parts, SharedNode, change_nodes, end_below, nodes_up_to, push_row, share_nodes,
};
use crate::page::Page;
use crate::row_order::RowOrder;
use crate::search_key::SearchKey;
use crate::shared_row::SharedRow;
use db_records::{Op, Record};
use std::alloc::{AllocError, Global};
use std::cmp::Ordering;
use std::marker::Model;

/// The number of pages at which a branch is parted.
const BRANCH_PAGES: usize = 256;

/// Pages of rows, one after another in an order.
#[derive(Drop)]
pub(crate) struct Branch<O: RowOrder> {
    list: Vec<SharedNode<Page<O>>>,
}

impl<O: RowOrder> Model for Branch<O> {
    ghost use Rattle.std.specs.Prelude.{List};
    ghost use Rattle.db_records.specs.declared.record.Record.{Record};
    ghost use Rattle.table_store.specs.Nodes.{rows_of, AreNodes};

    ghost Value = { List Record };

    ghost view = { λ a. rows_of a.list.items };

    ghost invariant = { λ a. AreNodes O.place a.list.items };
}

impl<O: RowOrder> Branch<O> {
    /// The row that is looked for.
    pub(crate) fn get(&self, sought: SearchKey<'_>) -> Option<&Record>
        ensures { option_copied result ≡ standing_at O.place (sought_place O.place sought.entry) self.now }
    {
        let count = nodes_up_to(&self.list, sought);
        if count == 0 {
            return None;
        }
        self.list[count - 1].node().get(sought)
    }

    /// The rows of one page from the first at or above what is looked for, and the pages behind it.
    pub(crate) fn from_key(&self, sought: SearchKey<'_>) -> (&[SharedRow], &[SharedNode<Page<O>>])
        ensures rows { result.0.now ++ rows_of result.1.now ≡ standing_from O.place (sought_place O.place sought.entry) self.now }
        ensures filled { AllFilled result.1.now }
    {
        let count = nodes_up_to(&self.list, sought);
        if count == 0 {
            return (&[], &self.list);
        }
        (
            self.list[count - 1].node().rows_from(sought),
            &self.list[count..],
        )
    }

    /// The pages.
    pub(crate) fn list(&self) -> &[SharedNode<Page<O>>]
        ensures rows { rows_of result.now ≡ self.now }
        ensures filled { AllFilled result.now }
    {
        &self.list
    }
}

impl<O: RowOrder> Node for Branch<O> {
    type Order = O;

    ghost rows = { λ branch. branch };

    fn of_row(alloc: Global, row: &SharedRow) -> Result<Branch<O>, AllocError> {
        let mut list = Vec::new(alloc);
        push_row(&mut list, alloc, row)?;
        Ok(Branch { list })
    }

    fn first_order(&self, sought: SearchKey<'_>) -> Ordering {
        match self.list.first() {
            Some(page) => page.node().first_order(sought),
            None => Ordering::Less,
        }
    }

    fn ends_below(&self, row: &Record) -> bool {
        end_below(&self.list, row)
    }

    fn is_empty(&self) -> bool {
        self.list.is_empty()
    }

    /// Makes a change, if the branch has fewer pages than one that is parted, and tells whether it did.
    fn change_within(
        &mut self,
        alloc: Global,
        op: Op,
        row: &SharedRow,
    ) -> Result<bool, AllocError> {
        if self.list.len() >= BRANCH_PAGES {
            return Ok(false);
        }
        change_nodes(&mut self.list, alloc, op, row)?;
        Ok(true)
    }

    fn ends_before(&self, op: Op, row: &SharedRow) -> bool {
        op == Op::Put && self.list.len() >= BRANCH_PAGES && end_below(&self.list, row.row())
    }

    /// The branches share all pages but that of the row.
    fn changed(
        &self,
        alloc: Global,
        op: Op,
        row: &SharedRow,
    ) -> Result<Parts<Branch<O>>, AllocError> {
        let mut list = share_nodes(alloc, &self.list)?;
        change_nodes(&mut list, alloc, op, row)?;
        if list.is_empty() {
            return Ok(Parts::None);
        }
        if list.len() < BRANCH_PAGES {
            return Ok(Parts::One(Branch { list }));
        }
        let upper = list.split_off(BRANCH_PAGES / 2)?;
        Ok(Parts::Two(Branch { list }, Branch { list: upper }))
    }
}
