//! Walks over rows.

ghost use Rattle.std.specs.Prelude.{◌≡◌, ◌++◌, List};
ghost use Rattle.std.specs.Iterator.{YieldsFirstRef, item_count};
ghost use Rattle.table_store.specs.Nodes.{rows_of, AllFilled};

use crate::branch::Branch;
use crate::node::SharedNode;
use crate::page::Page;
use crate::row_order::{ByKey, RowOrder};
use crate::shared_row::SharedRow;
use db_records::Record;
use std::marker::Model;
use std::slice;

/// The rows of a version from a place on, in an order, which is that of keys where none is named.
#[derive(Drop)]
pub struct Walk<'a, O: RowOrder = ByKey> {
    rows: slice::Iter<'a, SharedRow>,
    pages: slice::Iter<'a, SharedNode<Page<O>>>,
    branches: slice::Iter<'a, SharedNode<Branch<O>>>,
}

impl<'a, O: RowOrder> Model for Walk<'a, O> {
    ghost use Rattle.std.specs.Prelude.{List, ◌++◌};
    ghost use Rattle.std.specs.Slice.Iter.{iter_rest};
    ghost use Rattle.db_records.specs.declared.record.Record.{Record};
    ghost use Rattle.table_store.specs.Nodes.{rows_of, AllFilled};

    ghost Value = { List Record };

    ghost view = { λ a. iter_rest a.rows ++ (rows_of (iter_rest a.pages) ++ rows_of (iter_rest a.branches)) };

    ghost invariant = { λ a. AllFilled (iter_rest a.pages) × AllFilled (iter_rest a.branches) };
}

impl<'a, O: RowOrder> Walk<'a, O> {
    /// These rows, then those of the pages, and then those of the branches.
    pub(crate) fn new(
        rows: &'a [SharedRow],
        pages: &'a [SharedNode<Page<O>>],
        branches: &'a [SharedNode<Branch<O>>],
    ) -> Walk<'a, O>
        requires pages { AllFilled pages.now }
        requires branches { AllFilled branches.now }
        ensures { result ≡ rows.now ++ (rows_of pages.now ++ rows_of branches.now) }
    {
        Walk {
            rows: rows.iter(),
            pages: pages.iter(),
            branches: branches.iter(),
        }
    }
}

impl<'a, O: RowOrder> Iterator for Walk<'a, O> {
    type Item = &'a Record;

    ghost next_gives = { YieldsFirstRef (λ s. s) };

    ghost remaining = { item_count (λ s. s) };

    fn next(&mut self) -> Option<&'a Record> {
        if let Some(row) = self.rows.next() {
            return Some(row.row());
        }
        if let Some(page) = self.pages.next() {
            self.rows = page.node().rows().iter();
            return Some(self.rows.next()?.row());
        }
        let (first, pages) = self.branches.next()?.node().list().split_first()?;
        self.rows = first.node().rows().iter();
        self.pages = pages.iter();
        Some(self.rows.next()?.row())
    }
}
