//! Walks over the rows of a mark.

ghost use Rattle.std.specs.Prelude.{◌≡◌, filter};
ghost use Rattle.std.specs.Option.{option_copied};
ghost use Rattle.std.specs.Iterator.{YieldsFirstRef, item_count};
ghost use Rattle.table_store.specs.Marks.{AllHavePlaces, from_start, is_of, leading, rows_now};
ghost use Rattle.table_store.specs.SearchKey.{sought_mark};

use crate::row_order::{ByKey, ByMark};
use crate::search_key::{MarkRef, SearchKey};
use crate::tree::Tree;
use crate::walk::Walk;
use db_records::{Key, Record};
use std::marker::Model;

/// The rows of a version that have a mark, from a place on, in key order.
///
/// It walks over the places of the mark alone, and looks up each one's row.
#[derive(Drop)]
pub struct MarkWalk<'a> {
    rows: &'a Tree<ByKey>,
    mark: MarkRef<'a>,
    places: Walk<'a, ByMark>,
}

impl<'a> Model for MarkWalk<'a> {
    ghost use Rattle.std.specs.Prelude.{List};
    ghost use Rattle.db_records.specs.declared.record.Record.{Record};
    ghost use Rattle.table_store.specs.Marks.{is_of, leading, rows_now};
    ghost use Rattle.table_store.specs.SearchKey.{sought_mark};

    ghost Value = { List Record };

    ghost view = { λ a. rows_now (is_of (sought_mark a.mark)) a.rows.now (leading (is_of (sought_mark a.mark)) a.places) };
}

impl<'a> MarkWalk<'a> {
    /// The rows that have the mark, from a key on where one is given.
    pub(crate) fn new(
        rows: &'a Tree<ByKey>,
        marked: &'a Tree<ByMark>,
        mark: MarkRef<'a>,
        from: Option<&Key>,
    ) -> MarkWalk<'a>
        requires { AllHavePlaces marked.now rows.now }
        ensures { result ≡ filter (is_of (sought_mark mark.entry)) (from_start (option_copied from.entry) rows.now) }
    {
        rows.rows_rise();
        marked.rows_rise();
        MarkWalk {
            rows,
            mark,
            places: marked.walk_from(SearchKey::Marked(mark, from)),
        }
    }
}

impl<'a> Iterator for MarkWalk<'a> {
    type Item = &'a Record;

    ghost next_gives = { YieldsFirstRef (λ s. s) };

    ghost remaining = { item_count (λ s. s) };

    fn next(&mut self) -> Option<&'a Record> {
        next_at(self.rows, self.mark, &mut self.places)
    }
}

/// The row at the next of the places that has the mark, as long as the places have it.
fn next_at<'a>(
    rows: &'a Tree<ByKey>,
    mark: MarkRef<'_>,
    places: &mut Walk<'_, ByMark>,
) -> Option<&'a Record>
    ensures { YieldsFirstRef (λ places. rows_now (is_of (sought_mark mark.entry)) rows.now (leading (is_of (sought_mark mark.entry)) places)) places.old result places.new }
{
    while let Some(place) = places.next() {
        if !mark.is_of(place) {
            *places = Walk::new(&[], &[], &[]);
            return None;
        }
        if let Some(row) = rows.get(SearchKey::OfRow(place))
            && mark.is_of(row)
        {
            return Some(row);
        }
    }
    None
}
