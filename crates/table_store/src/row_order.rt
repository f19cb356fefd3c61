//! The orders in which rows stand.

ghost use Rattle.std.specs.Prelude.{◌≡◌};
ghost use Rattle.table_store.specs.Places.{Place, by_key, place_cmp};
ghost use Rattle.table_store.specs.Marks.{by_mark};
ghost use Rattle.table_store.specs.SearchKey.{sought_place};

use crate::search_key::{MarkRef, SearchKey, compare_marks};
use db_records::Record;
use std::cmp::Ordering;

/// An order of rows.
pub trait RowOrder {
    ghost use Rattle.db_records.specs.declared.record.Record.{Record};
    ghost use Rattle.table_store.specs.Places.{Place};

    ghost place: { Record → Place };

    /// The order of a row and what is looked for.
    fn compare(row: &Record, sought: SearchKey<'_>) -> Ordering
        ensures { result ≡ place_cmp (place row.now) (sought_place place sought.entry) };
}

/// The order of keys.
pub struct ByKey {}

/// The order of marks, and of keys where rows have the same mark or none.
pub struct ByMark {}

impl RowOrder for ByKey {
    ghost place = { by_key };

    fn compare(row: &Record, sought: SearchKey<'_>) -> Ordering {
        match sought {
            SearchKey::Given(key) => row.compare_key(key),
            SearchKey::OfRow(other) => row.compare(other),
            SearchKey::Marked(_, _) => Ordering::Less,
        }
    }
}

impl RowOrder for ByMark {
    ghost place = { by_mark };

    fn compare(row: &Record, sought: SearchKey<'_>) -> Ordering {
        match compare_marks(MarkRef::of_row(row), sought.mark()) {
            Ordering::Less => Ordering::Less,
            Ordering::Equal => sought.order_of_key(row),
            Ordering::Greater => Ordering::Greater,
        }
    }
}
