//! Keys and marks that are looked for.

ghost use Rattle.std.specs.Prelude.{◌≡◌, Some};
ghost use Rattle.std.specs.Option.{option_cmp};
ghost use Rattle.db_records.specs.Key.{key_cmp};
ghost use Rattle.db_records.specs.Record.{key_of};
ghost use Rattle.table_store.specs.Places.{mark_cmp};
ghost use Rattle.table_store.specs.Marks.{by_mark, fixing as fixing_in, is_fix as is_fix_in, is_of, mark_of};
ghost use Rattle.table_store.specs.SearchKey.{mark_found, sought_mark, sought_place};

use db_records::paths::Text;
use db_records::{DomainRecord, Key, Record};
use std::cmp::Ordering;

/// What rows are looked for by beside their keys. A row has one mark at most.
#[derive(Clone, Copy)]
pub enum MarkRef<'a> {
    /// A revision's changelist.
    Change(u32),
    /// The client of an opening.
    Client(&'a Text),
    /// A user of a group.
    User(&'a Text),
    /// The digits of a fix's changelist.
    Fix(&'a [u8]),
}

/// What is looked for in an order of rows: a key, the place of a row, or a mark with a key from which
/// on its rows are asked for.
#[derive(Clone, Copy)]
pub enum SearchKey<'a> {
    Given(&'a Key),
    OfRow(&'a Record),
    Marked(MarkRef<'a>, Option<&'a Key>),
}

/// Whether a form is a fix.
fn is_fix(row: &DomainRecord) -> bool
    ensures { result ≡ is_fix_in row.now }
{
    b"fix".as_slice() == row.kind.as_bytes()
}

/// The digits of a fix's changelist: what its name has behind that of a job, which has nine bytes, and a space.
fn fixing(row: &DomainRecord) -> &[u8]
    ensures { result.now ≡ fixing_in row.now }
{
    row.name.as_bytes().get(10..).unwrap_or(&[])
}

impl<'a> MarkRef<'a> {
    /// The mark of a row, where it has one.
    pub(crate) fn of_row(row: &'a Record) -> Option<MarkRef<'a>>
        ensures { mark_found result ≡ mark_of row.now }
    {
        match row {
            Record::Rev(row) => Some(MarkRef::Change(row.change)),
            Record::Working(row) => Some(MarkRef::Client(&row.client)),
            Record::Group(row) => Some(MarkRef::User(&row.user)),
            Record::Domain(row) if is_fix(row) => Some(MarkRef::Fix(fixing(row))),
            _ => None,
        }
    }

    /// Whether a row has the mark.
    pub(crate) fn is_of(self, row: &Record) -> bool
        ensures { result ≡ is_of (sought_mark self.entry) row.now }
    {
        match (self, row) {
            (MarkRef::Change(change), Record::Rev(row)) => row.change == change,
            (MarkRef::Client(client), Record::Working(row)) => row.client == *client,
            (MarkRef::User(user), Record::Group(row)) => row.user == *user,
            (MarkRef::Fix(change), Record::Domain(row)) => is_fix(row) && fixing(row) == change,
            _ => false,
        }
    }

    /// How the mark stands to another one: by kind, then by number or name.
    fn compare(self, other: MarkRef<'_>) -> Ordering
        ensures { result ≡ mark_cmp (sought_mark self.entry) (sought_mark other.entry) }
    {
        match (self, other) {
            (MarkRef::Change(a), MarkRef::Change(b)) => a.cmp(&b),
            (MarkRef::Change(_), _) => Ordering::Less,
            (MarkRef::Client(_), MarkRef::Change(_)) => Ordering::Greater,
            (MarkRef::Client(a), MarkRef::Client(b)) => a.cmp(b),
            (MarkRef::Client(_), _) => Ordering::Less,
            (MarkRef::User(_), MarkRef::Change(_) | MarkRef::Client(_)) => Ordering::Greater,
            (MarkRef::User(a), MarkRef::User(b)) => a.cmp(b),
            (MarkRef::User(_), MarkRef::Fix(_)) => Ordering::Less,
            (MarkRef::Fix(a), MarkRef::Fix(b)) => a.cmp(b),
            (MarkRef::Fix(_), _) => Ordering::Greater,
        }
    }
}

impl<'a> SearchKey<'a> {
    /// The mark that is looked for in the order of marks.
    pub(crate) fn mark(self) -> Option<MarkRef<'a>>
        ensures { mark_found result ≡ (sought_place by_mark self.entry).mark }
    {
        match self {
            SearchKey::Given(_) => None,
            SearchKey::OfRow(row) => MarkRef::of_row(row),
            SearchKey::Marked(mark, _) => Some(mark),
        }
    }

    /// The order of a row's key and the key that is looked for. Without one all rows are above.
    pub(crate) fn order_of_key(self, row: &Record) -> Ordering
        ensures { result ≡ option_cmp key_cmp (Some (key_of row.now)) (sought_place by_mark self.entry).key }
    {
        match self {
            SearchKey::Given(key) => row.compare_key(key),
            SearchKey::OfRow(other) => row.compare(other),
            SearchKey::Marked(_, Some(key)) => row.compare_key(key),
            SearchKey::Marked(_, None) => Ordering::Greater,
        }
    }
}

/// How marks stand to each other. No mark is before all others.
pub(crate) fn compare_marks(a: Option<MarkRef<'_>>, b: Option<MarkRef<'_>>) -> Ordering
    ensures { result ≡ option_cmp mark_cmp (mark_found a.entry) (mark_found b.entry) }
{
    match (a, b) {
        (None, None) => Ordering::Equal,
        (None, Some(_)) => Ordering::Less,
        (Some(_), None) => Ordering::Greater,
        (Some(a), Some(b)) => a.compare(b),
    }
}
