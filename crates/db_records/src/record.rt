//! The row of any table.

ghost use Rattle.std.specs.Prelude.{◌≡◌, ◌↔◌, IsTrue, IfOk};
ghost use Rattle.db_records.specs.Key.{key_cmp};
ghost use Rattle.db_records.specs.Record.{table_of, key_of, is_live};

use crate::fields::KeyFields;
use crate::key::Key;
use crate::rows::{
    ChangeRecord, CounterRecord, DomainRecord, GroupRecord, HaveRecord, IntegedRecord, LabelRecord,
    ProtectRecord, ResolveRecord, RevRecord, WorkingRecord,
};
use crate::table::TableId;
use std::alloc::AllocError;
use std::cmp::Ordering;

/// A row of one of the tables.
#[derive(Clone, PartialEq, Eq)]
pub enum Record {
    Counter(CounterRecord),
    Group(GroupRecord),
    Protect(ProtectRecord),
    Domain(DomainRecord),
    Have(HaveRecord),
    Label(LabelRecord),
    Integed(IntegedRecord),
    Resolve(ResolveRecord),
    Working(WorkingRecord),
    Change(ChangeRecord),
    Rev(RevRecord),
}

impl Drop for Record {
    fn drop(self) {
        match self {
            Record::Counter(_) => {}
            Record::Group(_) => {}
            Record::Protect(_) => {}
            Record::Domain(_) => {}
            Record::Have(_) => {}
            Record::Label(_) => {}
            Record::Integed(_) => {}
            Record::Resolve(_) => {}
            Record::Working(_) => {}
            Record::Change(_) => {}
            Record::Rev(_) => {}
        }
    }
}

impl Record {
    /// The table that the row stands in.
    pub fn table(&self) -> TableId
        ensures { result ≡ table_of self.now }
    {
        KeyFields::of_row(self).table()
    }

    /// The key of the row. The one error is want of memory.
    pub fn key(&self) -> Result<Key, AllocError>
        ensures { IfOk result (λ key. key ≡ key_of self.now) }
    {
        KeyFields::of_row(self).to_key()
    }

    /// How the row's key stands to another key.
    pub fn compare_key(&self, key: &Key) -> Ordering
        ensures { result ≡ key_cmp (key_of self.now) key.now }
    {
        KeyFields::of_row(self).compare(&KeyFields::of_key(key))
    }

    /// How the row's key stands to that of another row.
    pub fn compare(&self, other: &Record) -> Ordering
        ensures { result ≡ key_cmp (key_of self.now) (key_of other.now) }
    {
        KeyFields::of_row(self).compare(&KeyFields::of_row(other))
    }

    /// Whether the two rows are the same in every field.
    pub fn same(&self, other: &Record) -> bool
        ensures { IsTrue result ↔ (self.now ≡ other.now) }
    {
        self == other
    }

    /// The same row once more. The one error is want of memory.
    pub fn copy(&self) -> Result<Record, AllocError>
        ensures { IfOk result (λ row. row ≡ self.now) }
    {
        self.clone()
    }

    /// Whether the row is of a revision that isn't deleted.
    pub fn live(&self) -> bool
        ensures { result ≡ is_live self.now }
    {
        match self {
            Record::Rev(row) => {
                row.action.as_bytes() != b"delete".as_slice()
                    && row.action.as_bytes() != b"move/delete".as_slice()
            }
            _ => false,
        }
    }
}
