//! Versions of a table.

ghost use Rattle.std.specs.Prelude.{◌≡◌, [], ◌↔◌, IfOk, IsTrue, filter};
ghost use Rattle.std.specs.Option.{option_copied};
ghost use Rattle.db_records.specs.declared.table.TableId.{TableId};
ghost use Rattle.table_store.specs.Rows.{AllFit, AllOfTable, Fits, IsRising, row_at, rows_from, changed, with_rows};
ghost use Rattle.table_store.specs.Marks.{AllHavePlaces, is_fix_of, is_of_change, is_of_client, is_of_user};
ghost use Rattle.table_store.specs.Protections.{protects_in};

use crate::draft::Draft;
use crate::mark_walk::MarkWalk;
use crate::row_order::{ByKey, ByMark};
use crate::search_key::{MarkRef, SearchKey};
use crate::table_trees::TableTrees;
use crate::tree::{Tree, fits};
use crate::walk::Walk;
use db_records::paths::Text;
use db_records::{Change, Key, Record, TableId};
use protect_table::Protects;
use std::alloc::{AllocError, Global};
use std::marker::Model;
use std::sync::Arc;

/// The rows of one table, in the order of their keys. It never changes.
///
/// Rows that have a mark (a revision its changelist, an opening its client, a user of a group the user, a fix
/// the digits of its changelist) stand a second time in the order of marks, so that those of one mark are
/// found at the cost of what is given.
pub struct Version {
    table: TableId,
    tree: Arc<Tree<ByKey>, Global>,
    /// The rows that have marks. There may be others too, that are gone: each look-up by a mark asks
    /// the rows by key for what is there now.
    marked: Arc<Tree<ByMark>, Global>,
    /// The protections that the rows tell, as they were read when the version was made.
    protects: Protects,
}

impl Drop for Version {
    fn drop(self) {
        let Version {
            table: _,
            tree: _,
            marked: _,
            protects: _,
        } = self;
    }
}

impl Model for Version {
    ghost use Rattle.std.specs.Prelude.{◌≡◌};
    ghost use Rattle.std.specs.Arc.{arc_value};
    ghost use Rattle.table_store.specs.Rows.{TableRows, AllOfTable};
    ghost use Rattle.table_store.specs.Marks.{AllHavePlaces};
    ghost use Rattle.table_store.specs.Protections.{protects_in};

    ghost Value = { TableRows };

    ghost view = { λ a. record { table = a.table; rows = arc_value a.tree } };

    ghost invariant = { λ a. AllOfTable a.table (arc_value a.tree) × AllHavePlaces (arc_value a.marked) (arc_value a.tree) × (a.protects ≡ protects_in (arc_value a.tree)) };
}

impl Version {
    /// A table without rows. The one error is want of memory.
    pub fn empty(alloc: Global, table: TableId) -> Result<Version, AllocError>
        ensures { IfOk result (λ version. version ≡ record { table = table; rows = [] }) }
    {
        let protects = Protects::empty(alloc)?;
        Version::of_trees(
            alloc,
            table,
            Tree::empty(alloc),
            Tree::empty(alloc),
            protects,
        )
    }

    /// The version that has the rows of the first tree, and finds them by the second one, beside the protections
    /// that they tell.
    pub(crate) fn of_trees(
        alloc: Global,
        table: TableId,
        tree: Tree<ByKey>,
        marked: Tree<ByMark>,
        protects: Protects,
    ) -> Result<Version, AllocError>
        requires of_table { AllOfTable table tree }
        requires places { AllHavePlaces marked tree }
        requires protects { protects ≡ protects_in tree }
        ensures { IfOk result (λ version. version ≡ record { table = table; rows = tree }) }
    {
        Ok(Version {
            table,
            tree: Arc::new(alloc, tree)?,
            marked: Arc::new(alloc, marked)?,
            protects,
        })
    }

    /// The table whose rows these are. Each of them is of that table, and their keys rise.
    pub fn table(&self) -> TableId
        ensures table { result ≡ self.now.table }
        ensures of_table { AllOfTable self.now.table self.now.rows }
        ensures rising { IsRising self.now.rows }
    {
        self.tree.rows_rise();
        self.table
    }

    /// The row that has the key.
    pub fn get(&self, key: &Key) -> Option<&Record>
        ensures { option_copied result ≡ row_at key.now self.now.rows }
    {
        self.tree.get(SearchKey::Given(key))
    }

    /// All rows, in the order of their keys.
    pub fn rows(&self) -> Walk<'_>
        ensures { result ≡ self.now.rows }
    {
        self.tree.walk()
    }

    /// The rows from the first key at or above the key, in the order of their keys.
    pub fn from_key(&self, key: &Key) -> Walk<'_>
        ensures { result ≡ rows_from key.now self.now.rows }
    {
        self.tree.walk_from(SearchKey::Given(key))
    }

    /// The revisions that a changelist made, in the order of their keys. In another table than db.rev
    /// there are none.
    pub fn of_change(&self, change: u32) -> MarkWalk<'_>
        ensures { result ≡ filter (is_of_change change) self.now.rows }
    {
        MarkWalk::new(&self.tree, &self.marked, MarkRef::Change(change), None)
    }

    /// The revisions that a changelist made from the first key at or above the key, in the order of their keys.
    pub fn of_change_from(&self, change: u32, key: &Key) -> MarkWalk<'_>
        ensures { result ≡ filter (is_of_change change) (rows_from key.now self.now.rows) }
    {
        MarkWalk::new(&self.tree, &self.marked, MarkRef::Change(change), Some(key))
    }

    /// The fixes by a changelist, which is given by its digits, in the order of their keys. In another table than
    /// db.domain there are none.
    pub fn fixes_of<'a>(&'a self, change: &'a [u8]) -> MarkWalk<'a>
        ensures { result ≡ filter (is_fix_of change.now) self.now.rows }
    {
        MarkWalk::new(&self.tree, &self.marked, MarkRef::Fix(change), None)
    }

    /// The openings of a client, in the order of their keys. In another table than db.working there
    /// are none.
    pub fn of_client<'a>(&'a self, client: &'a Text) -> MarkWalk<'a>
        ensures { result ≡ filter (is_of_client client.now) self.now.rows }
    {
        MarkWalk::new(&self.tree, &self.marked, MarkRef::Client(client), None)
    }

    /// The openings of a client from the first key at or above the key, in the order of their keys.
    pub fn of_client_from<'a>(&'a self, client: &'a Text, key: &Key) -> MarkWalk<'a>
        ensures { result ≡ filter (is_of_client client.now) (rows_from key.now self.now.rows) }
    {
        MarkWalk::new(&self.tree, &self.marked, MarkRef::Client(client), Some(key))
    }

    /// The places of a user in groups, in the order of their keys. In another table than db.group there
    /// are none.
    pub fn of_user<'a>(&'a self, user: &'a Text) -> MarkWalk<'a>
        ensures { result ≡ filter (is_of_user user.now) self.now.rows }
    {
        MarkWalk::new(&self.tree, &self.marked, MarkRef::User(user), None)
    }

    /// The protections that the rows tell. In another table than db.protect there are none.
    pub fn protects(&self) -> &Protects
        ensures { result.now ≡ protects_in self.now.rows }
    {
        &self.protects
    }

    /// The same rows, shared. The one error is that there are too many shares.
    pub fn share(&self) -> Result<Version, AllocError>
        ensures { IfOk result (λ version. version ≡ self.now) }
    {
        Ok(Version {
            table: self.table,
            tree: Arc::try_clone(&self.tree)?,
            marked: Arc::try_clone(&self.marked)?,
            protects: self.protects.share()?,
        })
    }

    /// Whether a change fits this version: its row is of this table, and it is a Put of an absent
    /// key, a Replace of a present key, or a Remove of a row that is there as given.
    pub fn fits(&self, change: &Change) -> bool
        ensures { IsTrue result ↔ Fits self.now change.now }
    {
        change.row.table() == self.table && fits(&self.tree, change)
    }

    /// The version after the changes, each of which fits after those before it. The two share all
    /// but the pages that hold the keys of the changes. The one error is want of memory.
    pub fn with_changes(&self, alloc: Global, changes: &[Change]) -> Result<Version, AllocError>
        requires { AllFit self.now changes.now }
        ensures { IfOk result (λ version. version ≡ with_rows self.now (changed self.now.rows changes.now)) }
    {
        let mut draft = self.draft()?;
        for change in changes {
            draft.change(alloc, change)?;
        }
        draft.finish(alloc)
    }

    /// A draft that begins with the rows of this version. The one error is that there are too many shares.
    pub fn draft(&self) -> Result<Draft, AllocError>
        ensures { IfOk result (λ draft. draft ≡ self.now) }
    {
        Ok(Draft::of_version(self.share()?))
    }

    /// Trees of their own for the rows of this version. The one error is want of memory.
    pub(crate) fn trees(&self, alloc: Global) -> Result<TableTrees, AllocError>
        ensures { IfOk result (λ trees. trees ≡ self.now) }
    {
        let tree = self.tree.share(alloc)?;
        let marked = self.marked.share(alloc)?;
        Ok(TableTrees::new(self.table, tree, marked))
    }
}
