//! Drafts of a version.

ghost use Rattle.std.specs.Prelude.{◌≡◌, IfOk, IsTrue, OnOk, OnErr, ◌↔◌};
ghost use Rattle.std.specs.Option.{option_copied};
ghost use Rattle.table_store.specs.Rows.{Fits, row_at, changed_once, with_rows};

use crate::shared_row::SharedRow;
use crate::table_trees::TableTrees;
use crate::version::Version;
use db_records::{Change, Key, Record, TableId};
use std::alloc::{AllocError, Global};
use std::marker::Model;

/// The rows of one table, changed one after another until they are a version.
///
/// It is for who tests and makes many changes, each against the rows that those before it left. Until its
/// first change it shares the rows of the version that it began with, and without one it ends as that version.
#[derive(Drop)]
pub struct Draft {
    rows: DraftRows,
}

/// Where the rows of a draft are.
#[derive(Drop)]
enum DraftRows {
    /// In the version that the draft began with: no change was made.
    Unchanged(Version),
    Changed(TableTrees),
}

impl Model for Draft {
    ghost use Rattle.table_store.specs.Rows.{TableRows};

    ghost Value = { TableRows };

    ghost use Rattle.table_store.specs.Drafts.{rows_drafted};

    ghost view = { λ a. rows_drafted a.rows };
}

impl Draft {
    /// The draft that begins with a version.
    pub(crate) fn of_version(version: Version) -> Draft
        ensures { result ≡ version }
    {
        Draft {
            rows: DraftRows::Unchanged(version),
        }
    }

    /// The table whose rows these are.
    pub fn table(&self) -> TableId
        ensures { result ≡ self.now.table }
    {
        match &self.rows {
            DraftRows::Unchanged(version) => version.table(),
            DraftRows::Changed(trees) => trees.table(),
        }
    }

    /// The row that has the key.
    pub fn get(&self, key: &Key) -> Option<&Record>
        ensures { option_copied result ≡ row_at key.now self.now.rows }
    {
        match &self.rows {
            DraftRows::Unchanged(version) => version.get(key),
            DraftRows::Changed(trees) => trees.get(key),
        }
    }

    /// Whether a change fits these rows, as [`Version::fits`] says it of a version.
    pub fn fits(&self, change: &Change) -> bool
        ensures { IsTrue result ↔ Fits self.now change.now }
    {
        match &self.rows {
            DraftRows::Unchanged(version) => version.fits(change),
            DraftRows::Changed(trees) => trees.fits(change),
        }
    }

    /// Makes a copy of a change that fits. The one error is want of memory, and then the rows stay as they
    /// were.
    pub fn change(&mut self, alloc: Global, change: &Change) -> Result<(), AllocError>
        requires { Fits self.old change.now }
        ensures ok { OnOk result (self.new ≡ with_rows self.old (changed_once self.old.rows change.now)) }
        ensures err { OnErr result (self.new ≡ self.old) }
    {
        self.take(alloc, change.copy()?)
    }

    /// Makes a change that fits, and keeps its row. The one error is want of memory, and then the rows
    /// stay as they were.
    pub fn take(&mut self, alloc: Global, change: Change) -> Result<(), AllocError>
        requires { Fits self.old change }
        ensures ok { OnOk result (self.new ≡ with_rows self.old (changed_once self.old.rows change)) }
        ensures err { OnErr result (self.new ≡ self.old) }
    {
        let op = change.op;
        let row = SharedRow::new(alloc, change.into_row())?;
        match &mut self.rows {
            DraftRows::Unchanged(version) => {
                let mut trees = version.trees(alloc)?;
                trees.change(alloc, op, &row)?;
                self.rows = DraftRows::Changed(trees);
                Ok(())
            }
            DraftRows::Changed(trees) => trees.change(alloc, op, &row),
        }
    }

    /// The version with these rows. The one error is want of memory.
    pub fn finish(self, alloc: Global) -> Result<Version, AllocError>
        ensures { IfOk result (λ version. version ≡ self) }
    {
        match self.rows {
            DraftRows::Unchanged(version) => Ok(version),
            DraftRows::Changed(trees) => trees.finish(alloc),
        }
    }
}
