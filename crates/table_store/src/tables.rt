//! A version of each table.

ghost use Rattle.std.specs.Prelude.{◌≡◌, ◌≢◌, ◌≤◌, ◌-◌, ◌^◌, IfOk};
ghost use Rattle.db_records.specs.declared.table.TableId.TheVariants as table_ids;

use crate::version::Version;
use db_records::TableId;
use std::alloc::{AllocError, Global};

/// A version of each table, and how many bytes of the archive are used.
pub struct Tables {
    counter: Version,
    group: Version,
    protect: Version,
    domain: Version,
    have: Version,
    label: Version,
    integed: Version,
    resolve: Version,
    working: Version,
    change: Version,
    rev: Version,
    archive_end: u64,
    ghost own_counter: { counter.table ≡ table_ids.Counter },
    ghost own_group: { group.table ≡ table_ids.Group },
    ghost own_protect: { protect.table ≡ table_ids.Protect },
    ghost own_domain: { domain.table ≡ table_ids.Domain },
    ghost own_have: { have.table ≡ table_ids.Have },
    ghost own_label: { label.table ≡ table_ids.Label },
    ghost own_integed: { integed.table ≡ table_ids.Integed },
    ghost own_resolve: { resolve.table ≡ table_ids.Resolve },
    ghost own_working: { working.table ≡ table_ids.Working },
    ghost own_change: { change.table ≡ table_ids.Change },
    ghost own_rev: { rev.table ≡ table_ids.Rev },
    ghost end_fits: { archive_end ≤ 2 ^ 63 - 1 },
}

impl Drop for Tables {
    fn drop(self) {
        let Tables {
            counter: _,
            group: _,
            protect: _,
            domain: _,
            have: _,
            label: _,
            integed: _,
            resolve: _,
            working: _,
            change: _,
            rev: _,
            archive_end: _,
        } = self;
    }
}

impl Tables {
    ghost use Rattle.db_records.specs.declared.table.TableId.{TableId};
    ghost use Rattle.table_store.specs.Tables.{version_of, AllEmpty};

    /// Tables without rows, beside an empty archive. The one error is want of memory.
    pub fn empty(alloc: Global) -> Result<Tables, AllocError>
        ensures { IfOk result (λ tables. AllEmpty tables) }
    {
        Ok(Tables {
            counter: Version::empty(alloc, TableId::Counter)?,
            group: Version::empty(alloc, TableId::Group)?,
            protect: Version::empty(alloc, TableId::Protect)?,
            domain: Version::empty(alloc, TableId::Domain)?,
            have: Version::empty(alloc, TableId::Have)?,
            label: Version::empty(alloc, TableId::Label)?,
            integed: Version::empty(alloc, TableId::Integed)?,
            resolve: Version::empty(alloc, TableId::Resolve)?,
            working: Version::empty(alloc, TableId::Working)?,
            change: Version::empty(alloc, TableId::Change)?,
            rev: Version::empty(alloc, TableId::Rev)?,
            archive_end: 0,
        })
    }

    /// The version of a table.
    pub fn version(&self, table: TableId) -> &Version
        ensures rows { result.now ≡ version_of self.now table }
        ensures table { result.now.table ≡ table }
    {
        match table {
            TableId::Counter => &self.counter,
            TableId::Group => &self.group,
            TableId::Protect => &self.protect,
            TableId::Domain => &self.domain,
            TableId::Have => &self.have,
            TableId::Label => &self.label,
            TableId::Integed => &self.integed,
            TableId::Resolve => &self.resolve,
            TableId::Working => &self.working,
            TableId::Change => &self.change,
            TableId::Rev => &self.rev,
        }
    }

    /// Puts a version in the place of the one of its table.
    pub fn put(&mut self, version: Version)
        ensures this_table { version_of self.new version.table ≡ version }
        ensures others { (table : TableId) → table ≢ version.table → version_of self.new table ≡ version_of self.old table }
        ensures end { self.new.archive_end ≡ self.old.archive_end }
    {
        match version.table() {
            TableId::Counter => self.counter = version,
            TableId::Group => self.group = version,
            TableId::Protect => self.protect = version,
            TableId::Domain => self.domain = version,
            TableId::Have => self.have = version,
            TableId::Label => self.label = version,
            TableId::Integed => self.integed = version,
            TableId::Resolve => self.resolve = version,
            TableId::Working => self.working = version,
            TableId::Change => self.change = version,
            TableId::Rev => self.rev = version,
        }
    }

    /// How many bytes of the archive are used: where the next content goes.
    pub fn archive_end(&self) -> u64
        ensures end { result ≡ self.now.archive_end }
        ensures fits { result ≤ 2 ^ 63 - 1 }
    {
        self.archive_end
    }

    /// Sets how many bytes of the archive are used.
    pub fn set_archive_end(&mut self, used: u64)
        requires { used ≤ 2 ^ 63 - 1 }
        ensures end { self.new.archive_end ≡ used }
        ensures versions { (table : TableId) → version_of self.new table ≡ version_of self.old table }
    {
        self.archive_end = used;
    }
}
