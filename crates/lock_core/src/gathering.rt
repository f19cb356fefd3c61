//! How a command goes through its set.

ghost use Rattle.std.specs.Prelude.{◌≡◌, slice_get, take};
ghost use Rattle.std.specs.List.{list_any};
ghost use Rattle.command_needs.specs.Sets.{locks_in, tables_in};
ghost use Rattle.lock_machine.specs.Machine.{guards, has_judged, is_lock, lock_number};
ghost use Rattle.lock_core.specs.Works.{gathered, holds_lock, holds_taken, looked_at, marked, waits_for};

use crate::work::Work;
use command_needs::TableSet;
use depot_rows::model::LockId;
use depot_rows::records::TableId;
use lock_machine::Stage;

/// The locks of tables and of the archive, in their order.
const LOCKS: [LockId; 12] = [
    LockId::Table(TableId::Counter),
    LockId::Table(TableId::Group),
    LockId::Table(TableId::Protect),
    LockId::Table(TableId::Domain),
    LockId::Table(TableId::Have),
    LockId::Table(TableId::Label),
    LockId::Table(TableId::Integed),
    LockId::Table(TableId::Resolve),
    LockId::Table(TableId::Working),
    LockId::Table(TableId::Change),
    LockId::Table(TableId::Rev),
    LockId::Archive,
];

/// The place of a lock in that order, behind which stands the journal's.
fn lock_number(lock: LockId) -> usize
    ensures { result ≡ lock_number lock }
{
    match lock {
        LockId::Table(table) => table.number(),
        LockId::Archive => 11,
        LockId::Journal => 12,
    }
}

/// Whether two locks are one.
fn is_lock(lock: LockId, other: LockId) -> bool
    ensures { result ≡ is_lock lock other }
{
    lock_number(lock) == lock_number(other)
}

/// Whether a lock is that of one of some tables.
fn guards(tables: TableSet, lock: LockId) -> bool
    ensures { result ≡ guards (tables_in tables) lock }
{
    match lock {
        LockId::Table(table) => tables.has(table),
        LockId::Archive | LockId::Journal => false,
    }
}

/// Whether a command at that stage has the journal.
fn has_journal(stage: Stage) -> bool
    ensures { result ≡ has_judged stage }
{
    match stage {
        Stage::Gathering => false,
        Stage::Judged | Stage::Committed => true,
    }
}

impl Work {
    /// Whether it has taken the lock of a table, and owns it: those that the command writes, and in a second attempt
    /// each.
    fn has_taken(&self, lock: LockId) -> bool
        ensures { result ≡ list_any (holds_taken self.now.needs self.now.second lock)
            (take self.now.done (locks_in self.now.needs)) }
    {
        let needs = self.needs;
        let second = self.second;
        LOCKS
            .iter()
            .filter(|taken| needs.takes(**taken))
            .take(self.done)
            .any(|taken| (second || needs.writes_behind(*taken)) && is_lock(*taken, lock))
    }

    /// Whether it owns a lock.
    pub(crate) fn owns(&self, lock: LockId) -> bool
        ensures { result ≡ holds_lock lock self.now }
    {
        self.has_taken(lock) || has_journal(self.stage) && is_lock(lock, LockId::Journal)
    }

    /// The lock that it takes next, if one of its set is left.
    fn next_lock(&self) -> Option<LockId>
        ensures { result ≡ slice_get (locks_in self.now.needs) self.now.done }
    {
        let mut left = self.done;
        for lock in LOCKS {
            if self.needs.takes(lock) {
                if left == 0 {
                    return Some(lock);
                }
                left -= 1;
            }
        }
        None
    }

    /// The lock for which it waits, if any.
    pub(crate) fn waits_for(&self) -> Option<LockId>
        ensures { result ≡ waits_for self.now }
    {
        match self.stage {
            Stage::Gathering => Some(self.next_lock().unwrap_or(LockId::Journal)),
            Stage::Judged | Stage::Committed => None,
        }
    }

    /// Takes the next lock of its set; or else judges: where a table that it looked at was changed since, it begins its
    /// second attempt.
    pub(crate) fn gather(&mut self)
        ensures { self.new ≡ gathered self.old }
    {
        if self.next_lock().is_some() {
            self.done += 1;
            return;
        }
        if self.stale {
            self.second = true;
            self.stale = false;
            self.done = 0;
            return;
        }
        self.stage = Stage::Judged;
    }

    /// Whether it has looked at one of these tables, without its lock.
    fn has_looked(&self, changed: TableSet) -> bool
        ensures { result ≡ looked_at (tables_in changed) self.now }
    {
        let needs = self.needs;
        let second = self.second;
        LOCKS
            .iter()
            .filter(|taken| needs.takes(**taken))
            .take(self.done)
            .any(|taken| !(second || needs.writes_behind(*taken)) && guards(changed, *taken))
    }

    /// Marks it as stale where it looked at one of these tables.
    pub(crate) fn mark(&mut self, changed: TableSet)
        ensures { self.new ≡ marked (tables_in changed) self.old }
    {
        if self.has_looked(changed) {
            self.stale = true;
        }
    }
}
