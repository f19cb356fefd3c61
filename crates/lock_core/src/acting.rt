//! The turns of a party.

ghost use Rattle.std.specs.Prelude.{◌≡◌, List, None, true, IfOk, OnErr};
ghost use Rattle.depot_rows.specs.table_changes.Changed.{rows_of};
ghost use Rattle.depot_rows.specs.depot_model.Tables.{needs_of};
ghost use Rattle.lock_machine.specs.Machine.{Commit, Party as ModelParty, moved};
ghost use Rattle.lock_core.specs.Parties.{IsShown, IsTurnOf, holds, is_judged, waits};

use crate::party::{Party, Wait};
use crate::turn::Turn;
use depot_rows::model::LockId;
use depot_rows::tables::Tables;
use lock_machine::Stage;
use std::alloc::{AllocError, Global};
use std::mem::replace;

impl Party {
    /// Whether it owns a lock.
    pub(crate) fn owns(&self, lock: LockId) -> bool
        ensures { result ≡ holds lock self.now }
    {
        match &self.work {
            None => false,
            Some(work) => work.owns(lock),
        }
    }

    /// For what it waits.
    pub(crate) fn waits(&self) -> Wait
        ensures { result ≡ waits self.now }
    {
        match &self.work {
            None => {
                if self.left.is_empty() {
                    Wait::Never
                } else {
                    Wait::Now
                }
            }
            Some(work) => match work.waits_for() {
                None => Wait::Now,
                Some(lock) => Wait::For(lock),
            },
        }
    }

    /// Begins the next command, if there is one.
    fn begin(&mut self)
        requires { self.old.work ≡ None }
        ensures { (order : List Commit) (q : ModelParty) → IsShown order self.old q →
            IsShown order self.new (moved needs_of order q.left q.work) }
    {
        let next = self.left.pop();
        drop(replace(&mut self.work, next));
    }

    /// Takes its turn. Only a commit that is at hand may want memory.
    pub(crate) fn turn(&mut self, alloc: Global, tables: &Tables) -> Result<Turn, AllocError>
        ensures turn { IfOk result (IsTurnOf (rows_of tables.now) tables.now.archive_end self.old self.new) }
        ensures err { OnErr result ((self.new ≡ self.old) × (is_judged self.old.work ≡ true)) }
    {
        let Some(work) = &mut self.work else {
            self.begin();
            return Ok(Turn::Moved);
        };
        match work.stage {
            Stage::Gathering => {
                work.gather();
                Ok(Turn::Moved)
            }
            Stage::Judged => {
                let outcome = work.prepare(alloc, tables)?;
                Ok(Turn::Ready(outcome))
            }
            Stage::Committed => {
                drop(self.work.take());
                Ok(Turn::Moved)
            }
        }
    }
}
