//! Tables that are shared with who makes the commits.

ghost use Rattle.std.specs.Prelude.{◌≡◌, IfOk, List, slice_get};
ghost use Rattle.std.specs.Option.{option_copied};
ghost use Rattle.command_core.specs.declared.outcome.Outcome.{Outcome as AnyOutcome};
ghost use Rattle.depot_rows.specs.depot_model.Deeds.{Deed};
ghost use Rattle.depot_rows.specs.depot_model.declared.request.Request.{Request as ModelRequest};
ghost use Rattle.lock_core.specs.Core.{IsReady};
ghost use Rattle.lock_core.specs.Finished.{room_at};
ghost use Rattle.lock_machine.specs.Machine.{State};
ghost use Rattle.depot_rows.specs.table_changes.Changed.{changed_by, rows_of};

use crate::machine::LockCore;
use crate::work::Room;
use depot_rows::changes::change_tables;
use depot_rows::tables::Tables;
use std::alloc::{AllocError, Global};

/// The same tables, shared. The one error is want of memory.
pub fn share_tables(alloc: Global, tables: &Tables) -> Result<Tables, AllocError>
    ensures rows { IfOk result (λ shared. rows_of shared ≡ rows_of tables.now) }
    ensures end { IfOk result (λ shared. shared.archive_end ≡ tables.now.archive_end) }
{
    let shared = change_tables(alloc, tables, &[])?;
    Ok(shared)
}

impl LockCore {
    /// The room for the commit that a party has at hand, where there is one.
    fn room_of(&self, party: u32) -> Option<&Room>
        ensures { option_copied result ≡ room_at (slice_get self.now.parties.items party) }
    {
        match self.parties.get(party as usize) {
            None => None,
            Some(party) => match &party.work {
                None => None,
                Some(work) => match &work.room {
                    None => None,
                    Some(room) => Some(room),
                },
            },
        }
    }

    /// The tables after the commit that a party has at hand, shared; the tables as they are, where none is at hand. The
    /// one error is want of memory.
    pub fn tables_after(&self, alloc: Global, party: u32) -> Result<Tables, AllocError>
        ensures { IfOk result (λ after. (start : List Deed) (s : State) (request : ModelRequest) (outcome : AnyOutcome) → IsReady start s self.now party request outcome →
            rows_of after ≡ changed_by (rows_of self.now.tables) outcome.changes) }
    {
        match self.room_of(party) {
            None => share_tables(alloc, &self.tables),
            Some(room) => share_tables(alloc, &room.tables),
        }
    }
}
