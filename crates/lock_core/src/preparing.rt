//! What a command is answered, and the room for its commit.

ghost use Rattle.std.specs.Prelude.{◌≡◌, List, Some, IfOk, IsSomeAnd, OnOk, OnErr};
ghost use Rattle.command_needs.specs.Sets.{has_table};
ghost use Rattle.depot_rows.specs.db_records.declared.table.TableId.{TableId};
ghost use Rattle.depot_rows.specs.table_changes.Changed.{AllFitIn, rows_of};
ghost use Rattle.depot_rows.specs.depot_model.Deeds.{Deed};
ghost use Rattle.depot_rows.specs.depot_model.Rules.{IsSound};
ghost use Rattle.command_core.specs.Outcomes.{HasNeeded, IsFormedBy, IsOutcome};
ghost use Rattle.lock_core.specs.Works.{IsRoomOf, is_changed};
ghost use Rattle.lock_core.specs.declared.work.Room.{Room as AnyRoom};

use crate::work::{Room, Work};
use command_core::{Outcome, evaluate};
use command_needs::TableSet;
use depot_rows::changes::change_tables;
use depot_rows::records::Change;
use depot_rows::tables::Tables;
use std::alloc::{AllocError, Global};

/// The tables of which some row changes.
fn changed_tables(changes: &[Change]) -> TableSet
    ensures { (table : TableId) → has_table result table ≡ is_changed changes.now table }
{
    let mut tables = TableSet::none();
    for change in changes {
        tables = tables.with(change.row.table());
    }
    tables
}

/// The room for changes of these tables.
fn make_room(alloc: Global, tables: &Tables, changes: &[Change]) -> Result<Room, AllocError>
    requires { AllFitIn (rows_of tables.now) changes.now }
    ensures { IfOk result (IsRoomOf (rows_of tables.now) changes.now) }
{
    Ok(Room {
        tables: change_tables(alloc, tables, changes)?,
        changed: changed_tables(changes),
    })
}

impl Work {
    /// Finds what its command is answered and changes, and makes the room for its commit.
    pub(crate) fn prepare(&mut self, alloc: Global, tables: &Tables) -> Result<Outcome, AllocError>
        ensures outcome { IfOk result (λ outcome. (d : List Deed) → IsSound d → IsFormedBy self.old.request →
            HasNeeded (rows_of tables.now) d self.old.request →
            IsOutcome (rows_of tables.now) tables.now.archive_end d self.old.request outcome) }
        ensures room { IfOk result (λ outcome. IsSomeAnd self.new.room (IsRoomOf (rows_of tables.now) outcome.changes)) }
        ensures ok { OnOk result ((room : AnyRoom) × (self.new ≡ record self.old { room = Some room })) }
        ensures err { OnErr result (self.new ≡ self.old) }
    {
        let outcome = evaluate(alloc, tables, &self.request)?;
        let room = make_room(alloc, tables, outcome.changes.as_slice())?;
        self.room = Some(room);
        Ok(outcome)
    }
}
