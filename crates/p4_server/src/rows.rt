//! The rows of all tables as text.

ghost use Rattle.std.specs.Prelude.{◌≤◌};
ghost use Rattle.depot_rows.specs.db_records.Table.{all_tables};
ghost use Rattle.p4_server.specs.Rows.{row_text, rows_text, tables_text, Prints};
ghost use Rattle.depot_rows.specs.table_store.Tables.{version_of};

use depot_rows::records::{Op, Record, TableId};
use depot_rows::tables::{Tables, Version};
use outside_api::Sink;
use record_text::print_record;
use std::alloc::Global;
use wire_text::give_all;

/// Why not all rows are printed.
#[derive(Clone, Copy, PartialEq, Eq)]
pub enum RowsFault {
    /// The sink has failed.
    Sink,
    /// There was no memory for the text of a row.
    Memory,
}

/// Gives the text of a row.
fn give_row<K: Sink>(alloc: Global, row: &Record, out: &mut K) -> Result<(), RowsFault>
    ensures prints { Prints (K.says.given out.old) (K.says.given out.new) (K.says.faults out.old)
        (K.says.faults out.new) (row_text row.now) result }
    ensures counts { K.says.faults out.old ≤ K.says.faults out.new }
{
    let Ok(text) = print_record(alloc, Op::Put, row) else {
        return Err(RowsFault::Memory);
    };
    match give_all(out, text.as_bytes()) {
        Ok(()) => Ok(()),
        Err(_) => Err(RowsFault::Sink),
    }
}

/// Gives the text of the rows of a table, in the order of their keys.
fn give_rows<K: Sink>(alloc: Global, version: &Version, out: &mut K) -> Result<(), RowsFault>
    ensures prints { Prints (K.says.given out.old) (K.says.given out.new) (K.says.faults out.old)
        (K.says.faults out.new) (rows_text version.now.rows) result }
    ensures counts { K.says.faults out.old ≤ K.says.faults out.new }
{
    for row in version.rows() {
        match give_row(alloc, row, out) {
            Ok(()) => {}
            Err(fault) => return Err(fault),
        }
    }
    Ok(())
}

/// Gives the text of the rows of all tables, row by row, tables and keys rising. It copies no table.
pub fn give_tables<K: Sink>(alloc: Global, tables: &Tables, out: &mut K) -> Result<(), RowsFault>
    ensures prints { Prints (K.says.given out.old) (K.says.given out.new) (K.says.faults out.old)
        (K.says.faults out.new) (tables_text (λ table. (version_of tables.now table).rows) all_tables) result }
    ensures counts { K.says.faults out.old ≤ K.says.faults out.new }
{
    for table in TableId::ALL {
        match give_rows(alloc, tables.version(table), out) {
            Ok(()) => {}
            Err(fault) => return Err(fault),
        }
    }
    Ok(())
}
