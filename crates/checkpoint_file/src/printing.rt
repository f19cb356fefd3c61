//! The text of a checkpoint.

ghost use Rattle.std.specs.Prelude.{◌≡◌, ◌+◌, ◌++◌, length, IfOk};
ghost use Rattle.depot_rows.specs.db_records.declared.change.Op.TheVariants.{Put as PutOp};
ghost use Rattle.journal_groups.specs.Groups.{AreRecords, body_of, head_of};
ghost use Rattle.record_text.specs.Grammar.{spelling};
ghost use Rattle.depot_rows.specs.table_changes.Changed.{rows_of};
ghost use Rattle.checkpoint_file.specs.Checkpoint.{IsCheckpointOf, checkpoint_text, puts, puts_of};
ghost use Rattle.checkpoint_file.specs.Tables.{AreTables, IsTable};

use depot_rows::paths::Text;
use depot_rows::records::{Op, Record, TableId};
use depot_rows::tables::{Tables, Version};
use itoa::Buffer;
use record_text::append_record;
use std::alloc::{AllocError, Global};

/// The record that puts a row, in the room of another text.
fn print_over(room: Text, row: &Record) -> Result<Text, AllocError>
    ensures { IfOk result (λ text. text ≡ spelling PutOp row.now) }
{
    let mut bytes = room.into_vec();
    bytes.clear();
    append_record(Text::from_vec(bytes), Op::Put, row)
}

/// How many bytes there are with the records that put these rows, behind so many others. More than a number
/// of 64 bits can say are never in memory.
fn measure_rows(alloc: Global, version: &Version, before: u64) -> Result<u64, AllocError>
    ensures { IfOk result (λ size. size ≡ before + length (body_of (puts version.now.rows))) }
{
    let mut size = before;
    let mut text = Text::new(alloc);
    for row in version.rows() {
        text = print_over(text, row)?;
        match size.checked_add(text.len() as u64) {
            Some(more) => size = more,
            None => return Err(AllocError),
        }
    }
    Ok(size)
}

/// How many bytes the records have that put the rows of all tables.
fn measure_tables(alloc: Global, tables: &Tables) -> Result<u64, AllocError>
    ensures { IfOk result (λ size. size ≡ length (body_of (puts_of (rows_of tables.now)))) }
{
    let mut size = 0;
    for table in TableId::ALL {
        size = measure_rows(alloc, tables.version(table), size)?;
    }
    Ok(size)
}

/// Writes the line before a group's records behind a text: the group's number, and how many bytes they have.
fn append_head(text: Text, number: u64, size: u64) -> Result<Text, AllocError>
    ensures { IfOk result (λ longer. longer ≡ text ++ head_of number size) }
{
    let mut text = text;
    text.append(b"@nx@ ")?;
    let mut buffer = Buffer::new();
    text.append(buffer.format(number).as_bytes())?;
    text.append(b" ")?;
    let mut other = Buffer::new();
    text.append(other.format(size).as_bytes())?;
    text.append(b"\n")?;
    Ok(text)
}

/// Writes the records that put these rows behind a text.
fn append_rows(text: Text, version: &Version) -> Result<Text, AllocError>
    ensures { IfOk result (λ longer. longer ≡ text ++ body_of (puts version.now.rows)) }
{
    let mut text = text;
    for row in version.rows() {
        text = append_record(text, Op::Put, row)?;
    }
    Ok(text)
}

/// Writes the records that put the rows of all tables behind a text, tables and keys rising.
fn append_tables(text: Text, tables: &Tables) -> Result<Text, AllocError>
    ensures { IfOk result (λ longer. longer ≡ text ++ body_of (puts_of (rows_of tables.now))) }
{
    let mut text = text;
    for table in TableId::ALL {
        text = append_rows(text, tables.version(table))?;
    }
    Ok(text)
}

/// A text without bytes, and room for a head and records of so many bytes.
fn text_with_room(alloc: Global, size: u64) -> Result<Text, AllocError>
    ensures { IfOk result (λ text. length text ≡ 0) }
{
    let room = size.saturating_add(HEAD_ROOM);
    Ok(Text::from_vec(Vec::with_capacity(alloc, room as usize)?))
}

/// The longest head of a group, in bytes.
const HEAD_ROOM: u64 = 47;

/// The rows of a table are of it, and their keys rise.
fn know_table(tables: &Tables, table: TableId)
    ensures { IsTable table (rows_of tables.now table) }
{
    // the rows of a version are of its table, their keys rising
    let _table = tables.version(table).table();
}

/// The rows of each table are of it, and their keys rise.
fn know_tables(tables: &Tables)
    ensures { AreTables (rows_of tables.now) }
{
    know_table(tables, TableId::Counter);
    know_table(tables, TableId::Group);
    know_table(tables, TableId::Protect);
    know_table(tables, TableId::Domain);
    know_table(tables, TableId::Have);
    know_table(tables, TableId::Label);
    know_table(tables, TableId::Integed);
    know_table(tables, TableId::Resolve);
    know_table(tables, TableId::Working);
    know_table(tables, TableId::Change);
    know_table(tables, TableId::Rev);
}

/// The checkpoint of a generation, with the rows of these tables. The one error is want of memory.
///
/// The rows are measured first, so that the text is made once, in the room that it takes.
pub fn print_generation(alloc: Global, tables: &Tables, generation: u32) -> Result<Text, AllocError>
    ensures text { IfOk result (λ text. text ≡ checkpoint_text generation (rows_of tables.now)) }
    // Where each row has a text, these are read again as the rows of the checkpoint.
    ensures checkpoint { AreRecords (puts_of (rows_of tables.now)) →
        IfOk result (IsCheckpointOf generation (rows_of tables.now)) }
{
    know_tables(tables);
    let size = measure_tables(alloc, tables)?;
    let room = text_with_room(alloc, size)?;
    let head = append_head(room, generation as u64, size)?;
    let text = append_tables(head, tables)?;
    Ok(text)
}
