//! Walks over the rows of the files that are shelved in a change.

ghost use Rattle.std.specs.Prelude.{◌≡◌, IfOk, filter};
ghost use Rattle.std.specs.Iterator.{YieldsFirstRef, item_count};
ghost use Rattle.std.specs.Option.{option_copied};
ghost use Rattle.depot_rows.specs.db_records.declared.table.TableId.TheVariants as table_ids;
ghost use Rattle.depot_rows.specs.table_changes.Changed.{rows_of};
ghost use Rattle.shelf_ops.specs.ShelfRows.{beginning, behind as text_behind, first_key as key_first, is_of_shelf as is_shelf_row, shelf_text as text_of_shelf};

use depot_rows::paths::Text;
use depot_rows::records::{Key, Record, TableId};
use depot_rows::tables::{Tables, Walk};
use itoa::Buffer;
use std::alloc::{AllocError, Global};
use std::marker::Model;

/// The rows of shelved files whose names begin with a text, from a place on, in key order.
#[derive(Drop)]
pub(crate) struct ShelfWalk<'a> {
    /// The text, until the end of such rows is reached.
    start: Option<&'a Text>,
    rows: Walk<'a>,
}

impl<'a> Model for ShelfWalk<'a> {
    ghost use Rattle.std.specs.Prelude.{List};
    ghost use Rattle.std.specs.Option.{option_copied};
    ghost use Rattle.depot_rows.specs.db_records.declared.record.Record.{Record};
    ghost use Rattle.shelf_ops.specs.ShelfRows.{ahead};

    ghost Value = { List Record };

    ghost view = { λ walk. ahead (option_copied walk.start) walk.rows };
}

impl<'a> Iterator for ShelfWalk<'a> {
    type Item = &'a Record;

    ghost next_gives = { YieldsFirstRef (λ s. s) };

    ghost remaining = { item_count (λ s. s) };

    fn next(&mut self) -> Option<&'a Record> {
        let start = self.start?;
        if let Some(row) = self.rows.next()
            && is_of_shelf(start, row)
        {
            return Some(row);
        }
        self.start = None;
        None
    }
}

/// What stands in a name behind its beginning.
fn behind<'a>(start: &Text, name: &'a [u8]) -> Option<&'a [u8]>
    ensures { option_copied result ≡ text_behind start.now name.now }
{
    name.strip_prefix(start.as_bytes())
}

/// What stands behind the beginning in the name of the form of a shelved file.
pub(crate) fn shelf_text<'a>(start: &Text, row: &'a Record) -> Option<&'a [u8]>
    ensures { option_copied result ≡ text_of_shelf start.now row.now }
{
    match row {
        Record::Domain(row) => {
            if row.kind.as_bytes() == b"shelf".as_slice() {
                behind(start, row.name.as_bytes())
            } else {
                None
            }
        }
        _ => None,
    }
}

/// Whether a row is that of a shelved file whose name begins with a text.
fn is_of_shelf(start: &Text, row: &Record) -> bool
    ensures { result ≡ is_shelf_row start.now row.now }
{
    shelf_text(start, row).is_some()
}

/// The least key of such rows.
fn first_key(alloc: Global, start: &Text) -> Result<Key, AllocError>
    ensures { IfOk result (λ key. key ≡ key_first start.now) }
{
    let kind = Text::from_bytes(alloc, b"shelf")?;
    let name = start.clone()?;
    Ok(Key::Domain { kind, name })
}

/// What the names of the forms of a change begin with: its number and a space.
pub(crate) fn beginning_of(alloc: Global, change: u32) -> Result<Text, AllocError>
    ensures { IfOk result (λ start. start ≡ beginning change) }
{
    let mut start = Text::from_bytes(alloc, Buffer::new().format(change).as_bytes())?;
    start.append(b" ")?;
    Ok(start)
}

/// The rows of shelved files whose names begin with a text, in the order of their keys, at the cost of these rows
/// alone. The one error is want of memory.
pub(crate) fn rows_in<'a>(
    alloc: Global,
    tables: &'a Tables,
    start: &'a Text,
) -> Result<ShelfWalk<'a>, AllocError>
    ensures { IfOk result (λ walk. walk ≡ filter (is_shelf_row start.now) (rows_of tables.now table_ids.Domain)) }
{
    let version = tables.version(TableId::Domain);
    // the rows of a version are of its table, their keys rising
    let _in_order = version.table();
    let first = first_key(alloc, start)?;
    Ok(ShelfWalk {
        start: Some(start),
        rows: version.from_key(&first),
    })
}
