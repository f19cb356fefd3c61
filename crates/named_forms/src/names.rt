//! Walks over the names of forms.

ghost use Rattle.std.specs.Prelude.{◌≡◌, ◌++◌, List, IfOk, OnOk, drop, filter};
ghost use Rattle.depot_rows.specs.db_records.declared.key.Key.TheVariants as keys;
ghost use Rattle.depot_rows.specs.db_records.declared.table.TableId.TheVariants as table_ids;
ghost use Rattle.depot_rows.specs.depot_path.Bytes.{begins_with, same};
ghost use Rattle.depot_rows.specs.depot_model.Deeds.{Deed, FixForm, SpecKind};
ghost use Rattle.depot_rows.specs.depot_model.Latest.{keys_of, kind_word, spec_name};
ghost use Rattle.depot_rows.specs.Standing.{HasRows};
ghost use Rattle.depot_rows.specs.table_changes.Changed.{rows_of};
ghost use Rattle.row_reads.specs.Forms.{name_in, names_in};
ghost use Rattle.named_forms.specs.Named.{is_named as is_named_row, leading};

use depot_rows::paths::{Sequence, Text};
use depot_rows::records::{Key, Record, TableId};
use depot_rows::tables::{Tables, Walk};
use std::alloc::{AllocError, Global};

/// Whether a row is of a form of the kind of a word whose name begins with a text.
fn is_named(word: &[u8], start: &[u8], row: &Record) -> bool
    ensures { result ≡ is_named_row word.now start.now row.now }
{
    match row {
        Record::Domain(row) => {
            word == row.kind.as_bytes() && row.name.as_bytes().starts_with(start)
        }
        _ => false,
    }
}

/// Adds the name of a row, if it is one of a form.
fn push_name(alloc: Global, names: &mut Sequence<Text>, row: &Record) -> Result<(), AllocError>
    ensures { OnOk result (names.new ≡ names.old ++ name_in row.now) }
{
    if let Record::Domain(row) = row {
        names.push(Text::from_bytes(alloc, row.name.as_bytes())?)?;
    }
    Ok(())
}

/// The least key of such rows.
fn first_key(alloc: Global, word: &[u8], start: &[u8]) -> Result<Key, AllocError>
    ensures { IfOk result (λ key. key ≡ keys.Domain word.now start.now) }
{
    let kind = Text::from_bytes(alloc, word)?;
    let name = Text::from_bytes(alloc, start)?;
    Ok(Key::Domain { kind, name })
}

/// The names in the first rows of a walk, as long as they are such.
fn leading_names(
    alloc: Global,
    word: &[u8],
    start: &[u8],
    rows: Walk<'_>,
) -> Result<Sequence<Text>, AllocError>
    ensures { IfOk result (λ names. names ≡ names_in (leading word.now start.now rows.entry)) }
{
    let mut names = Sequence::new(alloc);
    for row in rows {
        if !is_named(word, start, row) {
            return Ok(names);
        }
        push_name(alloc, &mut names, row)?;
    }
    Ok(names)
}

/// The names that begin with a text among those under which forms of a kind are saved, in the order of bytes, from the
/// table of forms alone. The kind is given by its word. It walks over these names alone, and reads no form. The one
/// error is want of memory.
pub fn names_with(
    alloc: Global,
    tables: &Tables,
    word: &[u8],
    start: &[u8],
) -> Result<Sequence<Text>, AllocError>
    ensures { IfOk result (λ names. (d : List Deed) (kind : SpecKind) → word.now ≡ kind_word kind →
        HasRows (rows_of tables.now) d table_ids.Domain →
        names ≡ filter (λ name. begins_with name start.now) (keys_of (spec_name kind) d)) }
{
    let version = tables.version(TableId::Domain);
    // the rows of a version are of its table, their keys rising
    let _table = version.table();
    let first = first_key(alloc, word, start)?;
    let names = leading_names(alloc, word, start, version.from_key(&first))?;
    Ok(names)
}

/// The names of the fixes by a change, which is given by its digits, in the order of bytes, from the table of forms
/// alone: behind the name of a job and a space a fix's name has the digits of its change. It walks over these names
/// alone, and reads no form. The one error is want of memory.
pub fn fix_names(
    alloc: Global,
    tables: &Tables,
    change: &[u8],
) -> Result<Sequence<Text>, AllocError>
    ensures { IfOk result (λ names. (d : List Deed) → HasRows (rows_of tables.now) d table_ids.Domain →
        names ≡ filter (λ name. same (drop 10 name) change.now) (keys_of (spec_name FixForm) d)) }
{
    let version = tables.version(TableId::Domain);
    // the rows of a version are of its table, their keys rising
    let _table = version.table();
    let mut names = Sequence::new(alloc);
    for row in version.fixes_of(change) {
        push_name(alloc, &mut names, row)?;
    }
    Ok(names)
}
