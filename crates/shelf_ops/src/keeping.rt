//! The files that are kept in a change.

ghost use Rattle.std.specs.Prelude.{◌≡◌, ◌++◌, ◌∷◌, [], ℕ, List, filter, flat_map, IfOk, OnOk, is_some, option_map};
ghost use Rattle.std.specs.Option.{option_to_list};
ghost use Rattle.depot_rows.specs.db_records.declared.table.TableId.TheVariants as table_ids;
ghost use Rattle.depot_rows.specs.table_changes.Changed.{rows_of};
ghost use Rattle.depot_rows.specs.depot_model.declared.request.Caller.{Caller as AnyCaller};
ghost use Rattle.depot_rows.specs.depot_model.Deeds.{Deed};
ghost use Rattle.depot_rows.specs.depot_model.Refusals.{refusal_row};
ghost use Rattle.depot_rows.specs.depot_model.Rules.{IsSound};
ghost use Rattle.depot_rows.specs.depot_model.Shelves as model;
ghost use Rattle.depot_rows.specs.Standing.{HasRows};
ghost use Rattle.depot_rows.specs.depot_model.Steps.Shelving.{listable, shelf_refusal as refusal_of_shelf};
ghost use Rattle.named_files.specs.Asked.{IsAsker};
ghost use Rattle.named_files.specs.Listed.{path_in_text};
ghost use Rattle.shelf_ops.specs.Kept.{if_kept as kept_if, kept_file, listable_file};
ghost use Rattle.shelf_ops.specs.ShelfRows.{beginning, shelf_file, shelf_files as files_in_rows};

use crate::shelf_rows::{beginning_of, rows_in, shelf_text};
use depot_rows::SpecKind;
use depot_rows::forms::Form;
use depot_rows::model::Row;
use depot_rows::paths::{DepotPath, PathFault, Sequence, Text};
use depot_rows::protections::Level;
use depot_rows::records::{Record, TableId};
use depot_rows::tables::Tables;
use named_files::Asker;
use reply_rows::no_shelf_row;
use row_reads::{form_value, saved_form};
use std::alloc::{AllocError, Global};

/// The path that a text spells, where it is that path as printed.
fn read_path(alloc: Global, text: &[u8]) -> Result<Option<DepotPath>, AllocError>
    ensures { IfOk result (λ path. option_to_list path ≡ path_in_text text.now) }
{
    match DepotPath::read(alloc, text) {
        Ok(path) => {
            if path.print(alloc)?.as_bytes() == text {
                Ok(Some(path))
            } else {
                Ok(None)
            }
        }
        Err(PathFault::Memory) => Err(AllocError),
        Err(_) => Ok(None),
    }
}

/// Adds the file of a row.
fn add_row(
    alloc: Global,
    files: &mut Sequence<DepotPath>,
    start: &Text,
    row: &Record,
) -> Result<(), AllocError>
    ensures { OnOk result (files.new ≡ files.old ++ shelf_file start.now row.now) }
{
    let Some(text) = shelf_text(start, row) else {
        return Ok(());
    };
    if let Some(path) = read_path(alloc, text)? {
        files.push(path)?;
    }
    Ok(())
}

/// The files of the rows of shelved files whose names begin with a text.
fn files_from(
    alloc: Global,
    tables: &Tables,
    start: &Text,
) -> Result<Sequence<DepotPath>, AllocError>
    ensures { IfOk result (λ files. files ≡ files_in_rows start.now (rows_of tables.now table_ids.Domain)) }
{
    let mut files = Sequence::new(alloc);
    for row in rows_in(alloc, tables, start)? {
        add_row(alloc, &mut files, start, row)?;
    }
    Ok(files)
}

/// The name of the form of a file that is shelved in a change.
pub(crate) fn shelf_name(alloc: Global, change: u32, path: &DepotPath) -> Result<Text, AllocError>
    ensures { IfOk result (λ name. name ≡ model.shelf_name change path.now) }
{
    let mut name = beginning_of(alloc, change)?;
    let text = path.print(alloc)?;
    name.append(text.as_bytes())?;
    Ok(name)
}

/// Whether a form is of a file that is kept.
fn is_kept(form: &Form) -> bool
    ensures { result ≡ model.is_kept form.now }
{
    form_value(form, "State") == b"kept".as_slice()
}

/// The form, where it is of a file that is kept.
fn if_kept(form: Option<Form>) -> Option<Form>
    ensures { result ≡ kept_if form }
{
    match form {
        Some(form) => { if is_kept(&form) { Some(form) } else { None } }
        None => None,
    }
}

/// The form of a file that is kept in a change, None exactly where it isn't, from the table of forms alone.
pub(crate) fn kept_form(
    alloc: Global,
    tables: &Tables,
    change: u32,
    path: &DepotPath,
) -> Result<Option<Form>, AllocError>
    ensures { IfOk result (λ form. (d : List Deed) → IsSound d → HasRows (rows_of tables.now) d table_ids.Domain →
        form ≡ model.kept d change path.now) }
{
    let name = shelf_name(alloc, change, path)?;
    let form = saved_form(alloc, tables, SpecKind::Shelf, name.as_bytes())?;
    let kept = if_kept(form);
    Ok(kept)
}

/// Adds a copy of a path.
fn put_path(paths: &mut Sequence<DepotPath>, path: &DepotPath) -> Result<(), AllocError>
    ensures { OnOk result (paths.new ≡ paths.old ++ path.now ∷ []) }
{
    let copy = path.clone()?;
    paths.push(copy)?;
    Ok(())
}

/// Adds a file, where it is kept in the change.
fn push_kept(
    alloc: Global,
    tables: &Tables,
    files: &mut Sequence<DepotPath>,
    change: u32,
    path: &DepotPath,
) -> Result<(), AllocError>
    ensures { OnOk result ((d : List Deed) → IsSound d → HasRows (rows_of tables.now) d table_ids.Domain →
        files.new ≡ files.old ++ kept_file d change path.now) }
{
    let form = kept_form(alloc, tables, change, path)?;
    let kept = form.is_some();
    drop(form);
    if kept {
        put_path(files, path)?;
    }
    Ok(())
}

/// Of some files those that are kept in the change.
fn kept_among(
    alloc: Global,
    tables: &Tables,
    change: u32,
    paths: &[DepotPath],
) -> Result<Sequence<DepotPath>, AllocError>
    ensures { IfOk result (λ files. (d : List Deed) → IsSound d → HasRows (rows_of tables.now) d table_ids.Domain →
        files ≡ flat_map (kept_file d change) paths.now) }
{
    let mut files = Sequence::new(alloc);
    let mut rest = paths;
    while let [path, later @ ..] = rest {
        push_kept(alloc, tables, &mut files, change, path)?;
        rest = later;
    }
    Ok(files)
}

/// Of the files of the rows of a change those that are kept are those that the depot keeps.
fn rows_tell_kept(tables: &Tables)
    ensures { (d : List Deed) (n : ℕ) → IsSound d → HasRows (rows_of tables.now) d table_ids.Domain →
        filter (λ path. is_some (model.kept d n path))
        (files_in_rows (beginning n) (rows_of tables.now table_ids.Domain)) ≡ model.kept_paths d n }
{
    let version = tables.version(TableId::Domain);
    // the rows of a version are of its table, their keys rising
    let _table = version.table();
}

/// The files that are kept in a change (Command-Line Reference, "p4 shelve"), in the order of their paths, from the
/// table of forms alone. It walks over the forms of the change's shelved files alone, also those that are gone. The one
/// error is want of memory.
pub(crate) fn kept_files(
    alloc: Global,
    tables: &Tables,
    change: u32,
) -> Result<Sequence<DepotPath>, AllocError>
    ensures { IfOk result (λ files. (d : List Deed) → IsSound d → HasRows (rows_of tables.now) d table_ids.Domain →
        files ≡ model.kept_paths d change) }
{
    rows_tell_kept(tables);
    let start = beginning_of(alloc, change)?;
    let paths = files_from(alloc, tables, &start)?;
    let files = kept_among(alloc, tables, change, paths.as_slice())?;
    Ok(files)
}

/// Adds a file, where the asker may list it.
fn push_listable(
    files: &mut Sequence<DepotPath>,
    asker: &Asker,
    path: &DepotPath,
) -> Result<(), AllocError>
    ensures { OnOk result (files.new ≡ files.old ++ listable_file asker.now path.now) }
{
    let may = asker.may(path, Level(1));
    if may {
        put_path(files, path)?;
    }
    Ok(())
}

/// Of some files those that the asker may list.
fn listable_among(
    alloc: Global,
    asker: &Asker,
    paths: &[DepotPath],
) -> Result<Sequence<DepotPath>, AllocError>
    ensures { IfOk result (λ files. files ≡ flat_map (listable_file asker.now) paths.now) }
{
    let mut files = Sequence::new(alloc);
    let mut rest = paths;
    while let [path, later @ ..] = rest {
        push_listable(&mut files, asker, path)?;
        rest = later;
    }
    Ok(files)
}

/// The files that are kept in a change, of those that the asker may list, in the order of their paths, from the table
/// of forms alone.
pub(crate) fn listable_files(
    alloc: Global,
    tables: &Tables,
    asker: &Asker,
    change: u32,
) -> Result<Sequence<DepotPath>, AllocError>
    ensures { IfOk result (λ files. (d : List Deed) (caller : AnyCaller) → IsSound d → IsAsker d caller asker.now →
        HasRows (rows_of tables.now) d table_ids.Domain →
        files ≡ listable d caller change) }
{
    let kept = kept_files(alloc, tables, change)?;
    let files = listable_among(alloc, asker, kept.as_slice())?;
    Ok(files)
}

/// The row that refuses a change that keeps no file which the asker may list, from the table of forms alone.
pub(crate) fn shelf_refusal(
    alloc: Global,
    tables: &Tables,
    asker: &Asker,
    change: u32,
) -> Result<Option<Row>, AllocError>
    ensures { IfOk result (λ row. (d : List Deed) (caller : AnyCaller) → IsSound d → IsAsker d caller asker.now →
        HasRows (rows_of tables.now) d table_ids.Domain →
        row ≡ option_map refusal_row (refusal_of_shelf d caller change)) }
{
    let files = listable_files(alloc, tables, asker, change)?;
    if files.is_empty() {
        let row = no_shelf_row(alloc, change)?;
        return Ok(Some(row));
    }
    Ok(None)
}
