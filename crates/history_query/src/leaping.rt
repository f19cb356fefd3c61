//! Directories that fit a pattern without `...`, by leaps over the files below each.

ghost use Rattle.std.specs.Prelude.{◌≡◌, ◌≤◌, ◌&&◌, ◌++◌, List, [], Some, false, flat_map, length, option_map, slice_get, take, IfOk, IfSome, OnOk};
ghost use Rattle.std.specs.Cmp.Lexicographic.{slice_cmp};
ghost use Rattle.std.specs.List.{count_by, list_any};
ghost use Rattle.std.specs.Option.{option_to_list};
ghost use Rattle.std.specs.Ordering.{nat_cmp};
ghost use Rattle.std.specs.declared.cmp.Ordering.TheVariants.{Less};
ghost use Rattle.depot_rows.specs.db_records.declared.table.TableId.TheVariants as table_ids;
ghost use Rattle.depot_rows.specs.depot_path.Path.{printed};
ghost use Rattle.depot_rows.specs.table_changes.Changed.{rows_of};
ghost use Rattle.depot_rows.specs.depot_model.declared.request.Caller.{Caller as Asking};
ghost use Rattle.depot_rows.specs.depot_model.Arguments.{in_client_syntax as client_syntax, submitted};
ghost use Rattle.depot_rows.specs.depot_model.Asking.{may_list};
ghost use Rattle.depot_rows.specs.depot_model.Deeds.{Deed};
ghost use Rattle.depot_rows.specs.depot_model.Revisions.{is_live_head as live_head};
ghost use Rattle.depot_rows.specs.depot_model.Rules.{IsSound};
ghost use Rattle.depot_rows.specs.Standing.{HasRows};
ghost use Rattle.named_files.specs.Asked.{IsAsker};
ghost use Rattle.named_files.specs.Listed.{listed, listed_text, path_in_text, paths_in};
ghost use Rattle.named_files.specs.declared.listing.Listing.TheVariants.{Submitted};
ghost use Rattle.history_query.specs.Directories.{all_fitting, directories_of};
ghost use Rattle.history_query.specs.Leaping.{IsDepth, behind_directory, behind_file, directory_at, files_from, first_begun, is_dots, is_slash, next_text, texts_at, texts_put};

use crate::directories::{is_fitting, is_seen};
use crate::texts::TextSet;
use depot_rows::paths::{DepotPath, PathFault, Pattern, Piece, Sequence, Text, print_bytes};
use depot_rows::records::{Key, Record, TableId};
use depot_rows::tables::Tables;
use named_files::Asker;
use std::alloc::{AllocError, Global};

/// Whether a pattern has `...`.
fn has_dots(pattern: &Pattern) -> bool
    ensures { result ≡ list_any is_dots pattern.now }
{
    let pieces = pattern.pieces();
    pieces.iter().any(|piece| matches!(piece, Piece::Dots))
}

/// How many slashes a pattern has.
fn slashes_in(pattern: &Pattern) -> usize
    ensures { result ≡ count_by is_slash pattern.now }
{
    let pieces = pattern.pieces();
    pieces
        .iter()
        .filter(|piece| matches!(piece, Piece::Byte(b'/')))
        .count()
}

/// How many slashes behind two each text has that fits a pattern; None for a pattern with `...`, which fits texts with
/// any number.
pub(crate) fn depth_of(pattern: &Pattern) -> Option<usize>
    ensures { IfSome result (λ depth. IsDepth pattern.now depth) }
{
    if has_dots(pattern) {
        return None;
    }
    slashes_in(pattern).checked_sub(2)
}

/// Where the directory above a path ends that has so many slashes behind the first two, if there is one.
fn end_of(path: &[u8], depth: usize) -> Option<usize>
    ensures front { option_map (λ end. take end path.now) result ≡ directory_at depth path.now }
    ensures within { IfSome result (λ end. end ≤ length path.now) }
{
    let mut left = depth;
    let mut end = 2;
    while end < path.len() {
        if path[end] == b'/' {
            if left == 0 {
                return Some(end);
            }
            left -= 1;
        }
        end += 1;
    }
    None
}

/// The path that a text spells, where it is that path as printed.
fn read_path(alloc: Global, text: &Text) -> Result<Option<DepotPath>, AllocError>
    ensures { IfOk result (λ path. option_to_list path ≡ path_in_text text.now) }
{
    match DepotPath::read(alloc, text.as_bytes()) {
        Ok(path) => {
            if path.print(alloc)?.as_bytes() == text.as_bytes() {
                Ok(Some(path))
            } else {
                Ok(None)
            }
        }
        Err(PathFault::Memory) => Err(AllocError),
        Err(_) => Ok(None),
    }
}

/// The file whose first revision a row is.
fn file_of(alloc: Global, row: &Record) -> Result<Option<DepotPath>, AllocError>
    ensures { IfOk result (λ path. option_to_list path ≡ paths_in (listed_text Submitted row.now)) }
{
    match row {
        Record::Rev(row) if row.rev == 1 => read_path(alloc, &row.path),
        _ => Ok(None),
    }
}

/// The first submitted file from a text on.
fn file_from(alloc: Global, tables: &Tables, from: &Text) -> Result<Option<DepotPath>, AllocError>
    ensures { IfOk result (λ path. path ≡
        slice_get (files_from from.now (listed Submitted (rows_of tables.now table_ids.Rev))) 0) }
{
    let key = Key::Rev {
        path: Text::from_bytes(alloc, from.as_bytes())?,
        rev: 0,
    };
    for row in tables.version(TableId::Rev).from_key(&key) {
        if let Some(path) = file_of(alloc, row)? {
            return Ok(Some(path));
        }
    }
    Ok(None)
}

/// That file, where it begins with a text.
fn begun_from(
    alloc: Global,
    tables: &Tables,
    from: &Text,
    beginning: &Text,
) -> Result<Option<DepotPath>, AllocError>
    ensures { IfOk result (λ path. path ≡
        first_begun beginning.now (files_from from.now (listed Submitted (rows_of tables.now table_ids.Rev)))) }
{
    let Some(path) = file_from(alloc, tables, from)? else {
        return Ok(None);
    };
    let text = path.print(alloc)?;
    if !text.as_bytes().starts_with(beginning.as_bytes()) {
        return Ok(None);
    }
    Ok(Some(path))
}

/// The least text behind that of a file.
fn after_file(alloc: Global, path: &DepotPath) -> Result<Text, AllocError>
    ensures { IfOk result (λ text. text ≡ behind_file path.now) }
{
    let mut text = path.print(alloc)?;
    text.append(b"\0")?;
    Ok(text)
}

/// The least text behind those of all files below a directory.
fn after_directory(alloc: Global, directory: &[u8]) -> Result<Text, AllocError>
    ensures { IfOk result (λ text. text ≡ behind_directory directory.now) }
{
    let mut text = print_bytes(alloc, directory)?;
    text.append(b"0")?;
    Ok(text)
}

/// Adds the directory of a file that fits, if the file is seen, and gives the text from which on no more files tell of
/// it.
fn leap(
    alloc: Global,
    tables: &Tables,
    asker: &Asker,
    pattern: &Pattern,
    depth: usize,
    found: &mut Sequence<Text>,
    path: &DepotPath,
) -> Result<Text, AllocError>
    ensures later { IfOk result (λ from. slice_cmp nat_cmp (printed path.now) from ≡ Less) }
    ensures from { IfOk result (λ from. (d : List Deed) (caller : Asking) → IsSound d → IsAsker d caller asker.now →
        HasRows (rows_of tables.now) d table_ids.Rev →
        from ≡ next_text pattern.now depth (may_list d caller path.now && live_head d path.now) path.now) }
    ensures found { OnOk result ((d : List Deed) (caller : Asking) → IsSound d → IsAsker d caller asker.now →
        HasRows (rows_of tables.now) d table_ids.Rev →
        found.new ≡ found.old ++ texts_at pattern.now depth (may_list d caller path.now && live_head d path.now) path.now) }
{
    let bytes = path.as_bytes();
    let Some(end) = end_of(bytes, depth) else {
        let from = after_file(alloc, path)?;
        return Ok(from);
    };
    let directory = &bytes[..end];
    let fitting = is_fitting(alloc, pattern, directory)?;
    if !fitting {
        let from = after_directory(alloc, directory)?;
        return Ok(from);
    }
    let visible = is_seen(alloc, tables, asker, path)?;
    if !visible {
        let from = after_file(alloc, path)?;
        return Ok(from);
    }
    let text = print_bytes(alloc, directory)?;
    found.push(text)?;
    let from = after_directory(alloc, directory)?;
    Ok(from)
}

/// The rows of revisions list the submitted files of a sound depot.
fn rows_list_files(tables: &Tables)
    ensures { (d : List Deed) → IsSound d → HasRows (rows_of tables.now) d table_ids.Rev →
        listed Submitted (rows_of tables.now table_ids.Rev) ≡ submitted d }
{
    let version = tables.version(TableId::Rev);
    // the rows of a version are of its table, their keys rising
    let _table = version.table();
}

/// The directories of a depth that fit a pattern, each once, as they are printed, in the order in which a walk over the
/// files comes to them.
fn found_by_leaps(
    alloc: Global,
    tables: &Tables,
    asker: &Asker,
    pattern: &Pattern,
    depth: usize,
) -> Result<Sequence<Text>, AllocError>
    requires depth { IsDepth pattern.now depth }
    requires syntax { client_syntax asker.now.client pattern.now ≡ false }
    ensures { IfOk result (λ found. (d : List Deed) (caller : Asking) → IsSound d → IsAsker d caller asker.now →
        HasRows (rows_of tables.now) d table_ids.Rev →
        texts_put found [] ≡ all_fitting pattern.now (flat_map (directories_of d caller pattern.now) (submitted d)) []) }
{
    rows_list_files(tables);
    let beginning = pattern.beginning(alloc)?;
    let mut found = Sequence::new(alloc);
    let mut from = Text::from_bytes(alloc, beginning.as_bytes())?;
    while let Some(path) = begun_from(alloc, tables, &from, &beginning)? {
        from = leap(alloc, tables, asker, pattern, depth, &mut found, &path)?;
    }
    Ok(found)
}

/// Texts as a set.
fn set_of(alloc: Global, texts: Sequence<Text>) -> Result<TextSet, AllocError>
    ensures { IfOk result (λ set. set ≡ texts_put texts []) }
{
    let mut set = TextSet::new(alloc);
    let mut rest = texts.into_vec();
    while let Some(text) = rest.pop() {
        set.insert(text)?;
    }
    Ok(set)
}

/// The directories of submitted files that fit a pattern in depot syntax, all of whose texts have so many slashes
/// behind two, as they are printed. Its cost follows the directories of that depth, and the files below them up to the
/// first that is live and may be listed.
pub(crate) fn by_leaps(
    alloc: Global,
    tables: &Tables,
    asker: &Asker,
    pattern: &Pattern,
    depth: usize,
) -> Result<TextSet, AllocError>
    requires depth { IsDepth pattern.now depth }
    requires syntax { client_syntax asker.now.client pattern.now ≡ false }
    ensures { IfOk result (λ set. (d : List Deed) (caller : Asking) → IsSound d → IsAsker d caller asker.now →
        HasRows (rows_of tables.now) d table_ids.Rev →
        set ≡ all_fitting pattern.now (flat_map (directories_of d caller pattern.now) (submitted d)) []) }
{
    let found = found_by_leaps(alloc, tables, asker, pattern, depth)?;
    let set = set_of(alloc, found)?;
    Ok(set)
}
