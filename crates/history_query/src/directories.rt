//! The directories that an argument names.

ghost use Rattle.std.specs.Prelude.{◌≡◌, ◌<◌, ◌==◌, ◌&&◌, [], List, IfOk, OnOk, Some, flat_map, if◌then◌else◌, length, map, slice_index, take};
ghost use Rattle.std.specs.Option.{option_to_list};
ghost use Rattle.depot_rows.specs.db_records.declared.table.TableId.TheVariants as table_ids;
ghost use Rattle.depot_rows.specs.depot_path.Fit.{fits};
ghost use Rattle.depot_rows.specs.depot_path.Path.{printed};
ghost use Rattle.depot_rows.specs.table_changes.Changed.{rows_of};
ghost use Rattle.depot_rows.specs.depot_path.declared.revision.Wanted.TheVariants.{Head};
ghost use Rattle.depot_rows.specs.depot_model.declared.request.Caller.{Caller as Asking};
ghost use Rattle.depot_rows.specs.depot_model.Arguments.{in_client_syntax as client_syntax, submitted};
ghost use Rattle.depot_rows.specs.depot_model.Asking.{may_list};
ghost use Rattle.depot_rows.specs.depot_model.Choice.{shown};
ghost use Rattle.depot_rows.specs.depot_model.Deeds.{Deed};
ghost use Rattle.depot_rows.specs.depot_model.Revisions.{is_live_head as live_head};
ghost use Rattle.depot_rows.specs.depot_model.Rules.{IsSound};
ghost use Rattle.depot_rows.specs.depot_model.Steps.History as model;
ghost use Rattle.depot_rows.specs.Standing.{HasRows};
ghost use Rattle.named_files.specs.Asked.{IsAsker};
ghost use Rattle.history_query.specs.Directories.{all_directories, all_fitting, begun_directories, directories_of, fitting_inserted};

use crate::leaping::{by_leaps, depth_of};
use crate::texts::TextSet;
use depot_rows::model::Caller;
use depot_rows::paths::{DepotPath, Pattern, Sequence, Text, Wanted, print_bytes};
use depot_rows::protections::Level;
use depot_rows::tables::Tables;
use named_files::{Asker, Listing, begun_candidates};
use revision_reads::{is_live_head, shown_by};
use row_reads::in_client_syntax;
use std::alloc::{AllocError, Global};

/// Whether a directory fits a pattern.
pub(crate) fn is_fitting(
    alloc: Global,
    pattern: &Pattern,
    directory: &[u8],
) -> Result<bool, AllocError>
    ensures { IfOk result (λ fitting. fitting ≡ fits pattern.now directory.now) }
{
    let texts = pattern.texts(alloc, directory)?;
    let fitting = texts.is_some();
    drop(texts);
    Ok(fitting)
}

/// Adds a directory, if it fits the pattern.
fn add_fitting(
    alloc: Global,
    set: &mut TextSet,
    pattern: &Pattern,
    directory: &[u8],
) -> Result<(), AllocError>
    ensures { OnOk result (set.new ≡ fitting_inserted pattern.now directory.now set.old) }
{
    let fitting = is_fitting(alloc, pattern, directory)?;
    if !fitting {
        return Ok(());
    }
    let text = print_bytes(alloc, directory)?;
    set.insert(text)?;
    Ok(())
}

/// Adds the text before a place, where a slash stands there and it fits the pattern.
fn add_before(
    alloc: Global,
    set: &mut TextSet,
    pattern: &Pattern,
    path: &[u8],
    at: usize,
) -> Result<(), AllocError>
    requires { at < length path.now }
    ensures { OnOk result (set.new ≡ (if slice_index path.now at == 0x2F then fitting_inserted pattern.now (take at path.now) set.old else set.old)) }
{
    if path[at] == b'/' {
        add_fitting(alloc, set, pattern, &path[..at])?;
    }
    Ok(())
}

/// Adds the directories above a path that fit the pattern.
fn add_directories(
    alloc: Global,
    set: &mut TextSet,
    pattern: &Pattern,
    path: &DepotPath,
) -> Result<(), AllocError>
    ensures { OnOk result (set.new ≡ all_fitting pattern.now (model.directories path.now) set.old) }
{
    let bytes = path.as_bytes();
    let mut end = bytes.len();
    while end > 2 {
        end -= 1;
        add_before(alloc, set, pattern, bytes, end)?;
    }
    Ok(())
}

/// The path whose directories an argument asks for, of a file that is listed and live.
fn seen_of(
    alloc: Global,
    tables: &Tables,
    caller: &Caller,
    asker: &Asker,
    pattern: &Pattern,
    path: DepotPath,
) -> Result<Option<DepotPath>, AllocError>
    ensures { IfOk result (λ seen. (d : List Deed) → IsSound d → IsAsker d caller.now asker.now →
        HasRows (rows_of tables.now) d table_ids.Rev →
        seen ≡ (if client_syntax caller.now.client pattern.now then shown d caller.now Head path else Some path)) }
{
    if !in_client_syntax(&asker.client, pattern) {
        return Ok(Some(path));
    }
    let head = Wanted::Head;
    let place = shown_by(alloc, tables, caller, &asker.view, &path, &head)?;
    drop(head);
    Ok(place)
}

/// Whether the asker may list a file, and it is live.
pub(crate) fn is_seen(
    alloc: Global,
    tables: &Tables,
    asker: &Asker,
    path: &DepotPath,
) -> Result<bool, AllocError>
    ensures { IfOk result (λ seen. (d : List Deed) (caller : Asking) → IsSound d → IsAsker d caller asker.now →
        HasRows (rows_of tables.now) d table_ids.Rev →
        seen ≡ (may_list d caller path.now && live_head d path.now)) }
{
    if !asker.may(path, Level(1)) {
        return Ok(false);
    }
    let live = is_live_head(alloc, tables, path)?;
    Ok(live)
}

/// Adds the directories of a path, if there is one, that fit the pattern.
fn add_seen(
    alloc: Global,
    set: &mut TextSet,
    pattern: &Pattern,
    seen: Option<DepotPath>,
) -> Result<(), AllocError>
    ensures { OnOk result (set.new ≡
        all_fitting pattern.now (flat_map model.directories (option_to_list seen)) set.old) }
{
    if let Some(seen) = seen {
        add_directories(alloc, set, pattern, &seen)?;
    }
    Ok(())
}

/// Adds the directories of a file that fit the pattern.
fn add_file(
    alloc: Global,
    tables: &Tables,
    caller: &Caller,
    asker: &Asker,
    pattern: &Pattern,
    set: &mut TextSet,
    path: DepotPath,
) -> Result<(), AllocError>
    ensures { OnOk result ((d : List Deed) → IsSound d → IsAsker d caller.now asker.now →
        HasRows (rows_of tables.now) d table_ids.Rev →
        set.new ≡ all_fitting pattern.now (begun_directories d caller.now asker.now pattern.now path) set.old) }
{
    // the bytes of a path are one
    let _bytes = path.as_bytes();
    let visible = is_seen(alloc, tables, asker, &path)?;
    if !visible {
        return Ok(());
    }
    let seen = seen_of(alloc, tables, caller, asker, pattern, path)?;
    add_seen(alloc, set, pattern, seen)?;
    Ok(())
}

/// The directories of files that fit the pattern, as they are printed.
fn directories_among(
    alloc: Global,
    tables: &Tables,
    caller: &Caller,
    asker: &Asker,
    pattern: &Pattern,
    paths: Sequence<DepotPath>,
) -> Result<TextSet, AllocError>
    ensures { IfOk result (λ set. (d : List Deed) → IsSound d → IsAsker d caller.now asker.now →
        HasRows (rows_of tables.now) d table_ids.Rev →
        set ≡ all_fitting pattern.now (all_directories d caller.now asker.now pattern.now paths) []) }
{
    let mut set = TextSet::new(alloc);
    let mut rest = paths.into_vec();
    while let Some(path) = rest.pop() {
        add_file(alloc, tables, caller, asker, pattern, &mut set, path)?;
    }
    Ok(set)
}

/// The directories that an argument names, of all files that begin with its literal text.
fn by_files(
    alloc: Global,
    tables: &Tables,
    caller: &Caller,
    asker: &Asker,
    pattern: &Pattern,
) -> Result<TextSet, AllocError>
    ensures { IfOk result (λ set. (d : List Deed) → IsSound d → IsAsker d caller.now asker.now →
        HasRows (rows_of tables.now) d table_ids.Rev →
        set ≡ all_fitting pattern.now (flat_map (directories_of d caller.now pattern.now) (submitted d)) []) }
{
    let listing = Listing::Submitted;
    let found = begun_candidates(alloc, tables, asker, &listing, pattern);
    drop(listing);
    let paths = found?;
    let set = directories_among(alloc, tables, caller, asker, pattern, paths)?;
    Ok(set)
}

/// The directories that an argument names, as they are printed, in their order. It walks over the rows alone of files
/// that begin with the literal text with which the argument begins, and where the argument is in depot syntax and
/// without `...`, it leaps over all files below a directory once it is told, or doesn't fit. The one error is want of
/// memory.
pub(crate) fn directories(
    alloc: Global,
    tables: &Tables,
    caller: &Caller,
    asker: &Asker,
    pattern: &Pattern,
) -> Result<Sequence<Text>, AllocError>
    ensures { IfOk result (λ texts. (d : List Deed) → IsSound d → IsAsker d caller.now asker.now →
        HasRows (rows_of tables.now) d table_ids.Rev →
        texts ≡ map printed (model.dirs_of d caller.now pattern.now)) }
{
    if !in_client_syntax(&asker.client, pattern)
        && let Some(depth) = depth_of(pattern)
    {
        let set = by_leaps(alloc, tables, asker, pattern, depth)?;
        let texts = set.into_sequence(alloc)?;
        return Ok(texts);
    }
    let set = by_files(alloc, tables, caller, asker, pattern)?;
    let texts = set.into_sequence(alloc)?;
    Ok(texts)
}
