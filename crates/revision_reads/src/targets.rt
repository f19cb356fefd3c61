//! Files of client paths, and the targets of sources, where the texts of one argument's specifiers are put into
//! another.

ghost use Rattle.std.specs.Prelude.{◌≡◌, [], List, IfOk, Some, find, if◌then◌else◌, unwrap_or};
ghost use Rattle.std.specs.Option.{option_copied};
ghost use Rattle.depot_rows.specs.db_records.declared.table.TableId.TheVariants as table_ids;
ghost use Rattle.depot_rows.specs.depot_path.Fit.{texts as texts_in};
ghost use Rattle.depot_rows.specs.table_changes.Changed.{rows_of};
ghost use Rattle.depot_rows.specs.view_map.Mapping.{files_at};
ghost use Rattle.depot_rows.specs.depot_model.Arguments.{in_client_syntax as in_syntax_of};
ghost use Rattle.depot_rows.specs.depot_model.Asking.{view as view_in};
ghost use Rattle.depot_rows.specs.depot_model.Choice.{shown};
ghost use Rattle.depot_rows.specs.depot_model.Deeds.{Deed};
ghost use Rattle.depot_rows.specs.depot_model.Revisions.{is_live_head as live_head};
ghost use Rattle.depot_rows.specs.depot_model.Rules.{IsSound};
ghost use Rattle.depot_rows.specs.depot_model.Steps.Adding.{first_live as first_live_in};
ghost use Rattle.depot_rows.specs.depot_model.Steps.Targets as model;
ghost use Rattle.depot_rows.specs.Standing.{HasRows};
ghost use Rattle.revision_reads.specs.Choice.{HaveRows, wanted_tables};

use crate::revisions::is_live_head;
use crate::shown::shown_by;
use depot_rows::model::{Caller, FileArgument, PatternArgument};
use depot_rows::paths::{ClientPath, DepotPath, Pattern, Sequence, Text, Wanted};
use depot_rows::tables::Tables;
use depot_rows::views::{View, answering};
use row_reads::in_client_syntax;
use std::alloc::{AllocError, Global};

/// The first of some files that is there and isn't deleted.
fn find_live<'a>(
    alloc: Global,
    tables: &Tables,
    files: &'a [DepotPath],
) -> Result<Option<&'a DepotPath>, AllocError>
    ensures { IfOk result (λ found. (d : List Deed) → IsSound d → HasRows (rows_of tables.now) d table_ids.Rev →
        option_copied found ≡ find (live_head d) files.now) }
{
    for path in files {
        let live = is_live_head(alloc, tables, path)?;
        if live {
            return Ok(Some(path));
        }
    }
    Ok(None)
}

/// A file, or else another one.
fn own_path(found: Option<&DepotPath>, other: &DepotPath) -> Result<DepotPath, AllocError>
    ensures { IfOk result (λ path. path ≡ unwrap_or (option_copied found.entry) other.now) }
{
    match found {
        Some(path) => path.clone(),
        None => other.clone(),
    }
}

/// The first of some files that is there and isn't deleted, or else the first, None exactly where there are none
/// (Command-Line Reference, "p4 add"), from the table of revisions alone. The one error, here and below, is want of
/// memory.
pub fn first_live(
    alloc: Global,
    tables: &Tables,
    files: &[DepotPath],
) -> Result<Option<DepotPath>, AllocError>
    ensures { IfOk result (λ file. (d : List Deed) → IsSound d → HasRows (rows_of tables.now) d table_ids.Rev →
        file ≡ first_live_in d files.now) }
{
    match files {
        [] => Ok(None),
        [first, ..] => {
            let found = find_live(alloc, tables, files)?;
            let path = own_path(found, first)?;
            Ok(Some(path))
        }
    }
}

/// The file that a client path stands for: of those that the view puts there the first that is there and isn't deleted,
/// or else the first (Command-Line Reference, "p4 add", "Views"), from the table of revisions alone.
pub fn file_at(
    alloc: Global,
    tables: &Tables,
    view: &View,
    path: &ClientPath,
) -> Result<Option<DepotPath>, AllocError>
    ensures { IfOk result (λ file. (d : List Deed) → IsSound d → HasRows (rows_of tables.now) d table_ids.Rev →
        file ≡ first_live_in d (files_at view.now path.now)) }
{
    let files = view.to_depot(alloc, path)?;
    let file = first_live(alloc, tables, files.as_slice())?;
    Ok(file)
}

/// The client path at which a client's view shows a file at a choice of revisions, None exactly where there is none
/// (Command-Line Reference, "Views"), from the table of revisions and those for which the choice asks.
pub fn shown_in_view(
    alloc: Global,
    tables: &Tables,
    caller: &Caller,
    view: &View,
    path: &DepotPath,
    wanted: &Wanted,
) -> Result<Option<ClientPath>, AllocError>
    ensures { IfOk result (λ place. (d : List Deed) → IsSound d → HasRows (rows_of tables.now) d table_ids.Rev →
        HaveRows (rows_of tables.now) d (wanted_tables wanted.now) →
        view.now ≡ view_in d caller.now.client → place ≡ shown d caller.now wanted.now path.now) }
{
    let place = shown_by(alloc, tables, caller, view, path, wanted)?;
    Ok(place)
}

/// The text whose specifiers' texts are put into the target: the file, or its place where the source is in client
/// syntax.
fn source_text(
    alloc: Global,
    tables: &Tables,
    caller: &Caller,
    view: &View,
    from: &FileArgument,
    path: &DepotPath,
) -> Result<DepotPath, AllocError>
    ensures { IfOk result (λ text. (d : List Deed) → IsSound d → HasRows (rows_of tables.now) d table_ids.Rev →
        HaveRows (rows_of tables.now) d (wanted_tables from.now.spec.wanted) →
        view.now ≡ view_in d caller.now.client →
        text ≡ unwrap_or (model.source_text d caller.now from.now path.now) path.now) }
{
    if !in_client_syntax(&caller.client, &from.spec.pattern) {
        let text = path.clone()?;
        return Ok(text);
    }
    let place = shown_in_view(alloc, tables, caller, view, path, &from.spec.wanted)?;
    match place {
        Some(place) => Ok(place),
        None => {
            let text = path.clone()?;
            Ok(text)
        }
    }
}

/// The texts of a pattern's specifiers in a path, none where it doesn't fit.
fn texts_of(
    alloc: Global,
    pattern: &Pattern,
    path: &DepotPath,
) -> Result<Sequence<Text>, AllocError>
    ensures { IfOk result (λ texts. texts ≡ unwrap_or (texts_in pattern.now path.now) []) }
{
    match pattern.texts(alloc, path.as_bytes())? {
        Some(texts) => Ok(texts),
        None => Ok(Sequence::new(alloc)),
    }
}

/// The text of a source's target, which may be no path (Command-Line Reference, "p4 integrate", "p4 move"), from the
/// table of revisions and those for which the source asks.
pub fn target_text(
    alloc: Global,
    tables: &Tables,
    caller: &Caller,
    view: &View,
    from: &FileArgument,
    to: &PatternArgument,
    path: &DepotPath,
) -> Result<Text, AllocError>
    ensures { IfOk result (λ text. (d : List Deed) → IsSound d → HasRows (rows_of tables.now) d table_ids.Rev →
        HaveRows (rows_of tables.now) d (wanted_tables from.now.spec.wanted) →
        view.now ≡ view_in d caller.now.client → text ≡ model.target_text d caller.now from.now to.now path.now) }
{
    let source = source_text(alloc, tables, caller, view, from, path)?;
    let texts = texts_of(alloc, &from.spec.pattern, &source)?;
    let answer = answering(alloc, &from.spec.pattern, &to.pattern, texts.as_slice())?;
    let text = to.pattern.filled(alloc, answer.as_slice())?;
    Ok(text)
}

/// The file of a target that is a path: itself, or in client syntax that of the place.
fn file_of(
    alloc: Global,
    tables: &Tables,
    caller: &Caller,
    view: &View,
    to: &PatternArgument,
    path: DepotPath,
) -> Result<Option<DepotPath>, AllocError>
    ensures { IfOk result (λ file. (d : List Deed) → IsSound d → HasRows (rows_of tables.now) d table_ids.Rev →
        file ≡ (if in_syntax_of caller.now.client to.now.pattern then first_live_in d (files_at view.now path) else Some path)) }
{
    if in_client_syntax(&caller.client, &to.pattern) {
        let file = file_at(alloc, tables, view, &path)?;
        Ok(file)
    } else {
        Ok(Some(path))
    }
}

/// The file of a target's text, None exactly where it is no path or no file has that client path (Command-Line
/// Reference, "p4 integrate", "p4 move"), from the table of revisions alone.
pub fn target_at(
    alloc: Global,
    tables: &Tables,
    caller: &Caller,
    view: &View,
    to: &PatternArgument,
    text: &Text,
) -> Result<Option<DepotPath>, AllocError>
    ensures { IfOk result (λ file. (d : List Deed) → IsSound d → HasRows (rows_of tables.now) d table_ids.Rev →
        view.now ≡ view_in d caller.now.client →
        file ≡ model.target_at d caller.now to.now text.now) }
{
    let own = Text::from_bytes(alloc, text.as_bytes())?;
    let read = DepotPath::from_text(own);
    match read {
        Some(path) => {
            let file = file_of(alloc, tables, caller, view, to, path)?;
            Ok(file)
        }
        None => Ok(None),
    }
}
