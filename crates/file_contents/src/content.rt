//! The content of an opened file.

ghost use Rattle.std.specs.Prelude.{◌≡◌, List, IfOk, option_and_then};
ghost use Rattle.std.specs.Option.{option_copied, option_or};
ghost use Rattle.depot_rows.specs.db_records.declared.key.Key.TheVariants as keys;
ghost use Rattle.depot_rows.specs.db_records.declared.table.TableId.TheVariants as table_ids;
ghost use Rattle.depot_rows.specs.depot_path.Path.{printed};
ghost use Rattle.depot_rows.specs.depot_model.Deeds.{Deed};
ghost use Rattle.depot_rows.specs.depot_model.declared.request.Request.{Request as AnyRequest};
ghost use Rattle.depot_rows.specs.depot_model.Revisions.{is_live_action as live_action};
ghost use Rattle.depot_rows.specs.depot_model.Rules.{IsSound};
ghost use Rattle.depot_rows.specs.depot_model.Steps.Submitting as model;
ghost use Rattle.depot_rows.specs.Deed.{action_of, opening_of};
ghost use Rattle.depot_rows.specs.Standing.{HasRows};
ghost use Rattle.named_files.specs.Asked.{IsAsker};
ghost use Rattle.file_contents.specs.Content.{IsFound, found_in_row, is_absent as absent_test};
ghost use Rattle.depot_rows.specs.table_changes.Changed.{rows_of};

use depot_rows::model::Contents;
use depot_rows::paths::{DepotPath, Text};
use depot_rows::records::{Key, Record, RevRecord, Spot, TableId};
use depot_rows::tables::Tables;
use depot_rows::{Action, Opening, Stored};
use named_files::Asker;
use std::alloc::{AllocError, Global};

/// Where the content of a file comes from.
#[derive(Drop)]
pub enum Found<'a> {
    /// From a revision, whose content stands in the archive.
    Old(Stored),
    /// From the session.
    Block(&'a Text),
    /// From nowhere.
    Absent,
}

impl<'a> Found<'a> {
    /// Whether there is none.
    pub fn is_absent(&self) -> bool
        ensures { result ≡ absent_test self.now }
    {
        match self {
            Found::Absent => true,
            _ => false,
        }
    }
}

/// The key of a revision.
fn rev_key(alloc: Global, path: &DepotPath, rev: u32) -> Result<Key, AllocError>
    ensures { IfOk result (λ key. key ≡ keys.Rev (printed path.now) rev) }
{
    let path = path.print(alloc)?;
    Ok(Key::Rev { path, rev })
}

/// The content of a row of a revision that has one, as it stands in the archive.
fn stored_in(row: &RevRecord) -> Result<Stored, AllocError>
    ensures { IfOk result (λ stored. stored ≡
        record { digest = row.now.digest; spot = record { at = row.now.at; length = row.now.length } }) }
{
    let digest = row.digest.clone()?;
    let spot = Spot {
        at: row.at,
        length: row.length,
    };
    Ok(Stored { digest, spot })
}

/// What the row of a revision tells of its content.
fn found_in<'a>(row: Option<&Record>) -> Result<Found<'a>, AllocError>
    ensures { IfOk result (λ found. found ≡ found_in_row (option_copied row.entry)) }
{
    match row {
        Some(record) => {
            if !record.live() {
                return Ok(Found::Absent);
            }
            match record {
                Record::Rev(row) => {
                    let stored = stored_in(row)?;
                    Ok(Found::Old(stored))
                }
                _ => Ok(Found::Absent),
            }
        }
        None => Ok(Found::Absent),
    }
}

/// The content of a revision.
fn content_at<'a>(
    alloc: Global,
    tables: &Tables,
    path: &DepotPath,
    rev: u32,
) -> Result<Found<'a>, AllocError>
    ensures { IfOk result (λ found. (d : List Deed) → IsSound d → HasRows (rows_of tables.now) d table_ids.Rev →
        IsFound (rows_of tables.now) d found (model.content_at d path.now rev)) }
{
    // the bytes of a path are one
    let _bytes = path.as_bytes();
    let key = rev_key(alloc, path, rev)?;
    let version = tables.version(TableId::Rev);
    let row = version.get(&key);
    let found = found_in(row)?;
    Ok(found)
}

/// The content of the source of an opened file.
pub(crate) fn source_content<'a>(
    alloc: Global,
    tables: &Tables,
    opening: &Opening,
) -> Result<Found<'a>, AllocError>
    ensures { IfOk result (λ found. (d : List Deed) → IsSound d → HasRows (rows_of tables.now) d table_ids.Rev →
        IsFound (rows_of tables.now) d found (model.source_content d (opening_of opening.now))) }
{
    match &opening.source {
        Some(source) => {
            let found = content_at(alloc, tables, &source.path, source.rev)?;
            Ok(found)
        }
        None => Ok(Found::Absent),
    }
}

/// The block of the session for a file.
pub(crate) fn block_of<'a>(
    alloc: Global,
    asker: &Asker,
    contents: &'a Contents,
    path: &DepotPath,
) -> Result<Option<&'a Text>, AllocError>
    ensures { IfOk result (λ block. (d : List Deed) (request : AnyRequest) → IsAsker d request.caller asker.now →
        contents.now ≡ request.contents →
        option_copied block ≡ model.block_of d request request.caller.client path.now) }
{
    let found = asker.place(alloc, path)?;
    match found {
        Some(place) => {
            let block = contents.at(&place);
            drop(place);
            Ok(block)
        }
        None => Ok(None),
    }
}

/// The block of the session for the file at the other end of a move.
fn moved_block<'a>(
    alloc: Global,
    asker: &Asker,
    contents: &'a Contents,
    moved: &Option<DepotPath>,
) -> Result<Option<&'a Text>, AllocError>
    ensures { IfOk result (λ block. (d : List Deed) (request : AnyRequest) → IsAsker d request.caller asker.now →
        contents.now ≡ request.contents →
        option_copied block ≡ option_and_then (model.block_of d request request.caller.client) moved.now) }
{
    match moved {
        Some(path) => {
            let block = block_of(alloc, asker, contents, path)?;
            Ok(block)
        }
        None => Ok(None),
    }
}

/// The content of a file that was moved: the block of its path, else that of the path that it was moved from, else the
/// source's content.
fn moved_content<'a>(
    alloc: Global,
    tables: &Tables,
    asker: &Asker,
    contents: &'a Contents,
    opening: &Opening,
) -> Result<Found<'a>, AllocError>
    ensures { IfOk result (λ found. (d : List Deed) (request : AnyRequest) → IsSound d →
        HasRows (rows_of tables.now) d table_ids.Rev → IsAsker d request.caller asker.now →
        contents.now ≡ request.contents → opening.now.client ≡ request.caller.client →
        IsFound (rows_of tables.now) d found (model.moved_content d request (opening_of opening.now))) }
{
    let own = block_of(alloc, asker, contents, &opening.path)?;
    if let Some(block) = own {
        return Ok(Found::Block(block));
    }
    let other = moved_block(alloc, asker, contents, &opening.moved)?;
    if let Some(block) = other {
        return Ok(Found::Block(block));
    }
    let found = source_content(alloc, tables, opening)?;
    Ok(found)
}

/// The block of a file, else the content of its base.
fn block_or_base<'a>(
    alloc: Global,
    tables: &Tables,
    asker: &Asker,
    contents: &'a Contents,
    opening: &Opening,
) -> Result<Found<'a>, AllocError>
    ensures { IfOk result (λ found. (d : List Deed) (request : AnyRequest) → IsSound d →
        HasRows (rows_of tables.now) d table_ids.Rev → IsAsker d request.caller asker.now →
        contents.now ≡ request.contents → opening.now.client ≡ request.caller.client →
        IsFound (rows_of tables.now) d found (option_or (model.block_of d request opening.now.client opening.now.path) (model.content_at d opening.now.path opening.now.base))) }
{
    let own = block_of(alloc, asker, contents, &opening.path)?;
    if let Some(block) = own {
        return Ok(Found::Block(block));
    }
    let found = content_at(alloc, tables, &opening.path, opening.base)?;
    Ok(found)
}

/// The content of another file: the source's content, else the block, else the content of its base.
fn own_content<'a>(
    alloc: Global,
    tables: &Tables,
    asker: &Asker,
    contents: &'a Contents,
    opening: &Opening,
) -> Result<Found<'a>, AllocError>
    ensures { IfOk result (λ found. (d : List Deed) (request : AnyRequest) → IsSound d →
        HasRows (rows_of tables.now) d table_ids.Rev → IsAsker d request.caller asker.now →
        contents.now ≡ request.contents → opening.now.client ≡ request.caller.client →
        IsFound (rows_of tables.now) d found (model.own_content d request (opening_of opening.now))) }
{
    let source = source_content(alloc, tables, opening)?;
    if source.is_absent() {
        let found = block_or_base(alloc, tables, asker, contents, opening)?;
        return Ok(found);
    }
    Ok(source)
}

/// Whether a revision by this action has a content.
pub fn is_live_action(action: Action) -> bool
    ensures { result ≡ live_action (action_of action) }
{
    match action {
        Action::Delete => false,
        Action::MoveDelete => false,
        _ => true,
    }
}

/// Whether the source of an opened file is a revision of the file itself.
fn has_own_source(opening: &Opening) -> bool
    ensures { result ≡ model.has_source opening.now.path (opening_of opening.now) }
{
    match &opening.source {
        Some(source) => source.path.as_bytes() == opening.path.as_bytes(),
        None => false,
    }
}

/// Whether an opened file was moved, and has as its source the file that it was moved from.
fn is_moved_in(opening: &Opening) -> bool
    ensures { result ≡ model.is_moved_in (opening_of opening.now) }
{
    match opening.action {
        Action::MoveAdd => !has_own_source(opening),
        _ => false,
    }
}

/// The content that an opened file is submitted with, from the table of revisions alone. The one error is want of
/// memory.
pub fn content_of<'a>(
    alloc: Global,
    tables: &Tables,
    asker: &Asker,
    contents: &'a Contents,
    opening: &Opening,
) -> Result<Found<'a>, AllocError>
    ensures { IfOk result (λ found. (d : List Deed) (request : AnyRequest) → IsSound d →
        HasRows (rows_of tables.now) d table_ids.Rev → IsAsker d request.caller asker.now →
        contents.now ≡ request.contents → opening.now.client ≡ request.caller.client →
        IsFound (rows_of tables.now) d found (model.content_of d request (opening_of opening.now))) }
{
    if !is_live_action(opening.action) {
        return Ok(Found::Absent);
    }
    if is_moved_in(opening) {
        let found = moved_content(alloc, tables, asker, contents, opening)?;
        return Ok(found);
    }
    let found = own_content(alloc, tables, asker, contents, opening)?;
    Ok(found)
}

/// Whether an opened file lacks its content (Command-Line Reference, "p4 submit"), from the table of revisions alone.
/// The one error is want of memory.
pub fn lacks_content(
    alloc: Global,
    tables: &Tables,
    asker: &Asker,
    contents: &Contents,
    opening: &Opening,
) -> Result<bool, AllocError>
    ensures { IfOk result (λ lacks. (d : List Deed) (request : AnyRequest) → IsSound d →
        HasRows (rows_of tables.now) d table_ids.Rev → IsAsker d request.caller asker.now →
        contents.now ≡ request.contents → opening.now.client ≡ request.caller.client →
        lacks ≡ model.lacks_content d request (opening_of opening.now)) }
{
    let found = content_of(alloc, tables, asker, contents, opening)?;
    let lacks = is_live_action(opening.action) && found.is_absent();
    drop(found);
    Ok(lacks)
}
