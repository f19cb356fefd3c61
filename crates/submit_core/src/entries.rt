//! The files of a submitted change, and the contents that it stores.

ghost use Rattle.std.specs.Prelude.{◌≡◌, ◌+◌, ◌++◌, ◌∷◌, [], List, ℕ, IfOk, OnOk, length, map};
ghost use Rattle.depot_rows.specs.db_records.declared.table.TableId.TheVariants as table_ids;
ghost use Rattle.depot_rows.specs.depot_model.Deeds.{Deed, Opening as ModelOpening};
ghost use Rattle.depot_rows.specs.depot_model.declared.request.Request.{Request as AnyRequest};
ghost use Rattle.depot_rows.specs.depot_model.Revisions.{head};
ghost use Rattle.depot_rows.specs.depot_model.Rules.{IsSound};
ghost use Rattle.depot_rows.specs.depot_model.Steps.Submitting as model;
ghost use Rattle.depot_rows.specs.Deed.{IsEntry, IsStored, credit_of as credit_said, opening_of as opening_said};
ghost use Rattle.depot_rows.specs.Standing.{HasRows};
ghost use Rattle.submit_core.specs.Entries.{AreFiles, block_stored, content_in, stores_of, total};
ghost use Rattle.submit_core.specs.Premises.{AreOpened, IsOpened, Reads};
ghost use Rattle.depot_rows.specs.table_changes.Changed.{rows_of};

use crate::credits::credits_of;
use crate::refusals::is_moved_with;
use archive_file::digest;
use depot_rows::model::Contents;
use depot_rows::paths::{DepotPath, Sequence, Text};
use depot_rows::records::Spot;
use depot_rows::tables::Tables;
use depot_rows::{Action, Credit, Entry, How, Opening, Source, Stored};
use file_contents::{Found, content_of};
use named_files::Asker;
use revision_reads::head_of;
use std::alloc::{AllocError, Global};

/// The files of a change, the contents that it stores, and where the archive then ends.
#[derive(Drop)]
pub(crate) struct Files {
    pub(crate) entries: Sequence<Entry>,
    /// The contents that are stored, one after another.
    pub(crate) stores: Sequence<Text>,
    /// In bytes.
    end: u64,
}

/// Adds lengths.
fn longer(end: u64, length: u64) -> Result<u64, AllocError>
    ensures { IfOk result (λ more. more ≡ end + length) }
{
    match end.checked_add(length) {
        Some(more) => Ok(more),
        None => Err(AllocError),
    }
}

/// A block that is stored at a place.
fn stored_block(alloc: Global, block: &Text, at: u64) -> Result<Stored, AllocError>
    ensures { IfOk result (λ stored. stored ≡ block_stored block.now at) }
{
    let digest = digest(alloc, block.as_bytes())?;
    let length = block.len() as u64;
    Ok(Stored {
        digest,
        spot: Spot { at, length },
    })
}

/// Stores a block.
fn store_block(
    alloc: Global,
    stores: &mut Sequence<Text>,
    end: &mut u64,
    block: &Text,
) -> Result<Stored, AllocError>
    ensures stored { IfOk result (λ stored. stored ≡ block_stored block.now end.old) }
    ensures stores { OnOk result (stores.new ≡ stores.old ++ block.now ∷ []) }
    ensures end { OnOk result (end.new ≡ end.old + length block.now) }
{
    let stored = stored_block(alloc, block, *end)?;
    let next = longer(*end, block.len() as u64)?;
    let copy = Text::from_bytes(alloc, block.as_bytes())?;
    stores.push(copy)?;
    *end = next;
    Ok(stored)
}

/// Where a content stands; a block is stored.
fn place(
    alloc: Global,
    stores: &mut Sequence<Text>,
    end: &mut u64,
    found: Found,
) -> Result<Option<Stored>, AllocError>
    ensures content { IfOk result (λ content. content ≡ content_in found.entry end.old) }
    ensures stores { OnOk result (stores.new ≡ stores.old ++ stores_of found.entry) }
    ensures end { OnOk result (end.new ≡ end.old + total (stores_of found.entry)) }
{
    match found {
        Found::Old(stored) => Ok(Some(stored)),
        Found::Block(block) => {
            let stored = store_block(alloc, stores, end, block)?;
            Ok(Some(stored))
        }
        Found::Absent => Ok(None),
    }
}

/// The credit of a file from the revision that it was moved from.
fn credit_from(source: &Source) -> Result<Credit, AllocError>
    ensures { IfOk result (λ credit. credit ≡
        record { from = source.now.path; first = source.now.rev; last = source.now.rev; how = How.MovedFrom }) }
{
    let from = source.path.clone()?;
    Ok(Credit {
        from,
        first: source.rev,
        last: source.rev,
        how: How::MovedFrom,
    })
}

/// Adds the credit of a file from the revision that it was moved from.
fn add_move_credit(credits: &mut Sequence<Credit>, opening: &Opening) -> Result<(), AllocError>
    ensures { OnOk result (map credit_said credits.new ≡ map credit_said credits.old ++
        model.move_credits (opening_said opening.now)) }
{
    let Action::MoveAdd = opening.action else {
        return Ok(());
    };
    let Some(source) = &opening.source else {
        return Ok(());
    };
    if is_moved_with(&source.path, opening) {
        let credit = credit_from(source)?;
        credits.push(credit)?;
    }
    Ok(())
}

/// What a file takes in from other files.
fn all_credits(
    alloc: Global,
    tables: &Tables,
    opening: &Opening,
) -> Result<Sequence<Credit>, AllocError>
    ensures { IfOk result (λ credits. (d : List Deed) → IsSound d → HasRows (rows_of tables.now) d table_ids.Resolve →
        IsOpened d opening.now.client opening.now →
        map credit_said credits ≡ model.credits_of d (opening_said opening.now) ++
        model.move_credits (opening_said opening.now)) }
{
    let mut credits = credits_of(alloc, tables, &opening.client, &opening.path)?;
    add_move_credit(&mut credits, opening)?;
    Ok(credits)
}

/// A copy of a path, where there is one.
fn own_path(path: &Option<DepotPath>) -> Result<Option<DepotPath>, AllocError>
    ensures { IfOk result (λ own. own ≡ path.now) }
{
    match path {
        Some(path) => {
            let own = path.clone()?;
            Ok(Some(own))
        }
        None => Ok(None),
    }
}

/// The number of the next revision of a file.
fn next_revision(alloc: Global, tables: &Tables, path: &DepotPath) -> Result<u32, AllocError>
    ensures { IfOk result (λ rev. (d : List Deed) → IsSound d → HasRows (rows_of tables.now) d table_ids.Rev →
        rev ≡ head d path.now + 1) }
{
    let head = head_of(alloc, tables, path)?;
    match head.checked_add(1) {
        Some(rev) => Ok(rev),
        None => Err(AllocError),
    }
}

/// A file as it is submitted with a content.
fn entry_of(
    alloc: Global,
    tables: &Tables,
    opening: &Opening,
    content: Option<Stored>,
) -> Result<Entry, AllocError>
    ensures content { IfOk result (λ entry. entry.content ≡ content) }
    ensures entry { IfOk result (λ entry. (d : List Deed) (request : AnyRequest) → IsSound d →
        HasRows (rows_of tables.now) d table_ids.Resolve →
        HasRows (rows_of tables.now) d table_ids.Rev → IsOpened d opening.now.client opening.now →
        IsStored content (model.content_of d request (opening_said opening.now)) →
        IsEntry d entry (model.entry_of d request (opening_said opening.now))) }
{
    let path = opening.path.clone()?;
    let rev = next_revision(alloc, tables, &opening.path)?;
    let file_type = opening.file_type.clone()?;
    let credits = all_credits(alloc, tables, opening)?;
    let moved = own_path(&opening.moved)?;
    Ok(Entry {
        path,
        rev,
        action: opening.action,
        file_type,
        content,
        credits,
        moved,
    })
}

/// Adds a file.
fn add_file(
    alloc: Global,
    tables: &Tables,
    asker: &Asker,
    contents: &Contents,
    files: &mut Files,
    opening: &Opening,
) -> Result<(), AllocError>
    ensures { OnOk result ((d : List Deed) (request : AnyRequest) (from : ℕ) (taken : List ModelOpening) →
        Reads (rows_of tables.now) d request asker.now contents.now →
        IsOpened d request.caller.client opening.now → AreFiles (rows_of tables.now) d request from taken files.old →
        AreFiles (rows_of tables.now) d request from (taken ++ opening_said opening.now ∷ []) files.new) }
{
    let found = content_of(alloc, tables, asker, contents, opening)?;
    let content = place(alloc, &mut files.stores, &mut files.end, found)?;
    let entry = entry_of(alloc, tables, opening, content)?;
    files.entries.push(entry)?;
    Ok(())
}

/// The files of a change of these openings, whose new contents are stored from a place of the archive on. The one error
/// is want of memory.
pub(crate) fn files_of(
    alloc: Global,
    tables: &Tables,
    asker: &Asker,
    contents: &Contents,
    from: u64,
    openings: &[Opening],
) -> Result<Files, AllocError>
    ensures { IfOk result (λ files. (d : List Deed) (request : AnyRequest) →
        Reads (rows_of tables.now) d request asker.now contents.now → AreOpened d request.caller.client openings.now →
        AreFiles (rows_of tables.now) d request from (map opening_said openings.now) files) }
{
    let mut files = Files {
        entries: Sequence::new(alloc),
        stores: Sequence::new(alloc),
        end: from,
    };
    for opening in openings {
        add_file(alloc, tables, asker, contents, &mut files, opening)?;
    }
    Ok(files)
}
