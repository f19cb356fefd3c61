//! Why a change can't be submitted.

ghost use Rattle.std.specs.Prelude.{◌≡◌, ◌==◌, List, IfOk, flat_map, map, not, option_map};
ghost use Rattle.std.specs.List.{list_any};
ghost use Rattle.depot_rows.specs.db_records.declared.table.TableId.TheVariants as table_ids;
ghost use Rattle.depot_rows.specs.depot_model.Asking.{to_write};
ghost use Rattle.depot_rows.specs.depot_model.Deeds.{Deed};
ghost use Rattle.depot_rows.specs.depot_model.declared.request.Request.{Request as AnyRequest};
ghost use Rattle.depot_rows.specs.depot_model.Opened.{opened, is_moved_with as moved_with};
ghost use Rattle.depot_rows.specs.depot_model.Refusals.{refusal_row};
ghost use Rattle.depot_rows.specs.depot_model.Revisions.{head};
ghost use Rattle.depot_rows.specs.depot_model.Rules.{IsSound};
ghost use Rattle.depot_rows.specs.depot_model.Step.{refuse_if};
ghost use Rattle.depot_rows.specs.depot_model.Steps.Opening.{right_refusal as right_refused};
ghost use Rattle.depot_rows.specs.depot_model.Steps.Submitting as model;
ghost use Rattle.depot_rows.specs.depot_model.declared.refusal.Refusal.TheVariants as refusals;
ghost use Rattle.depot_rows.specs.Deed.{opening_of as opening_said};
ghost use Rattle.depot_rows.specs.Standing.{HasRows};
ghost use Rattle.named_files.specs.Asked.{IsAsker};
ghost use Rattle.reply_rows.specs.Refusing.{first_of};
ghost use Rattle.submit_core.specs.Premises.{AreOpened, IsOpened, Reads};
ghost use Rattle.submit_core.specs.Refusals.{in_same_change, later_refusals, locked_by, sooner_refusals};
ghost use Rattle.depot_rows.specs.table_changes.Changed.{rows_of};

use depot_rows::Opening;
use depot_rows::model::{Contents, Row};
use depot_rows::paths::{DepotPath, Name};
use depot_rows::protections::Level;
use depot_rows::tables::Tables;
use file_contents::lacks_content;
use named_files::Asker;
use opening_reads::{opening_by, owes_resolve};
use reply_rows::{
    denied_row, in_move_row, locked_row, must_resolve_row, no_content_row, stale_row,
};
use revision_reads::{head_of, holder_of};
use std::alloc::{AllocError, Global};

/// The row where the caller may not write a file.
fn right_refusal(alloc: Global, asker: &Asker, path: &DepotPath) -> Result<Option<Row>, AllocError>
    ensures { IfOk result (λ row. (d : List Deed) (request : AnyRequest) → IsAsker d request.caller asker.now →
        row ≡ option_map refusal_row (right_refused to_write d request.caller path.now)) }
{
    if asker.may(path, Level(4)) {
        return Ok(None);
    }
    let row = denied_row(alloc, path, Level(4))?;
    Ok(Some(row))
}

/// The row where a client has the lock of a file, and it is another one.
fn other_holder(
    alloc: Global,
    client: &Name,
    path: &DepotPath,
    holder: &Option<Name>,
) -> Result<Option<Row>, AllocError>
    ensures { IfOk result (λ row. row ≡ option_map refusal_row (locked_by client.now path.now holder.now)) }
{
    match holder {
        Some(other) => {
            if other.as_bytes() == client.as_bytes() {
                return Ok(None);
            }
            let row = locked_row(alloc, path, other)?;
            Ok(Some(row))
        }
        None => Ok(None),
    }
}

/// The row where another client has the lock of a file.
fn lock_refusal(
    alloc: Global,
    tables: &Tables,
    opening: &Opening,
) -> Result<Option<Row>, AllocError>
    ensures { IfOk result (λ row. (d : List Deed) → IsSound d → HasRows (rows_of tables.now) d table_ids.Working →
        row ≡ option_map refusal_row (model.lock_refusal d (opening_said opening.now))) }
{
    let holder = holder_of(alloc, tables, &opening.path)?;
    let row = other_holder(alloc, &opening.client, &opening.path, &holder)?;
    Ok(row)
}

/// The row where the base of a file isn't its newest revision.
fn stale_refusal(
    alloc: Global,
    tables: &Tables,
    opening: &Opening,
) -> Result<Option<Row>, AllocError>
    ensures { IfOk result (λ row. (d : List Deed) → IsSound d → HasRows (rows_of tables.now) d table_ids.Rev →
        row ≡ option_map refusal_row (refuse_if (not (opening.now.base == head d opening.now.path)) (refusals.Stale opening.now.path opening.now.base (head d opening.now.path)))) }
{
    let head = head_of(alloc, tables, &opening.path)?;
    if opening.base == head {
        return Ok(None);
    }
    let row = stale_row(alloc, &opening.path, opening.base, head)?;
    Ok(Some(row))
}

/// The row where a resolve of a file is owed.
fn resolve_refusal(
    alloc: Global,
    tables: &Tables,
    opening: &Opening,
) -> Result<Option<Row>, AllocError>
    ensures { IfOk result (λ row. (d : List Deed) → IsSound d → HasRows (rows_of tables.now) d table_ids.Resolve →
        IsOpened d opening.now.client opening.now →
        row ≡ option_map refusal_row (refuse_if (list_any model.is_unpaid (model.resolves_of d (opening_said opening.now))) (refusals.MustResolve opening.now.path))) }
{
    let owes = owes_resolve(alloc, tables, &opening.client, &opening.path)?;
    if !owes {
        return Ok(None);
    }
    let row = must_resolve_row(alloc, &opening.path)?;
    Ok(Some(row))
}

/// Whether an opening names a path as its other end.
pub(crate) fn is_moved_with(path: &DepotPath, opening: &Opening) -> bool
    ensures { result ≡ moved_with path.now (opening_said opening.now) }
{
    match &opening.moved {
        Some(moved) => path.as_bytes() == moved.as_bytes(),
        None => false,
    }
}

/// Whether the other end of a move is opened in the change, and names the file back.
fn is_partner(change: u32, path: &DepotPath, other: &Option<Opening>) -> bool
    ensures { result ≡ in_same_change change path.now (option_map opening_said other.now) }
{
    match other {
        Some(other) => is_moved_with(path, other) && other.change == change,
        None => false,
    }
}

/// Whether the file at the other end of a move is opened by the client in the same change, and names the file back.
fn has_partner(
    alloc: Global,
    tables: &Tables,
    opening: &Opening,
    other: &DepotPath,
) -> Result<bool, AllocError>
    ensures { IfOk result (λ has. (d : List Deed) → IsSound d → HasRows (rows_of tables.now) d table_ids.Working →
        has ≡ in_same_change opening.now.change opening.now.path (opened d opening.now.client other.now)) }
{
    let found = opening_by(alloc, tables, &opening.client, other)?;
    let has = is_partner(opening.change, &opening.path, &found);
    drop(found);
    Ok(has)
}

/// The row where the other end of a move isn't opened in the same change.
fn move_refusal(
    alloc: Global,
    tables: &Tables,
    opening: &Opening,
) -> Result<Option<Row>, AllocError>
    ensures { IfOk result (λ row. (d : List Deed) → IsSound d → HasRows (rows_of tables.now) d table_ids.Working →
        row ≡ option_map refusal_row (model.move_refusal d (opening_said opening.now))) }
{
    match &opening.moved {
        Some(other) => {
            let has = has_partner(alloc, tables, opening, other)?;
            if has {
                return Ok(None);
            }
            let row = in_move_row(alloc, &opening.path, other)?;
            Ok(Some(row))
        }
        None => Ok(None),
    }
}

/// The row where a file lacks its content.
fn content_refusal(
    alloc: Global,
    tables: &Tables,
    asker: &Asker,
    contents: &Contents,
    opening: &Opening,
) -> Result<Option<Row>, AllocError>
    ensures { IfOk result (λ row. (d : List Deed) (request : AnyRequest) →
        Reads (rows_of tables.now) d request asker.now contents.now → opening.now.client ≡ request.caller.client →
        row ≡ option_map refusal_row (refuse_if (model.lacks_content d request (opening_said opening.now)) (refusals.NoContent opening.now.path))) }
{
    let lacks = lacks_content(alloc, tables, asker, contents, opening)?;
    if !lacks {
        return Ok(None);
    }
    let row = no_content_row(alloc, &opening.path)?;
    Ok(Some(row))
}

/// The row of the first refusal of a file by right, lock and base.
fn sooner_refusal(
    alloc: Global,
    tables: &Tables,
    asker: &Asker,
    opening: &Opening,
) -> Result<Option<Row>, AllocError>
    ensures { IfOk result (λ row. (d : List Deed) (request : AnyRequest) → IsSound d →
        IsAsker d request.caller asker.now → HasRows (rows_of tables.now) d table_ids.Working →
        HasRows (rows_of tables.now) d table_ids.Rev →
        row ≡ option_map refusal_row (first_of (sooner_refusals d request (opening_said opening.now)))) }
{
    let denied = right_refusal(alloc, asker, &opening.path)?;
    if denied.is_some() {
        return Ok(denied);
    }
    let locked = lock_refusal(alloc, tables, opening)?;
    if locked.is_some() {
        return Ok(locked);
    }
    let stale = stale_refusal(alloc, tables, opening)?;
    Ok(stale)
}

/// The row of the first refusal of a file by resolve, move and content.
fn later_refusal(
    alloc: Global,
    tables: &Tables,
    asker: &Asker,
    contents: &Contents,
    opening: &Opening,
) -> Result<Option<Row>, AllocError>
    ensures { IfOk result (λ row. (d : List Deed) (request : AnyRequest) →
        Reads (rows_of tables.now) d request asker.now contents.now → IsOpened d request.caller.client opening.now →
        row ≡ option_map refusal_row (first_of (later_refusals d request (opening_said opening.now)))) }
{
    let owed = resolve_refusal(alloc, tables, opening)?;
    if owed.is_some() {
        return Ok(owed);
    }
    let moved = move_refusal(alloc, tables, opening)?;
    if moved.is_some() {
        return Ok(moved);
    }
    let lacking = content_refusal(alloc, tables, asker, contents, opening)?;
    Ok(lacking)
}

/// The row of the first refusal of a file.
fn file_refusal(
    alloc: Global,
    tables: &Tables,
    asker: &Asker,
    contents: &Contents,
    opening: &Opening,
) -> Result<Option<Row>, AllocError>
    ensures { IfOk result (λ row. (d : List Deed) (request : AnyRequest) →
        Reads (rows_of tables.now) d request asker.now contents.now → IsOpened d request.caller.client opening.now →
        row ≡ option_map refusal_row (first_of (model.file_refusals d request (opening_said opening.now)))) }
{
    let sooner = sooner_refusal(alloc, tables, asker, opening)?;
    if sooner.is_some() {
        return Ok(sooner);
    }
    let later = later_refusal(alloc, tables, asker, contents, opening)?;
    Ok(later)
}

/// The row of the first refusal of files, in their order.
pub(crate) fn files_refusal(
    alloc: Global,
    tables: &Tables,
    asker: &Asker,
    contents: &Contents,
    openings: &[Opening],
) -> Result<Option<Row>, AllocError>
    ensures { IfOk result (λ row. (d : List Deed) (request : AnyRequest) →
        Reads (rows_of tables.now) d request asker.now contents.now → AreOpened d request.caller.client openings.now →
        row ≡ option_map refusal_row (first_of (flat_map (model.file_refusals d request) (map opening_said openings.now)))) }
{
    for opening in openings {
        let refusal = file_refusal(alloc, tables, asker, contents, opening)?;
        if refusal.is_some() {
            return Ok(refusal);
        }
    }
    Ok(None)
}
