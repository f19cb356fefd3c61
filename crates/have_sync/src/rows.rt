//! The rows of `sync` (Command-Line Reference, "p4 sync").

ghost use Rattle.std.specs.Prelude.{◌≡◌, ◌++◌, List, IfOk, None, codes};
ghost use Rattle.std.specs.Option.{option_copied};
ghost use Rattle.depot_rows.specs.depot_model.declared.request.Caller.{Caller};
ghost use Rattle.depot_rows.specs.depot_model.Deeds.{Deed};
ghost use Rattle.depot_rows.specs.depot_model.Rows.{if_any, number_field as field_of_number, path_field as field_of_path};
ghost use Rattle.depot_rows.specs.depot_model.Steps.Syncing as model;
ghost use Rattle.named_files.specs.Asked.{IsAsker};
ghost use Rattle.newest_revisions.specs.Newest.{HasRow};
ghost use Rattle.have_sync.specs.Syncing.{changed_row as row_of_change, size_in as size_in_row, sync_row_of};

use depot_rows::model::Row;
use depot_rows::paths::{ClientPath, DepotPath};
use depot_rows::records::RevRecord;
use named_files::Asker;
use newest_revisions::Revision;
use reply_rows::RowBuilder;
use std::alloc::{AllocError, Global};

/// With the place of a file in the client workspace, if it has one.
fn with_place(row: RowBuilder, place: &Option<ClientPath>) -> Result<RowBuilder, AllocError>
    ensures { IfOk result (λ more. more ≡ row ++ if_any (field_of_path (codes "clientFile")) place.now) }
{
    match place {
        Some(place) => row.path(b"clientFile", place),
        None => Ok(row),
    }
}

/// With the size of a file, if it has a content.
fn with_size(row: RowBuilder, size: Option<u64>) -> Result<RowBuilder, AllocError>
    ensures { IfOk result (λ more. more ≡ row ++ if_any (field_of_number (codes "fileSize")) size) }
{
    match size {
        Some(size) => row.number(b"fileSize", size),
        None => Ok(row),
    }
}

/// The row of a file with its place in the client workspace, a revision, what was done, and the size of its content in
/// bytes.
fn sync_row(
    alloc: Global,
    path: &DepotPath,
    place: &Option<ClientPath>,
    rev: u32,
    action: &[u8],
    size: Option<u64>,
) -> Result<Row, AllocError>
    ensures { IfOk result (λ row. row ≡ sync_row_of path.now place.now rev action.now size) }
{
    let row = RowBuilder::new(alloc).path(b"depotFile", path)?;
    let row = with_place(row, place)?;
    let row = row.number(b"rev", u64::from(rev))?;
    let row = row.text(b"action", action)?;
    let row = with_size(row, size)?;
    Ok(row.row())
}

/// The size of the content of a revision in bytes, if it has one.
fn size_in(row: Option<&RevRecord>) -> Option<u64>
    ensures { result ≡ size_in_row (option_copied row.entry) }
{
    match row {
        Some(row) => match row.digest.as_bytes() {
            [] => None,
            [_, ..] => Some(row.length),
        },
        None => None,
    }
}

/// The row of a file with a revision and its size.
pub(crate) fn shown_row(
    alloc: Global,
    asker: &Asker,
    path: &DepotPath,
    found: Revision<'_>,
    action: &[u8],
) -> Result<Row, AllocError>
    ensures { IfOk result (λ row. (d : List Deed) (caller : Caller) → IsAsker d caller asker.now →
        HasRow d path.now found.entry →
        row ≡ model.sync_row d caller path.now found.entry.rev action.now (model.size_of d path.now found.entry.rev)) }
{
    let place = asker.place(alloc, path)?;
    let size = size_in(found.row);
    let row = sync_row(alloc, path, &place, found.rev, action, size)?;
    Ok(row)
}

/// The row of a file with the revision that the client had.
fn gone_row(
    alloc: Global,
    asker: &Asker,
    path: &DepotPath,
    had: u32,
    action: &[u8],
) -> Result<Row, AllocError>
    ensures { IfOk result (λ row. (d : List Deed) (caller : Caller) → IsAsker d caller asker.now →
        row ≡ model.sync_row d caller path.now had action.now None) }
{
    let place = asker.place(alloc, path)?;
    let row = sync_row(alloc, path, &place, had, action, None)?;
    Ok(row)
}

/// The row of a file whose revision in the have list becomes another one, 0 for none.
pub(crate) fn changed_row(
    alloc: Global,
    asker: &Asker,
    path: &DepotPath,
    had: u32,
    wanted: Revision<'_>,
    action: &[u8],
) -> Result<Row, AllocError>
    ensures { IfOk result (λ row. (d : List Deed) (caller : Caller) → IsAsker d caller asker.now →
        HasRow d path.now wanted.entry →
        row ≡ row_of_change d caller path.now had wanted.entry.rev action.now) }
{
    let gone = wanted.rev == 0;
    if gone {
        let row = gone_row(alloc, asker, path, had, action)?;
        Ok(row)
    } else {
        let row = shown_row(alloc, asker, path, wanted, action)?;
        Ok(row)
    }
}
