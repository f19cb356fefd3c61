//! Openings, as rows have them.

ghost use Rattle.std.specs.Prelude.{◌≡◌, ℕ, IfOk, List, Option, Some, None, unwrap_or};
ghost use Rattle.depot_rows.specs.db_records.declared.record.Record.TheVariants as records;
ghost use Rattle.depot_rows.specs.db_records.declared.rows.WorkingRecord.{WorkingRecord as AnyRow};
ghost use Rattle.depot_rows.specs.depot_model.Deeds.{Deed, Opening as ModelOpening};
ghost use Rattle.depot_rows.specs.depot_model.Opened.{opened};
ghost use Rattle.depot_rows.specs.depot_model.Records.{working_record};
ghost use Rattle.depot_rows.specs.depot_model.Rules.{IsSound};
ghost use Rattle.depot_rows.specs.depot_model.Steps.Reverting.{moved};
ghost use Rattle.depot_rows.specs.Deed.{opening_of};
ghost use Rattle.opening_reads.specs.Read.{opening_in_row, path_in_text, source_in_row, word_action};

use depot_rows::paths::{DepotPath, Name, PathFault, Text};
use depot_rows::records::WorkingRecord;
use depot_rows::{Action, Opening, Source};
use std::alloc::{AllocError, Global};

/// The path that a text spells, None where it spells none. The one error is want of memory.
pub fn path_in(alloc: Global, text: &Text) -> Result<Option<DepotPath>, AllocError>
    ensures { IfOk result (λ path. path ≡ path_in_text text.now) }
{
    match DepotPath::read(alloc, text.as_bytes()) {
        Ok(path) => Ok(Some(path)),
        Err(PathFault::Memory) => Err(AllocError),
        Err(_) => Ok(None),
    }
}

/// The action of a word.
fn action_in(word: &[u8]) -> Action
    ensures { result ≡ word_action word.now }
{
    if word == b"add".as_slice() {
        Action::Add
    } else if word == b"edit".as_slice() {
        Action::Edit
    } else if word == b"delete".as_slice() {
        Action::Delete
    } else if word == b"branch".as_slice() {
        Action::Branch
    } else if word == b"integrate".as_slice() {
        Action::Integrate
    } else if word == b"move/add".as_slice() {
        Action::MoveAdd
    } else {
        Action::MoveDelete
    }
}

/// The revision whose content a submit takes, where there is one.
fn source_in(alloc: Global, text: &Text, rev: u32) -> Result<Option<Source>, AllocError>
    ensures { IfOk result (λ source. source ≡ source_in_row text.now rev) }
{
    match path_in(alloc, text)? {
        Some(path) => Ok(Some(Source { path, rev })),
        None => Ok(None),
    }
}

/// The type that is asked for, or else the one that a row has.
fn type_in(file_type: &Option<Text>, own: &Text) -> Result<Text, AllocError>
    ensures { IfOk result (λ text. text ≡ unwrap_or file_type.now own.now) }
{
    match file_type {
        Some(file_type) => file_type.clone(),
        None => own.clone(),
    }
}

/// The change that is asked for, or else the one that a row has.
fn change_in(change: Option<u32>, own: u32) -> u32
    ensures { result ≡ unwrap_or change own }
{
    match change {
        Some(change) => change,
        None => own,
    }
}

/// The opening of a row of a client and a file, in another change and with another type where they are given. The one
/// error is want of memory.
pub fn reopened_in(
    alloc: Global,
    client: &Name,
    path: &DepotPath,
    row: &WorkingRecord,
    change: Option<u32>,
    file_type: &Option<Text>,
) -> Result<Opening, AllocError>
    ensures { IfOk result (λ opening. opening ≡ opening_in_row client.now path.now row.now change file_type.now) }
{
    let client = client.clone()?;
    let path = path.clone()?;
    let file_type = type_in(file_type, &row.file_type)?;
    let source = source_in(alloc, &row.source, row.source_rev)?;
    let moved = path_in(alloc, &row.moved)?;
    let action = action_in(row.action.as_bytes());
    let change = change_in(change, row.change);
    Ok(Opening {
        client,
        path,
        base: row.base,
        action,
        file_type,
        change,
        source,
        moved,
    })
}

/// The opening of a row of a client and a file. The one error is want of memory.
pub fn opening_in(
    alloc: Global,
    client: &Name,
    path: &DepotPath,
    row: &WorkingRecord,
) -> Result<Opening, AllocError>
    ensures { IfOk result (λ opening. opening ≡ opening_in_row client.now path.now row.now None None) }
{
    let opening = reopened_in(alloc, client, path, row, None, &None)?;
    Ok(opening)
}

/// The row of a file that is opened in a sound depot tells its opening.
pub fn rows_tell_openings()
    ensures opening { (d : List Deed) (client path : List ℕ) (o : ModelOpening) (row : AnyRow) → IsSound d →
        opened d client path ≡ Some o → records.Working row ≡ working_record d o →
        opening_of (opening_in_row client path row None None) ≡ o }
    ensures reopened { (d : List Deed) (client path : List ℕ) (o : ModelOpening) (row : AnyRow) (change : Option ℕ)
        (file_type : Option (List ℕ)) →
        IsSound d → opened d client path ≡ Some o →
        records.Working row ≡ working_record d o →
        opening_of (opening_in_row client path row change file_type) ≡ moved change file_type o }
{}
