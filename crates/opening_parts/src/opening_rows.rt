//! The rows of files that are opened.

ghost use Rattle.std.specs.Prelude.{◌≡◌, ◌++◌, IfOk, codes};
ghost use Rattle.std.specs.Option.{option_copied};
ghost use Rattle.depot_rows.specs.depot_model.Rows.{action_word as word_of_action, if_any, path_field as field_of_path};
ghost use Rattle.depot_rows.specs.depot_model.Steps.Opening as model;
ghost use Rattle.depot_rows.specs.Deed.{action_of, opening_of as opening_of_deed};

use depot_rows::model::Row;
use depot_rows::paths::ClientPath;
use depot_rows::{Action, Opening};
use reply_rows::RowBuilder;
use std::alloc::{AllocError, Global};

/// The word of an action (Command-Line Reference, "p4 opened").
pub fn action_word(action: Action) -> &'static [u8]
    ensures { result.now ≡ word_of_action (action_of action) }
{
    match action {
        Action::Add => b"add",
        Action::Edit => b"edit",
        Action::Delete => b"delete",
        Action::Branch => b"branch",
        Action::Integrate => b"integrate",
        Action::MoveAdd => b"move/add",
        Action::MoveDelete => b"move/delete",
    }
}

/// With the place of a file in the client, where it has one.
fn with_place(row: RowBuilder, place: Option<&ClientPath>) -> Result<RowBuilder, AllocError>
    ensures { IfOk result (λ more. more ≡ row ++
        if_any (field_of_path (codes "clientFile")) (option_copied place.entry)) }
{
    match place {
        Some(place) => {
            let row = row.path(b"clientFile", place)?;
            Ok(row)
        }
        None => Ok(row),
    }
}

/// The row of a file that is opened, with its place in the client, where it has one (Command-Line Reference, "p4 edit",
/// "p4 add"). The one error is want of memory.
pub fn opening_row(
    alloc: Global,
    opening: &Opening,
    place: Option<&ClientPath>,
) -> Result<Row, AllocError>
    ensures { IfOk result (λ row. row ≡ model.opening_row (opening_of_deed opening.now) (option_copied place.entry)) }
{
    let row = RowBuilder::new(alloc).path(b"depotFile", &opening.path)?;
    let row = with_place(row, place)?;
    let row = row.number(b"workRev", u64::from(opening.base))?;
    let row = row.text(b"action", action_word(opening.action))?;
    let row = row.text(b"type", opening.file_type.as_bytes())?;
    Ok(row.row())
}
