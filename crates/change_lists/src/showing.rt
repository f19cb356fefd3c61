//! `change -o` (Command-Line Reference, "p4 change").

ghost use Rattle.std.specs.Prelude.{◌≡◌, ◌∷◌, [], ◌++◌, List, IfOk, OnOk, codes, flat_map, map, option_map};
ghost use Rattle.std.specs.Option.{option_copied};
ghost use Rattle.depot_rows.specs.db_records.declared.record.Record.TheVariants as records;
ghost use Rattle.depot_rows.specs.db_records.declared.table.TableId.TheVariants as table_ids;
ghost use Rattle.depot_rows.specs.table_changes.Changed.{rows_of};
ghost use Rattle.depot_rows.specs.depot_model.Deeds.{Deed};
ghost use Rattle.depot_rows.specs.depot_model.declared.request.Caller.{Caller as ModelCaller};
ghost use Rattle.depot_rows.specs.depot_model.Records.{change_record};
ghost use Rattle.depot_rows.specs.depot_model.Rules.{IsSound};
ghost use Rattle.depot_rows.specs.depot_model.Rows.{text_field as field_of_text};
ghost use Rattle.depot_rows.specs.depot_model.Steps.Changing as model;
ghost use Rattle.depot_rows.specs.Deed.{opening_of};
ghost use Rattle.depot_rows.specs.Standing.{HasRows};
ghost use Rattle.reply_rows.specs.Made.{IsMade, told};
ghost use Rattle.named_files.specs.Asked.{IsAsker};
ghost use Rattle.change_lists.specs.Showing.{listed_text as text_listed, number_word, openings_told, record_row, shown_row};

use command_parts::named;
use depot_rows::Opening;
use depot_rows::model::{Caller, Field, Row};
use depot_rows::paths::{DepotPath, Sequence, Text, is_name};
use depot_rows::protections::Level;
use depot_rows::records::ChangeRecord;
use depot_rows::tables::Tables;
use named_files::Asker;
use opening_reads::openings_of;
use reply_rows::{Step, no_such_change_row, number_field, push_numbered, row_of, text_field};
use revision_reads::change_of;
use std::alloc::{AllocError, Global};

/// Adds the path of a file as it is printed, where the asker may list the file.
fn push_listed(
    alloc: Global,
    asker: &Asker,
    texts: &mut Sequence<Text>,
    path: &DepotPath,
) -> Result<(), AllocError>
    ensures { OnOk result (texts.new ≡ texts.old ++ text_listed asker.now path.now) }
{
    if asker.may(path, Level(1)) {
        texts.push(path.print(alloc)?)?;
    }
    Ok(())
}

/// The paths, as they are printed, of the opened files that the asker may list.
fn listed_texts(
    alloc: Global,
    asker: &Asker,
    openings: &[Opening],
) -> Result<Sequence<Text>, AllocError>
    ensures { IfOk result (λ texts. texts ≡ flat_map (λ opening. text_listed asker.now opening.path) openings.now) }
{
    let mut texts = Sequence::new(alloc);
    let mut rest = openings;
    while let [opening, later @ ..] = rest {
        push_listed(alloc, asker, &mut texts, &opening.path)?;
        rest = later;
    }
    Ok(texts)
}

/// The field with the number of a change, `new` for one that isn't there yet.
fn change_field(alloc: Global, change: Option<u32>) -> Result<Field, AllocError>
    ensures { IfOk result (λ field. field ≡ field_of_text (codes "Change") (number_word change)) }
{
    match change {
        Some(change) => number_field(alloc, b"Change", u64::from(change)),
        None => text_field(alloc, b"Change", b"new"),
    }
}

/// The row of a change with its opened files.
fn change_row(
    alloc: Global,
    change: Option<u32>,
    client: &[u8],
    user: &[u8],
    status: &[u8],
    text: &[u8],
    files: &[Text],
) -> Result<Row, AllocError>
    ensures { IfOk result (λ row. row ≡ shown_row change client.now user.now status.now text.now files.now) }
{
    let mut fields = Sequence::new(alloc);
    fields.push(change_field(alloc, change)?)?;
    fields.push(text_field(alloc, b"Client", client)?)?;
    fields.push(text_field(alloc, b"User", user)?)?;
    fields.push(text_field(alloc, b"Status", status)?)?;
    fields.push(text_field(alloc, b"Description", text)?)?;
    push_numbered(alloc, &mut fields, b"Files", files)?;
    Ok(row_of(fields))
}

/// `change -o` of an asker, for a change that isn't there yet.
fn show_new(
    alloc: Global,
    tables: &Tables,
    caller: &Caller,
    asker: &Asker,
) -> Result<Step, AllocError>
    ensures { IfOk result (λ step. (d : List Deed) → IsSound d → IsAsker d caller.now asker.now →
        HasRows (rows_of tables.now) d table_ids.Working →
        step ≡ told (model.show_new d caller.now ∷ [])) }
{
    let openings = openings_of(alloc, tables, &caller.client, 0)?;
    let files = listed_texts(alloc, asker, openings.as_slice())?;
    let client = caller.client.as_bytes();
    let user = caller.user.as_bytes();
    let text = b"<enter description here>";
    let row = change_row(alloc, None, client, user, b"new", text, files.as_slice())?;
    let step = Step::tells(alloc, row)?;
    Ok(step)
}

/// The opened files of a pending change, by its row; none where it is submitted. A row whose client is no name has
/// none.
fn openings_in(
    alloc: Global,
    tables: &Tables,
    row: &ChangeRecord,
) -> Result<Sequence<Opening>, AllocError>
    ensures { IfOk result (λ openings. (d : List Deed) → IsSound d → HasRows (rows_of tables.now) d table_ids.Working →
        map opening_of openings ≡ openings_told d row.now) }
{
    if row.status.as_bytes() != b"pending".as_slice() || !is_name(row.client.as_bytes()) {
        let openings = Sequence::new(alloc);
        return Ok(openings);
    }
    let client = named(alloc, row.client.as_bytes())?;
    let openings = openings_of(alloc, tables, &client, row.change)?;
    Ok(openings)
}

/// `change -o N` of an asker, for a change with a row.
fn show_row(
    alloc: Global,
    tables: &Tables,
    asker: &Asker,
    change: u32,
    row: &ChangeRecord,
) -> Result<Step, AllocError>
    ensures { IfOk result (λ step. (d : List Deed) (caller : ModelCaller) → IsSound d → IsAsker d caller asker.now →
        HasRows (rows_of tables.now) d table_ids.Working →
        step ≡ told (record_row d caller change row.now ∷ [])) }
{
    let openings = openings_in(alloc, tables, row)?;
    let files = listed_texts(alloc, asker, openings.as_slice())?;
    let client = row.client.as_bytes();
    let user = row.user.as_bytes();
    let status = row.status.as_bytes();
    let text = row.text.as_bytes();
    let row = change_row(
        alloc,
        Some(change),
        client,
        user,
        status,
        text,
        files.as_slice(),
    )?;
    let step = Step::tells(alloc, row)?;
    Ok(step)
}

/// `change -o N` of an asker, by the row of the change.
fn show_found(
    alloc: Global,
    tables: &Tables,
    asker: &Asker,
    change: u32,
    row: Option<&ChangeRecord>,
) -> Result<Step, AllocError>
    ensures { IfOk result (λ step. (d : List Deed) (caller : ModelCaller) → IsSound d → IsAsker d caller asker.now →
        HasRows (rows_of tables.now) d table_ids.Working →
        option_map records.Change (option_copied row.entry) ≡ change_record d change →
        IsMade (rows_of tables.now) d d (model.show_numbered d caller change) step) }
{
    match row {
        Some(row) => {
            let step = show_row(alloc, tables, asker, change, row)?;
            Ok(step)
        }
        None => {
            let row = no_such_change_row(alloc, change)?;
            let step = Step::tells(alloc, row)?;
            Ok(step)
        }
    }
}

/// `change -o [N]`: a change with the opened files that the caller may list; without a number the form for a new one,
/// with those of the default change. It reads the tables of changes and opened files alone.
pub fn change_show(
    alloc: Global,
    tables: &Tables,
    caller: &Caller,
    asker: &Asker,
    change: Option<u32>,
) -> Result<Step, AllocError>
    ensures { IfOk result (λ step. (d : List Deed) → IsSound d → IsAsker d caller.now asker.now →
        HasRows (rows_of tables.now) d table_ids.Change →
        HasRows (rows_of tables.now) d table_ids.Working →
        IsMade (rows_of tables.now) d d (model.change_show d caller.now change) step) }
{
    match change {
        Some(change) => {
            let found = change_of(tables, change);
            let step = show_found(alloc, tables, asker, change, found)?;
            Ok(step)
        }
        None => {
            let step = show_new(alloc, tables, caller, asker)?;
            Ok(step)
        }
    }
}
