//! A change as it is submitted: its deeds and the rows of its reply.

ghost use Rattle.std.specs.Prelude.{◌≡◌, ◌++◌, ◌∷◌, [], List, IfOk, OnOk, codes, flat_map, map};
ghost use Rattle.depot_rows.specs.db_records.declared.table.TableId.TheVariants as table_ids;
ghost use Rattle.depot_rows.specs.depot_model.Deeds.{Deed as ModelDeed};
ghost use Rattle.depot_rows.specs.depot_model.Fixes as model;
ghost use Rattle.depot_rows.specs.depot_model.Rows.{action_word as word_of_action, number_field as field_of_number, row as row_with};
ghost use Rattle.depot_rows.specs.depot_model.Rules.{IsSound};
ghost use Rattle.depot_rows.specs.Deed.{action_of};
ghost use Rattle.depot_rows.specs.Standing.{HasRows};
ghost use Rattle.depot_rows.specs.declared.deed.Deed.TheVariants as dones;
ghost use Rattle.depot_facts.specs.Following.{AreTold};
ghost use Rattle.submit_core.specs.Landing.{dropped_by, ends_of, had_then, row_of_entry};
ghost use Rattle.depot_rows.specs.table_changes.Changed.{rows_of};

use crate::fixes::close_jobs;
use deed_list::Deeds;
use depot_rows::model::{Request, Row};
use depot_rows::paths::{Name, Sequence, Text};
use depot_rows::tables::Tables;
use depot_rows::{Action, Entry, Landing};
use file_contents::is_live_action;
use opening_reads::held;
use reply_rows::RowBuilder;
use std::alloc::{AllocError, Global};

/// The word of an action.
fn action_word(action: Action) -> &'static [u8]
    ensures { result.now ≡ word_of_action (action_of action) }
{
    match action {
        Action::Add => b"add",
        Action::Edit => b"edit",
        Action::Delete => b"delete",
        Action::Branch => b"branch",
        Action::Integrate => b"integrate",
        Action::MoveAdd => b"move/add",
        Action::MoveDelete => b"move/delete",
    }
}

/// The row of a file.
fn file_row(alloc: Global, entry: &Entry) -> Result<Row, AllocError>
    ensures { IfOk result (λ row. row ≡ row_of_entry entry.now) }
{
    let row = RowBuilder::new(alloc).path(b"depotFile", &entry.path)?;
    let row = row.number(b"rev", u64::from(entry.rev))?;
    let row = row.text(b"action", action_word(entry.action))?;
    Ok(row.row())
}

/// The rows of files.
fn file_rows(alloc: Global, entries: &[Entry]) -> Result<Sequence<Row>, AllocError>
    ensures { IfOk result (λ rows. rows ≡ map row_of_entry entries.now) }
{
    let mut rows = Sequence::new(alloc);
    for entry in entries {
        let row = file_row(alloc, entry)?;
        rows.push(row)?;
    }
    Ok(rows)
}

/// The row of the number.
fn number_row(alloc: Global, number: u32) -> Result<Row, AllocError>
    ensures { IfOk result (λ row. row ≡ row_with (field_of_number (codes "submittedChange") number ∷ [])) }
{
    let row = RowBuilder::new(alloc).number(b"submittedChange", u64::from(number))?;
    Ok(row.row())
}

/// The rows of a submitted change: those of its files, and that of its number. The one error, here and below, is want
/// of memory.
pub(crate) fn landed_rows(
    alloc: Global,
    entries: &[Entry],
    number: u32,
) -> Result<Sequence<Row>, AllocError>
    ensures { IfOk result (λ rows. rows ≡ map row_of_entry entries.now ++
        row_with (field_of_number (codes "submittedChange") number ∷ []) ∷ []) }
{
    let mut rows = file_rows(alloc, entries)?;
    let row = number_row(alloc, number)?;
    rows.push(row)?;
    Ok(rows)
}

/// The revision that the client then has of a file, 0 for none.
fn new_have(entry: &Entry) -> u32
    ensures { result ≡ had_then entry.now }
{
    if is_live_action(entry.action) {
        entry.rev
    } else {
        0
    }
}

/// The client has the new revision of a file, and has it opened no more.
fn end_file(deeds: &mut Deeds, client: &Name, entry: &Entry) -> Result<(), AllocError>
    ensures { OnOk result (deeds.new ≡ deeds.old ++ ends_of client.now entry.now) }
{
    let file = held(client, &entry.path)?;
    deeds.got(file, new_have(entry))?;
    let file = held(client, &entry.path)?;
    deeds.shut(file)?;
    Ok(())
}

/// The same of files.
fn end_files(deeds: &mut Deeds, client: &Name, entries: &[Entry]) -> Result<(), AllocError>
    ensures { OnOk result (deeds.new ≡ deeds.old ++ flat_map (ends_of client.now) entries.now) }
{
    for entry in entries {
        end_file(deeds, client, entry)?;
    }
    Ok(())
}

/// A change that gets another number is pending no more.
fn drop_number(deeds: &mut Deeds, change: u32, number: u32) -> Result<(), AllocError>
    ensures { OnOk result (deeds.new ≡ deeds.old ++ dropped_by change number) }
{
    if change == 0 || change == number {
        return Ok(());
    }
    deeds.drop_change(change)
}

/// What a submit does behind its change: it drops its pending number, ends its files and closes its jobs, from the
/// table of forms alone.
pub(crate) fn later_deeds(
    alloc: Global,
    tables: &Tables,
    client: &Name,
    change: u32,
    number: u32,
    entries: &[Entry],
) -> Result<Deeds, AllocError>
    ensures { IfOk result (λ deeds. (d files dropped : List ModelDeed) → IsSound d →
        HasRows (rows_of tables.now) d table_ids.Domain →
        AreTold (dropped_by change number) dropped → AreTold (flat_map (ends_of client.now) entries.now) files →
        AreTold deeds (dropped ++ files ++ flat_map (model.closing d change number) (model.fixes_of d change))) }
{
    let mut deeds = Deeds::new(alloc);
    drop_number(&mut deeds, change, number)?;
    end_files(&mut deeds, client, entries)?;
    close_jobs(alloc, tables, &mut deeds, change, number)?;
    Ok(deeds)
}

/// A copy of a name.
fn own_name(name: &Name) -> Result<Name, AllocError>
    ensures { IfOk result (λ own. own ≡ name.now) }
{
    name.clone()
}

/// The change that a request submits under a number.
pub(crate) fn landing_of(
    request: &Request,
    number: u32,
    text: &Text,
    entries: Sequence<Entry>,
) -> Result<Landing, AllocError>
    ensures { IfOk result (λ landing. landing ≡
        record { change = number; user = request.now.caller.user; client = request.now.caller.client; moment = request.now.moment; text = text.now; entries = entries }) }
{
    let user = own_name(&request.caller.user)?;
    let client = own_name(&request.caller.client)?;
    let text = text.clone()?;
    Ok(Landing {
        change: number,
        user,
        client,
        moment: request.moment,
        text,
        entries,
    })
}

/// The deeds of a submitted change and of what is done behind it.
pub(crate) fn all_deeds(alloc: Global, landing: Landing, later: Deeds) -> Result<Deeds, AllocError>
    ensures { IfOk result (λ deeds. deeds ≡ dones.Land landing ∷ later) }
{
    let mut deeds = Deeds::new(alloc);
    deeds.land(landing)?;
    deeds.append(later)?;
    Ok(deeds)
}
