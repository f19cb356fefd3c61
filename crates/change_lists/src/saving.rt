//! `change -i` (Command-Line Reference, "p4 change").

ghost use Rattle.std.specs.Prelude.{◌≡◌, ◌≤◌, ◌+◌, ◌∷◌, ◌++◌, true, None, List, IfOk, IsFalse, OnOk, flat_map, map, option_map, unwrap_or};
ghost use Rattle.std.specs.Option.{option_copied, option_to_list};
ghost use Rattle.depot_rows.specs.db_records.declared.key.Key.TheVariants as keys;
ghost use Rattle.depot_rows.specs.db_records.declared.table.TableId.TheVariants as table_ids;
ghost use Rattle.depot_rows.specs.table_changes.Changed.{rows_of};
ghost use Rattle.depot_rows.specs.depot_model.Deeds.{Deed};
ghost use Rattle.depot_rows.specs.depot_model.declared.request.Caller.{Caller as ModelCaller};
ghost use Rattle.depot_rows.specs.depot_model.Numbers.{top};
ghost use Rattle.depot_rows.specs.depot_model.Records.{record_of};
ghost use Rattle.depot_rows.specs.depot_model.Refusals.{refusal_row};
ghost use Rattle.depot_rows.specs.depot_model.Rules.{IsSound};
ghost use Rattle.depot_rows.specs.depot_model.Step.{unless};
ghost use Rattle.depot_rows.specs.depot_model.Steps.Changing as model;
ghost use Rattle.depot_rows.specs.Deed.{opening_of as opening_of_deed};
ghost use Rattle.depot_rows.specs.Effects.{is_submitted};
ghost use Rattle.depot_rows.specs.Standing.{HasRows};
ghost use Rattle.depot_rows.specs.declared.deed.Deed.TheVariants as dones;
ghost use Rattle.reply_rows.specs.Made.{IsMade, does};
ghost use Rattle.reply_rows.specs.Refusing.{first_of};
ghost use Rattle.change_lists.specs.Saving.{file_refusals, limit_refusals, moved_in, moved_row, not_open_in, pending_deed, saved_by, saved_row as row_of_saved, with_limits};

use crate::lines::{form_number, has_number, joined, push_paths};
use command_parts::{named_change_refusal, unread};
use deed_list::Deeds;
use depot_rows::forms::{Form, Shape, field_place, line_place};
use depot_rows::model::{Caller, Limit, Request, Row};
use depot_rows::paths::{DepotPath, Name, Sequence, Text};
use depot_rows::records::WorkingRecord;
use depot_rows::tables::Tables;
use depot_rows::{Opening, Pending};
use file_openings::opening_of;
use opening_reads::reopened_in;
use reply_rows::{RowBuilder, Step, bad_form_row, limit_row, not_open_row};
use row_reads::top_change;
use std::alloc::{AllocError, Global};

/// Adds the opening of a row in another change, where there is one.
fn push_moved(
    alloc: Global,
    openings: &mut Sequence<Opening>,
    client: &Name,
    path: &DepotPath,
    change: u32,
    row: Option<&WorkingRecord>,
) -> Result<(), AllocError>
    ensures { OnOk result (openings.new ≡ openings.old ++
        option_to_list (option_map (moved_row client.now path.now change) (option_copied row.entry))) }
{
    if let Some(row) = row {
        openings.push(reopened_in(alloc, client, path, row, Some(change), &None)?)?;
    }
    Ok(())
}

/// Adds the opening of a file by a client in another change, where it has the file opened.
fn push_file(
    alloc: Global,
    tables: &Tables,
    openings: &mut Sequence<Opening>,
    client: &Name,
    change: u32,
    path: &DepotPath,
) -> Result<(), AllocError>
    ensures { OnOk result ((d : List Deed) → IsSound d → HasRows (rows_of tables.now) d table_ids.Working →
        map opening_of_deed openings.new ≡ map opening_of_deed openings.old ++ moved_in d client.now change path.now) }
{
    let row = opening_of(alloc, tables, client, path)?;
    push_moved(alloc, openings, client, path, change, row)?;
    Ok(())
}

/// The openings of files by a client, moved into another change.
fn moved_openings(
    alloc: Global,
    tables: &Tables,
    client: &Name,
    change: u32,
    paths: &[DepotPath],
) -> Result<Sequence<Opening>, AllocError>
    ensures { IfOk result (λ openings. (d : List Deed) → IsSound d → HasRows (rows_of tables.now) d table_ids.Working →
        map opening_of_deed openings ≡ flat_map (moved_in d client.now change) paths.now) }
{
    let mut openings = Sequence::new(alloc);
    let mut rest = paths;
    while let [path, later @ ..] = rest {
        push_file(alloc, tables, &mut openings, client, change, path)?;
        rest = later;
    }
    Ok(openings)
}

/// Opens files.
fn push_opens(deeds: &mut Deeds, openings: Sequence<Opening>) -> Result<(), AllocError>
    ensures { OnOk result (deeds.new ≡ deeds.old ++ map dones.Open openings) }
{
    for opening in openings.into_vec() {
        deeds.open(opening)?;
    }
    Ok(())
}

/// The caller's change as it is pending.
fn pending(request: &Request, text: Text, change: u32) -> Result<Pending, AllocError>
    ensures { IfOk result (λ made. made ≡ pending_deed request.now text change) }
{
    let Caller { user, client, host } = request.caller.copy()?;
    drop(host);
    Ok(Pending {
        change,
        user,
        client,
        moment: request.moment,
        text,
    })
}

/// The step by which a change is pending, and files are opened.
fn pend(
    alloc: Global,
    request: &Request,
    text: Text,
    change: u32,
    openings: Sequence<Opening>,
) -> Result<Step, AllocError>
    ensures { IfOk result (λ step. step ≡
        does (dones.Pend (pending_deed request.now text change) ∷ map dones.Open openings) (row_of_saved change)) }
{
    let row = RowBuilder::new(alloc).number(b"Change", u64::from(change))?;
    let row = row.text(b"action", b"saved")?;
    let mut step = Step::tells(alloc, row.row())?;
    step.deeds.pend(pending(request, text, change)?)?;
    push_opens(&mut step.deeds, openings)?;
    Ok(step)
}

/// The step that saves a change of a number that isn't submitted, and moves opened files into it.
fn keep(
    alloc: Global,
    tables: &Tables,
    request: &Request,
    text: Text,
    change: u32,
    paths: &[DepotPath],
) -> Result<Step, AllocError>
    ensures { IfOk result (λ step. (d : List Deed) → IsSound d → HasRows (rows_of tables.now) d table_ids.Working →
        IsFalse (is_submitted (record_of d (keys.Change change))) →
        IsMade (rows_of tables.now) d d (saved_by d request.now text change paths.now) step) }
{
    let openings = moved_openings(alloc, tables, &request.caller.client, change, paths)?;
    let step = pend(alloc, request, text, change, openings)?;
    Ok(step)
}

/// The number of a change: the one that is named, or else the next one.
fn number_or_next(alloc: Global, tables: &Tables, number: Option<u32>) -> Result<u64, AllocError>
    ensures { IfOk result (λ change. (d : List Deed) → IsSound d → HasRows (rows_of tables.now) d table_ids.Counter →
        change ≡ unwrap_or number (top d + 1)) }
{
    match number {
        Some(change) => Ok(u64::from(change)),
        None => {
            let top = top_change(alloc, tables)?;
            Ok(top.saturating_add(1))
        }
    }
}

/// The row of the first limit that a change passes: those of its text, of its number and of its files.
fn limit_refusal(
    alloc: Global,
    text: usize,
    change: u64,
    files: usize,
) -> Result<Option<Row>, AllocError>
    ensures { IfOk result (λ refused. refused ≡ option_map refusal_row (first_of (limit_refusals text change files))) }
{
    if text > 65536 {
        let row = limit_row(alloc, Limit::Text)?;
        return Ok(Some(row));
    }
    if change > 2147483647 {
        let row = limit_row(alloc, Limit::Change)?;
        return Ok(Some(row));
    }
    if files > 10000 {
        let row = limit_row(alloc, Limit::Files)?;
        return Ok(Some(row));
    }
    Ok(None)
}

/// A number of a change in fewer bits.
fn small(change: u64) -> u32
    requires { change ≤ 2147483647 }
    ensures { result ≡ change }
{
    change as u32
}

/// The step of a form whose change isn't refused and whose files are opened.
fn save_within(
    alloc: Global,
    tables: &Tables,
    request: &Request,
    number: Option<u32>,
    text: Text,
    paths: &[DepotPath],
) -> Result<Step, AllocError>
    ensures { IfOk result (λ step. (d : List Deed) → IsSound d → HasRows (rows_of tables.now) d table_ids.Counter →
        HasRows (rows_of tables.now) d table_ids.Working →
        first_of (file_refusals d request.now.caller number paths.now) ≡ None →
        IsMade (rows_of tables.now) d d (with_limits d request.now number text paths.now) step) }
{
    let change = number_or_next(alloc, tables, number)?;
    let refused = limit_refusal(alloc, text.len(), change, paths.len())?;
    match refused {
        Some(row) => {
            drop(text);
            let step = Step::tells(alloc, row)?;
            Ok(step)
        }
        None => {
            let step = keep(alloc, tables, request, text, small(change), paths)?;
            Ok(step)
        }
    }
}

/// The row of the refusal of a file that the client hasn't opened, by its row.
fn unopened(
    alloc: Global,
    path: &DepotPath,
    row: Option<&WorkingRecord>,
) -> Result<Option<Row>, AllocError>
    ensures { IfOk result (λ refused. refused ≡
        option_map refusal_row (not_open_in path.now (option_copied row.entry))) }
{
    match row {
        Some(_) => Ok(None),
        None => {
            let text = path.print(alloc)?;
            let row = not_open_row(alloc, text.as_bytes())?;
            Ok(Some(row))
        }
    }
}

/// The row of the refusal of a file that the client hasn't opened.
fn not_open(
    alloc: Global,
    tables: &Tables,
    client: &Name,
    path: &DepotPath,
) -> Result<Option<Row>, AllocError>
    ensures { IfOk result (λ refused. (d : List Deed) (caller : ModelCaller) → caller.client ≡ client.now →
        HasRows (rows_of tables.now) d table_ids.Working →
        refused ≡ option_map refusal_row (model.not_open d caller path.now)) }
{
    let row = opening_of(alloc, tables, client, path)?;
    let refused = unopened(alloc, path, row)?;
    Ok(refused)
}

/// The row of the refusal of the first file that the client hasn't opened.
fn first_not_open(
    alloc: Global,
    tables: &Tables,
    client: &Name,
    paths: &[DepotPath],
) -> Result<Option<Row>, AllocError>
    ensures { IfOk result (λ refused. (d : List Deed) (caller : ModelCaller) → caller.client ≡ client.now →
        HasRows (rows_of tables.now) d table_ids.Working →
        refused ≡ option_map refusal_row (first_of (map (model.not_open d caller) paths.now))) }
{
    let mut rest = paths;
    while let [path, later @ ..] = rest {
        let refused = not_open(alloc, tables, client, path)?;
        if refused.is_some() {
            return Ok(refused);
        }
        rest = later;
    }
    Ok(None)
}

/// The row of the refusal of the change that a form names, or of the first file that isn't opened.
fn file_refusal(
    alloc: Global,
    tables: &Tables,
    caller: &Caller,
    number: Option<u32>,
    paths: &[DepotPath],
) -> Result<Option<Row>, AllocError>
    ensures { IfOk result (λ refused. (d : List Deed) → HasRows (rows_of tables.now) d table_ids.Change →
        HasRows (rows_of tables.now) d table_ids.Working →
        refused ≡ option_map refusal_row (first_of (file_refusals d caller.now number paths.now))) }
{
    let named = named_change_refusal(alloc, tables, caller, number)?;
    match named {
        Some(row) => Ok(Some(row)),
        None => {
            let refused = first_not_open(alloc, tables, &caller.client, paths)?;
            Ok(refused)
        }
    }
}

/// The step of a form with these files.
fn save_files(
    alloc: Global,
    tables: &Tables,
    request: &Request,
    number: Option<u32>,
    text: Text,
    paths: &[DepotPath],
) -> Result<Step, AllocError>
    ensures { IfOk result (λ step. (d : List Deed) → IsSound d → HasRows (rows_of tables.now) d table_ids.Counter →
        HasRows (rows_of tables.now) d table_ids.Change →
        HasRows (rows_of tables.now) d table_ids.Working →
        IsMade (rows_of tables.now) d d (unless (file_refusals d request.now.caller number paths.now) (with_limits d request.now number text paths.now)) step) }
{
    let refused = file_refusal(alloc, tables, &request.caller, number, paths)?;
    match refused {
        Some(row) => {
            drop(text);
            let step = Step::tells(alloc, row)?;
            Ok(step)
        }
        None => {
            let step = save_within(alloc, tables, request, number, text, paths)?;
            Ok(step)
        }
    }
}

/// The step of a form that names a change or asks for a new one.
fn save_lines(
    alloc: Global,
    tables: &Tables,
    request: &Request,
    input: &[u8],
    form: &Form,
) -> Result<Step, AllocError>
    ensures { IfOk result (λ step. (d : List Deed) → IsSound d → HasRows (rows_of tables.now) d table_ids.Counter →
        HasRows (rows_of tables.now) d table_ids.Change →
        HasRows (rows_of tables.now) d table_ids.Working → model.has_number form.now ≡ true →
        IsMade (rows_of tables.now) d d (model.change_form d request.now input.now form.now) step) }
{
    let mut paths = Sequence::new(alloc);
    let bad = push_paths(alloc, &mut paths, form.lines("Files"))?;
    match bad {
        Some(index) => {
            drop(paths);
            let row = bad_form_row(alloc, line_place(input, "Files", index))?;
            let step = Step::tells(alloc, row)?;
            Ok(step)
        }
        None => {
            let text = joined(alloc, form.lines("Description"))?;
            let number = form_number(form);
            let step = save_files(alloc, tables, request, number, text, paths.as_slice())?;
            Ok(step)
        }
    }
}

/// The step of a form that could be read.
fn save(
    alloc: Global,
    tables: &Tables,
    request: &Request,
    input: &[u8],
    form: &Form,
) -> Result<Step, AllocError>
    ensures { IfOk result (λ step. (d : List Deed) → IsSound d → HasRows (rows_of tables.now) d table_ids.Counter →
        HasRows (rows_of tables.now) d table_ids.Change →
        HasRows (rows_of tables.now) d table_ids.Working →
        IsMade (rows_of tables.now) d d (model.change_form d request.now input.now form.now) step) }
{
    if has_number(form) {
        let step = save_lines(alloc, tables, request, input, form)?;
        Ok(step)
    } else {
        let row = bad_form_row(alloc, field_place(input, "Change"))?;
        let step = Step::tells(alloc, row)?;
        Ok(step)
    }
}

/// `change -i`: the change that the input spells is saved as pending, under the number that it names or the next one
/// for `new`, and the files that it lists are moved into it. It is refused first where it can't be read, then that it
/// has no number, then the first line of its files that is no path, then that its change isn't pending or is another's,
/// then the first file that isn't opened, and last by the limits of its text of 65,536 bytes, its number and its 10,000
/// files. It reads the tables of counters, changes and opened files alone.
pub fn change_save(
    alloc: Global,
    tables: &Tables,
    request: &Request,
    input: &[u8],
) -> Result<Step, AllocError>
    ensures { IfOk result (λ step. (d : List Deed) → IsSound d → HasRows (rows_of tables.now) d table_ids.Counter →
        HasRows (rows_of tables.now) d table_ids.Change →
        HasRows (rows_of tables.now) d table_ids.Working →
        IsMade (rows_of tables.now) d d (model.change_save d request.now input.now) step) }
{
    match Form::read(alloc, input, Shape::Change) {
        Ok(form) => {
            let done = save(alloc, tables, request, input, &form);
            drop(form);
            let step = done?;
            Ok(step)
        }
        Err(fault) => {
            let step = unread(alloc, fault)?;
            Ok(step)
        }
    }
}
