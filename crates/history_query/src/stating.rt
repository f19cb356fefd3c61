//! `fstat` (Command-Line Reference, "p4 fstat").

ghost use Rattle.std.specs.Prelude.{◌≡◌, ◌++◌, List, IfOk, codes, option_map};
ghost use Rattle.std.specs.Option.{option_copied};
ghost use Rattle.depot_rows.specs.db_records.declared.record.Record.TheVariants.{Change, Rev};
ghost use Rattle.depot_rows.specs.db_records.declared.table.TableId.TheVariants as table_ids;
ghost use Rattle.depot_rows.specs.table_changes.Changed.{rows_of};
ghost use Rattle.depot_rows.specs.depot_model.Deeds.{Deed};
ghost use Rattle.depot_rows.specs.depot_model.Rows.{if_any, path_field as field_of_path, text_field as field_of_text};
ghost use Rattle.depot_rows.specs.depot_model.Rules.{IsSound};
ghost use Rattle.depot_rows.specs.depot_model.Steps.History as model;
ghost use Rattle.depot_rows.specs.Standing.{HasRows};
ghost use Rattle.named_files.specs.Asked.{IsAsker};
ghost use Rattle.reply_rows.specs.Made.{IsMade, told as told_rows};
ghost use Rattle.history_query.specs.Stating.{have_fields, head_fields, stat_row_of, stats_told};
ghost use Rattle.history_query.specs.Telling.{told_records};

use crate::choosing::{ChoiceAct, over_chosen};
use crate::telling::{Told, told_of};
use depot_rows::model::{Caller, FileArgument, Row};
use depot_rows::paths::{ClientPath, DepotPath};
use depot_rows::records::{ChangeRecord, RevRecord, WorkingRecord};
use depot_rows::tables::Tables;
use file_openings::opening_of;
use named_files::Asker;
use reply_rows::{RowBuilder, Step};
use row_reads::have_of;
use std::alloc::{AllocError, Global};

/// What `fstat` tells of a file.
#[derive(Drop)]
struct Stated<'a> {
    asker: &'a Asker,
}

/// With the place in the client workspace, if there is one.
fn with_place(made: RowBuilder, place: &Option<ClientPath>) -> Result<RowBuilder, AllocError>
    ensures { IfOk result (λ more. more ≡ made ++ if_any (field_of_path (codes "clientFile")) place.now) }
{
    match place {
        None => Ok(made),
        Some(place) => {
            let more = made.path(b"clientFile", place)?;
            Ok(more)
        }
    }
}

/// With what the revision says.
fn with_head(
    made: RowBuilder,
    row: &RevRecord,
    change: &ChangeRecord,
) -> Result<RowBuilder, AllocError>
    ensures { IfOk result (λ more. more ≡ made ++ head_fields row.now change.now) }
{
    let action = made.text(b"headAction", row.action.as_bytes())?;
    let kind = action.text(b"headType", row.file_type.as_bytes())?;
    let moment = kind.number(b"headTime", change.moment)?;
    let rev = moment.number(b"headRev", u64::from(row.rev))?;
    let more = rev.number(b"headChange", u64::from(row.change))?;
    Ok(more)
}

/// With the revision that the client has, if it has one.
fn with_have(made: RowBuilder, have: u32) -> Result<RowBuilder, AllocError>
    ensures { IfOk result (λ more. more ≡ made ++ have_fields have) }
{
    if have == 0 {
        return Ok(made);
    }
    let more = made.number(b"haveRev", u64::from(have))?;
    Ok(more)
}

/// With the action for which the client has the file opened, if it has.
fn with_action(made: RowBuilder, opening: Option<&WorkingRecord>) -> Result<RowBuilder, AllocError>
    ensures { IfOk result (λ more. more ≡ made ++
        if_any (λ r. field_of_text (codes "action") r.action) (option_copied opening.entry)) }
{
    match opening {
        None => Ok(made),
        Some(opening) => {
            let more = made.text(b"action", opening.action.as_bytes())?;
            Ok(more)
        }
    }
}

/// The row of a file with its place in the client workspace, the revision that the client has, and its opening of the
/// file.
#[tactic(auto, using(crate::proofs::Pushed::joined_parts))]
fn stat_row(
    alloc: Global,
    path: &DepotPath,
    place: &Option<ClientPath>,
    have: u32,
    opening: Option<&WorkingRecord>,
    row: &RevRecord,
    change: &ChangeRecord,
) -> Result<Row, AllocError>
    ensures { IfOk result (λ made. made ≡
        stat_row_of path.now place.now have (option_copied opening.entry) (Rev row.now) (Change change.now)) }
{
    let made = RowBuilder::new(alloc).path(b"depotFile", path)?;
    let placed = with_place(made, place)?;
    let headed = with_head(placed, row, change)?;
    let had = with_have(headed, have)?;
    let done = with_action(had, opening)?;
    Ok(done.row())
}

/// What is told of a file.
fn stat_file(
    alloc: Global,
    path: &DepotPath,
    place: &Option<ClientPath>,
    have: u32,
    opening: Option<&WorkingRecord>,
    told: Option<Told<'_>>,
) -> Result<Step, AllocError>
    ensures { IfOk result (λ step. step ≡
        told_rows (stats_told path.now place.now have (option_copied opening.entry) (option_map told_records told.entry))) }
{
    match told {
        None => Ok(Step::new(alloc)),
        Some(told) => {
            let row = stat_row(alloc, path, place, have, opening, told.row, told.change)?;
            let step = Step::tells(alloc, row)?;
            Ok(step)
        }
    }
}

impl<'a> ChoiceAct for Stated<'a> {
    ghost use Rattle.depot_rows.specs.depot_model.Steps.History.{stat_file as step_of_file};
    ghost use Rattle.history_query.specs.Stating.{StatReads};

    ghost reads = { λ stated caller rows d. StatReads caller stated.asker.now rows d };

    ghost acts = { λ stated d caller argument path. step_of_file d caller argument path };

    fn act(
        &self,
        alloc: Global,
        tables: &Tables,
        caller: &Caller,
        path: &DepotPath,
        row: Option<&RevRecord>,
    ) -> Result<Step, AllocError> {
        let told = told_of(tables, path, row);
        let have = have_of(alloc, tables, &caller.client, path)?;
        let opening = opening_of(alloc, tables, &caller.client, path)?;
        let place = self.asker.place(alloc, path)?;
        let done = stat_file(alloc, path, &place, have, opening, told);
        drop(place);
        let step = done?;
        Ok(step)
    }
}

/// `fstat FILE...`: the revisions that arguments choose of files, with what the client has of them, from the tables of
/// forms, have lists, labels, opened files, changes and revisions alone. The one error is want of memory.
pub fn file_stat(
    alloc: Global,
    tables: &Tables,
    caller: &Caller,
    asker: &Asker,
    arguments: &[FileArgument],
) -> Result<Step, AllocError>
    ensures { IfOk result (λ step. (d : List Deed) → IsSound d → IsAsker d caller.now asker.now →
        HasRows (rows_of tables.now) d table_ids.Domain → HasRows (rows_of tables.now) d table_ids.Have →
        HasRows (rows_of tables.now) d table_ids.Label → HasRows (rows_of tables.now) d table_ids.Working →
        HasRows (rows_of tables.now) d table_ids.Change →
        HasRows (rows_of tables.now) d table_ids.Rev →
        IsMade (rows_of tables.now) d d (model.fstat d caller.now arguments.now) step) }
{
    let act = Stated { asker };
    let step = over_chosen(alloc, tables, caller, asker, &act, arguments)?;
    Ok(step)
}
