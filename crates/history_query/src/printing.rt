//! `print` (Command-Line Reference, "p4 print").

ghost use Rattle.std.specs.Prelude.{◌≡◌, ◌∷◌, ◌++◌, [], List, IfOk, OnOk};
ghost use Rattle.std.specs.Option.{option_copied};
ghost use Rattle.depot_rows.specs.depot_path.Path.{printed};
ghost use Rattle.depot_rows.specs.db_records.declared.table.TableId.TheVariants as table_ids;
ghost use Rattle.depot_rows.specs.table_changes.Changed.{rows_of};
ghost use Rattle.depot_rows.specs.depot_model.Deeds.{Deed};
ghost use Rattle.depot_rows.specs.depot_model.Refusals.{refusal_row};
ghost use Rattle.depot_rows.specs.depot_model.Rules.{IsSound};
ghost use Rattle.depot_rows.specs.depot_model.Steps.History as model;
ghost use Rattle.depot_rows.specs.depot_model.declared.refusal.Refusal.TheVariants as refusals;
ghost use Rattle.depot_rows.specs.Standing.{HasRows};
ghost use Rattle.named_files.specs.Asked.{IsAsker};
ghost use Rattle.reply_rows.specs.Made.{IsMade, told as told_rows};
ghost use Rattle.history_query.specs.Printing.{awaited, length_fields, print_row_of, prints, places as places_in};

use crate::choosing::{ChoiceAct, over_chosen};
use depot_rows::model::{Caller, FileArgument, Row};
use depot_rows::paths::{DepotPath, Sequence, Text};
use depot_rows::protections::Level;
use depot_rows::records::{RevRecord, Spot};
use depot_rows::tables::Tables;
use named_files::Asker;
use reply_rows::{RowBuilder, RowContent, Step, denied_row};
use std::alloc::{AllocError, Global};

/// What `print` tells of a file.
#[derive(Drop)]
struct Printed<'a> {
    asker: &'a Asker,
}

/// With the length of the content, if there is one.
fn with_length(made: RowBuilder, row: &RevRecord) -> Result<RowBuilder, AllocError>
    ensures { IfOk result (λ more. more ≡ made ++ length_fields row.now.digest row.now.length) }
{
    match row.digest.as_bytes() {
        [] => Ok(made),
        [_, ..] => {
            let more = made.number(b"fileSize", row.length)?;
            Ok(more)
        }
    }
}

/// The content for which the row of a revision waits, an empty one, if there is one.
fn awaited_of(alloc: Global, row: &RevRecord) -> Option<Text>
    ensures { result ≡ awaited row.now.digest }
{
    match row.digest.as_bytes() {
        [] => None,
        [_, ..] => Some(Text::new(alloc)),
    }
}

/// The row of a revision, which waits for its content.
fn print_row(alloc: Global, path: &DepotPath, row: &RevRecord) -> Result<Row, AllocError>
    ensures { IfOk result (λ made. made ≡ print_row_of path.now row.now) }
{
    let made = RowBuilder::new(alloc).path(b"depotFile", path)?;
    let made = made.number(b"rev", u64::from(row.rev))?;
    let made = made.number(b"change", u64::from(row.change))?;
    let made = made.text(b"action", row.action.as_bytes())?;
    let made = made.text(b"type", row.file_type.as_bytes())?;
    let made = with_length(made, row)?;
    let mut made = made.row();
    made.content = awaited_of(alloc, row);
    Ok(made)
}

/// Adds where the content of a revision stands, if it has one.
fn add_place(places: &mut Sequence<RowContent>, row: &RevRecord) -> Result<(), AllocError>
    ensures { OnOk result (places.new ≡ places.old ++ places_in row.now.digest row.now) }
{
    match row.digest.as_bytes() {
        [] => Ok(()),
        [_, ..] => {
            places.push(RowContent::At(Spot {
                at: row.at,
                length: row.length,
            }))?;
            Ok(())
        }
    }
}

/// What is printed of a chosen revision, if there is one.
fn print_revision(
    alloc: Global,
    path: &DepotPath,
    row: Option<&RevRecord>,
) -> Result<Step, AllocError>
    ensures { IfOk result (λ step. step ≡ prints path.now (option_copied row.entry)) }
{
    match row {
        None => Ok(Step::new(alloc)),
        Some(row) => {
            let made = print_row(alloc, path, row)?;
            let mut step = Step::tells(alloc, made)?;
            add_place(&mut step.reads, row)?;
            Ok(step)
        }
    }
}

/// What is told of a file that the caller may not read.
fn deny(alloc: Global, path: &DepotPath) -> Result<Step, AllocError>
    ensures { IfOk result (λ step. step ≡ told_rows (refusal_row (refusals.Denied (printed path.now) 2) ∷ [])) }
{
    let row = denied_row(alloc, path, Level(2))?;
    let step = Step::tells(alloc, row)?;
    Ok(step)
}

impl<'a> ChoiceAct for Printed<'a> {
    ghost use Rattle.depot_rows.specs.depot_model.Step.{unless};
    ghost use Rattle.depot_rows.specs.depot_model.Asking.{to_read};
    ghost use Rattle.depot_rows.specs.depot_model.Steps.History.{print_chosen};
    ghost use Rattle.depot_rows.specs.depot_model.Steps.Opening.{right_refusal};
    ghost use Rattle.history_query.specs.Printing.{PrintReads};

    ghost reads = { λ printed caller rows d. PrintReads caller printed.asker.now rows d };

    ghost acts = { λ printed d caller argument path. unless (right_refusal to_read d caller path ∷ []) (print_chosen d caller argument path) };

    fn act(
        &self,
        alloc: Global,
        tables: &Tables,
        _caller: &Caller,
        path: &DepotPath,
        row: Option<&RevRecord>,
    ) -> Result<Step, AllocError> {
        if !self.asker.may(path, Level(2)) {
            let step = deny(alloc, path)?;
            return Ok(step);
        }
        let step = print_revision(alloc, path, row)?;
        Ok(step)
    }
}

/// `print FILE...`: the revisions that arguments choose of files, whose rows wait for their contents, from the tables
/// of forms, have lists, labels, changes and revisions alone. The one error is want of memory.
pub fn print(
    alloc: Global,
    tables: &Tables,
    caller: &Caller,
    asker: &Asker,
    arguments: &[FileArgument],
) -> Result<Step, AllocError>
    ensures { IfOk result (λ step. (d : List Deed) → IsSound d → IsAsker d caller.now asker.now →
        HasRows (rows_of tables.now) d table_ids.Domain → HasRows (rows_of tables.now) d table_ids.Have →
        HasRows (rows_of tables.now) d table_ids.Label → HasRows (rows_of tables.now) d table_ids.Change →
        HasRows (rows_of tables.now) d table_ids.Rev →
        IsMade (rows_of tables.now) d d (model.print d caller.now arguments.now) step) }
{
    let act = Printed { asker };
    let step = over_chosen(alloc, tables, caller, asker, &act, arguments)?;
    Ok(step)
}
