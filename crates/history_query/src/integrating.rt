//! `integrated` (Command-Line Reference, "p4 integrated").

ghost use Rattle.std.specs.Prelude.{◌≡◌, ◌++◌, ◌∷◌, [], true, List, IfOk, OnOk, Some, filter, if◌then◌else◌, map};
ghost use Rattle.std.specs.List.{list_all};
ghost use Rattle.std.specs.Option.{option_copied};
ghost use Rattle.depot_rows.specs.db_records.declared.table.TableId.TheVariants as table_ids;
ghost use Rattle.row_ranges.specs.Ranges.{has_row, range_table};
ghost use Rattle.depot_rows.specs.table_changes.Changed.{rows_of};
ghost use Rattle.depot_rows.specs.depot_model.declared.request.Caller.{Caller as Asking};
ghost use Rattle.depot_rows.specs.depot_model.Deeds.{Deed};
ghost use Rattle.depot_rows.specs.depot_model.Rules.{IsSound};
ghost use Rattle.depot_rows.specs.depot_model.Steps.History as model;
ghost use Rattle.depot_rows.specs.depot_model.WellFormed.{asks_head};
ghost use Rattle.depot_rows.specs.Standing.{HasRows};
ghost use Rattle.named_files.specs.Asked.{IsAsker};
ghost use Rattle.reply_rows.specs.Made.{IsMade, told as told_rows};
ghost use Rattle.history_query.specs.Crediting.{integed_in, rows_told_in, told_by};

use crate::crediting::{as_integed, may_list, range_of, rows_are_records};
use depot_rows::model::{Caller, FileArgument, Row};
use depot_rows::paths::{DepotPath, Sequence};
use depot_rows::records::{IntegedRecord, Record};
use depot_rows::tables::Tables;
use file_steps::{FileAct, over};
use named_files::{Asker, HeadFiles, Listing};
use reply_rows::{RowBuilder, Step};
use row_ranges::{KeyRange, rows_in};
use std::alloc::{AllocError, Global};

/// What `integrated` tells of a file.
#[derive(Drop)]
struct Credited<'a> {
    caller: &'a Caller,
    asker: &'a Asker,
}

/// The row of an integration record.
fn integrated_row(alloc: Global, integed: &IntegedRecord) -> Result<Row, AllocError>
    ensures { IfOk result (λ row. row ≡ model.integrated_row integed.now) }
{
    let row = RowBuilder::new(alloc).text(b"toFile", integed.to_file.as_bytes())?;
    let row = row.text(b"fromFile", integed.from_file.as_bytes())?;
    let row = row.number(b"startToRev", u64::from(integed.start_to))?;
    let row = row.number(b"endToRev", u64::from(integed.end_to))?;
    let row = row.number(b"startFromRev", u64::from(integed.start_from))?;
    let row = row.number(b"endFromRev", u64::from(integed.end_from))?;
    let row = row.text(b"how", integed.how.as_bytes())?;
    let row = row.number(b"change", u64::from(integed.change))?;
    Ok(row.row())
}

/// Adds the row of an integration record, where it is to be told.
fn add_if(
    alloc: Global,
    rows: &mut Sequence<Row>,
    told: bool,
    integed: &IntegedRecord,
) -> Result<(), AllocError>
    ensures { OnOk result (rows.new ≡ rows.old ++ (if told then model.integrated_row integed.now ∷ [] else [])) }
{
    if told {
        rows.push(integrated_row(alloc, integed)?)?;
    }
    Ok(())
}

/// Adds the row of an integration record, if the asker may list its other file.
fn add_listed(
    alloc: Global,
    rows: &mut Sequence<Row>,
    asker: &Asker,
    integed: &IntegedRecord,
) -> Result<(), AllocError>
    ensures { OnOk result (rows.new ≡ rows.old ++ told_by asker.now (Some integed.now)) }
{
    let may = may_list(alloc, asker, &integed.from_file)?;
    add_if(alloc, rows, may, integed)?;
    Ok(())
}

/// Adds the row of an integration record, if there is one and the asker may list its other file.
fn add_found(
    alloc: Global,
    rows: &mut Sequence<Row>,
    asker: &Asker,
    found: Option<&IntegedRecord>,
) -> Result<(), AllocError>
    ensures { OnOk result (rows.new ≡ rows.old ++ told_by asker.now (option_copied found.entry)) }
{
    match found {
        None => Ok(()),
        Some(integed) => {
            add_listed(alloc, rows, asker, integed)?;
            Ok(())
        }
    }
}

/// Adds what is told of a row.
fn add_row(
    alloc: Global,
    rows: &mut Sequence<Row>,
    asker: &Asker,
    row: &Record,
) -> Result<(), AllocError>
    ensures { OnOk result (rows.new ≡ rows.old ++ told_by asker.now (integed_in row.now)) }
{
    let found = as_integed(row);
    add_found(alloc, rows, asker, found)?;
    Ok(())
}

/// The rows of the integration records in a range whose other file the asker may list.
fn rows_listed(
    alloc: Global,
    tables: &Tables,
    asker: &Asker,
    range: &KeyRange,
) -> Result<Sequence<Row>, AllocError>
    ensures { IfOk result (λ rows. rows ≡
        rows_told_in asker.now (filter (has_row range.now) (rows_of tables.now (range_table range.now)))) }
{
    let mut rows = Sequence::new(alloc);
    for row in rows_in(alloc, tables, range)? {
        add_row(alloc, &mut rows, asker, row)?;
    }
    Ok(rows)
}

/// What is told of a file.
fn tell_records(
    alloc: Global,
    tables: &Tables,
    asker: &Asker,
    path: &DepotPath,
) -> Result<Step, AllocError>
    ensures { IfOk result (λ step. (d : List Deed) (caller : Asking) → IsAsker d caller asker.now →
        HasRows (rows_of tables.now) d table_ids.Integed →
        step ≡ told_rows (map model.integrated_row (model.records_of d caller path.now))) }
{
    rows_are_records(tables);
    let range = range_of(alloc, path)?;
    let found = rows_listed(alloc, tables, asker, &range);
    drop(range);
    let rows = found?;
    let mut step = Step::new(alloc);
    step.rows = rows;
    Ok(step)
}

impl<'a> FileAct for Credited<'a> {
    ghost use Rattle.std.specs.Prelude.{map};
    ghost use Rattle.depot_rows.specs.depot_model.Step.{tells};
    ghost use Rattle.depot_rows.specs.depot_model.Steps.History.{integrated_row as row_of_record, records_of as records_in};
    ghost use Rattle.history_query.specs.Crediting.{RecordReads};

    ghost reads = { λ credited rows d. RecordReads credited.caller.now credited.asker.now rows d };

    ghost acts = { λ credited d argument path. tells (map row_of_record (records_in d credited.caller.now path)) };

    ghost is_later = { λ credited d e. Unit {0} };

    fn act(
        &self,
        alloc: Global,
        tables: &Tables,
        _argument: &FileArgument,
        path: &DepotPath,
    ) -> Result<Step, AllocError> {
        let step = tell_records(alloc, tables, self.asker, path)?;
        Ok(step)
    }

    ghost first = { λ credited d. tt };

    ghost next = { λ credited d e argument path later. tt };
}

/// `integrated FILE...`: the integration records of files, from the tables of forms, integration records and revisions
/// alone. Its arguments ask for no revision. The one error is want of memory.
pub fn integrated(
    alloc: Global,
    tables: &Tables,
    caller: &Caller,
    asker: &Asker,
    arguments: &[FileArgument],
) -> Result<Step, AllocError>
    ensures { IfOk result (λ step. (d : List Deed) → list_all asks_head arguments.now ≡ true → IsSound d →
        IsAsker d caller.now asker.now →
        HasRows (rows_of tables.now) d table_ids.Domain → HasRows (rows_of tables.now) d table_ids.Integed →
        HasRows (rows_of tables.now) d table_ids.Rev →
        IsMade (rows_of tables.now) d d (model.integrated d caller.now arguments.now) step) }
{
    let listing = Listing::Submitted;
    let files = HeadFiles {
        caller,
        asker,
        listing: &listing,
    };
    let act = Credited { caller, asker };
    let done = over(alloc, tables, &files, &act, arguments);
    drop(listing);
    let step = done?;
    Ok(step)
}
