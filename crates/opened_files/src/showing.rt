//! `opened` (Command-Line Reference, "p4 opened").

ghost use Rattle.std.specs.Prelude.{◌≡◌, ◌∷◌, [], ◌++◌, List, IfOk, OnOk, filter, map, if◌then◌else◌};
ghost use Rattle.depot_rows.specs.db_records.declared.table.TableId.TheVariants as table_ids;
ghost use Rattle.row_ranges.specs.Ranges.{has_row, range_table};
ghost use Rattle.depot_rows.specs.table_changes.Changed.{rows_of};
ghost use Rattle.depot_rows.specs.depot_model.Deeds.{Deed};
ghost use Rattle.depot_rows.specs.depot_model.Records.{working_record};
ghost use Rattle.depot_rows.specs.depot_model.Rules.{IsSound};
ghost use Rattle.depot_rows.specs.depot_model.Steps.Reverting as model;
ghost use Rattle.depot_rows.specs.Standing.{HasRows};
ghost use Rattle.named_files.specs.Asked.{IsAsker};
ghost use Rattle.reply_rows.specs.Made.{IsMade, told};
ghost use Rattle.file_openings.specs.Openings.{openings, workings};
ghost use Rattle.opened_files.specs.Shown.{is_shown as shown_to, row_of_working};

use depot_rows::model::{Caller, FileArgument, Row};
use depot_rows::paths::{DepotPath, Name, Sequence};
use depot_rows::records::{Record, WorkingRecord};
use depot_rows::tables::Tables;
use file_openings::{openings_of, rows_are_openings};
use file_steps::{FileAct, over_all};
use named_files::{Asker, ListedFiles, Listing, OpenedAnywhere};
use reply_rows::{RowBuilder, Step};
use row_ranges::{KeyRange, rows_in};
use std::alloc::{AllocError, Global};

/// What `opened` shows of a file.
#[derive(Drop)]
struct Showing<'a> {
    caller: &'a Caller,
    /// The openings by all clients, not by the caller's alone.
    all: bool,
}

/// The row of an opening.
fn opened_row(alloc: Global, opening: &WorkingRecord) -> Result<Row, AllocError>
    ensures { IfOk result (λ row. row ≡ row_of_working opening.now) }
{
    let row = RowBuilder::new(alloc).text(b"depotFile", opening.path.as_bytes())?;
    let row = row.number(b"rev", u64::from(opening.base))?;
    let row = row.text(b"action", opening.action.as_bytes())?;
    let row = row.change(b"change", opening.change)?;
    let row = row.text(b"type", opening.file_type.as_bytes())?;
    let row = row.text(b"client", opening.client.as_bytes())?;
    let row = row.number(b"lock", u64::from(opening.lock))?;
    Ok(row.row())
}

/// Adds the row of an opening, if it is shown.
fn add_shown(
    alloc: Global,
    rows: &mut Sequence<Row>,
    all: bool,
    client: &Name,
    opening: &WorkingRecord,
) -> Result<(), AllocError>
    ensures { OnOk result (rows.new ≡ rows.old ++ (if shown_to all client.now opening.now then row_of_working opening.now ∷ [] else [])) }
{
    if all || client.as_bytes() == opening.client.as_bytes() {
        rows.push(opened_row(alloc, opening)?)?;
    }
    Ok(())
}

/// The rows of the openings in a range that are shown.
fn rows_shown(
    alloc: Global,
    tables: &Tables,
    range: &KeyRange,
    all: bool,
    client: &Name,
) -> Result<Sequence<Row>, AllocError>
    ensures { IfOk result (λ rows. rows ≡
        map row_of_working (filter (shown_to all client.now) (workings (filter (has_row range.now) (rows_of tables.now (range_table range.now)))))) }
{
    let mut rows = Sequence::new(alloc);
    for row in rows_in(alloc, tables, range)? {
        if let Record::Working(opening) = row {
            add_shown(alloc, &mut rows, all, client, opening)?;
        }
    }
    Ok(rows)
}

/// The step that shows the openings of a file.
fn show(
    alloc: Global,
    tables: &Tables,
    all: bool,
    client: &Name,
    path: &DepotPath,
) -> Result<Step, AllocError>
    ensures { IfOk result (λ step. (d : List Deed) → HasRows (rows_of tables.now) d table_ids.Working →
        step ≡ told (map row_of_working (filter (shown_to all client.now) (workings (map (working_record d) (openings d path.now)))))) }
{
    rows_are_openings(tables);
    let range = openings_of(alloc, path)?;
    let rows = rows_shown(alloc, tables, &range, all, client)?;
    let mut step = Step::new(alloc);
    step.rows = rows;
    Ok(step)
}

impl<'a> FileAct for Showing<'a> {
    ghost use Rattle.depot_rows.specs.db_records.declared.table.TableId.TheVariants as table_ids;
    ghost use Rattle.depot_rows.specs.depot_model.Steps.Reverting.{show_opened};
    ghost use Rattle.depot_rows.specs.Standing.{HasRows};

    ghost reads = { λ showing rows d. HasRows rows d table_ids.Working };

    ghost acts = { λ showing d argument path. show_opened showing.all d showing.caller.now argument path };

    ghost is_later = { λ showing d e. Unit {0} };

    fn act(
        &self,
        alloc: Global,
        tables: &Tables,
        _argument: &FileArgument,
        path: &DepotPath,
    ) -> Result<Step, AllocError> {
        show(alloc, tables, self.all, &self.caller.client, path)
    }

    ghost first = { λ showing d. tt };

    ghost next = { λ showing d e argument path later. tt };
}

/// `opened [-a] [FILE...]`: the files that the client has opened, with `-a` those of all clients, from the table of
/// opened files alone. The one error is want of memory.
pub fn opened(
    alloc: Global,
    tables: &Tables,
    caller: &Caller,
    asker: &Asker,
    all: bool,
    arguments: &[FileArgument],
) -> Result<Step, AllocError>
    ensures { IfOk result (λ step. (d : List Deed) → IsSound d → IsAsker d caller.now asker.now →
        HasRows (rows_of tables.now) d table_ids.Working →
        IsMade (rows_of tables.now) d d (model.opened_step d caller.now all arguments.now) step) }
{
    let showing = Showing { caller, all };
    if all {
        let files = OpenedAnywhere { caller, asker };
        return over_all(alloc, tables, &files, &showing, arguments);
    }
    let listing = Listing::opened_by(&caller.client)?;
    let files = ListedFiles {
        caller,
        asker,
        listing: &listing,
    };
    over_all(alloc, tables, &files, &showing, arguments)
}
