//! `submit` (Command-Line Reference, "p4 submit").

ghost use Rattle.std.specs.Prelude.{◌≡◌, ◌==◌, List, IfOk, IsFalse, Some, None, length, map, option_map};
ghost use Rattle.depot_rows.specs.db_records.declared.table.TableId.TheVariants as table_ids;
ghost use Rattle.depot_rows.specs.depot_model.Deeds.{Deed, Pending};
ghost use Rattle.depot_rows.specs.depot_model.declared.request.Request.{Request as AnyRequest};
ghost use Rattle.depot_rows.specs.depot_model.Numbers.{pending};
ghost use Rattle.depot_rows.specs.depot_model.Refusals.{refusal_row};
ghost use Rattle.depot_rows.specs.depot_model.Rules.{IsSound};
ghost use Rattle.depot_rows.specs.depot_model.Shelves.{is_shelved};
ghost use Rattle.depot_rows.specs.depot_model.Steps.Submitting as model;
ghost use Rattle.depot_rows.specs.Deed.{opening_of as opening_said};
ghost use Rattle.depot_rows.specs.Standing.{HasRows};
ghost use Rattle.named_files.specs.Asked.{IsAsker};
ghost use Rattle.reply_rows.specs.Refusing.{first_of};
ghost use Rattle.depot_facts.specs.Submits.{IsAsked, MaySubmit};
ghost use Rattle.step_stores.specs.Stored.{IsStoring};
ghost use Rattle.submit_core.specs.Premises.{AreOpened, Reads};
ghost use Rattle.submit_core.specs.Submitting.{HasSubmitted, front_refusals, last_refusals, submit_refusals};
ghost use Rattle.depot_rows.specs.table_changes.Changed.{rows_of};

use crate::entries::{Files, files_of};
use crate::landing::{all_deeds, landed_rows, landing_of, later_deeds};
use crate::numbers::landing_number;
use crate::openings::openings_of;
use crate::refusals::files_refusal;
use command_parts::change_refusal;
use depot_rows::Opening;
use depot_rows::model::{Contents, Limit, Request, Row};
use depot_rows::paths::{Sequence, Text};
use depot_rows::tables::Tables;
use named_files::Asker;
use reply_rows::{Step, empty_change_row, limit_row};
use revision_reads::change_of;
use std::alloc::{AllocError, Global};

/// The most bytes of a description.
const MOST_TEXT: usize = 65_536;

/// The most files of a change.
const MOST_FILES: usize = 10_000;

/// The greatest number of a change.
const LAST_CHANGE: u64 = 2_147_483_647;

/// The row where a change has no files, or else its description is too long.
fn front_refusal(
    alloc: Global,
    change: u32,
    text: &Text,
    openings: &[Opening],
) -> Result<Option<Row>, AllocError>
    ensures { IfOk result (λ row. row ≡
        option_map refusal_row (first_of (front_refusals change text.now (length openings.now)))) }
{
    if openings.len() == 0 {
        let row = empty_change_row(alloc, change)?;
        return Ok(Some(row));
    }
    if text.len() > MOST_TEXT {
        let row = limit_row(alloc, Limit::Text)?;
        return Ok(Some(row));
    }
    Ok(None)
}

/// The row where the number is too great, or else there are too many files.
fn last_refusal(alloc: Global, number: u64, openings: &[Opening]) -> Result<Option<Row>, AllocError>
    ensures { IfOk result (λ row. row ≡
        option_map refusal_row (first_of (last_refusals number (length openings.now)))) }
{
    if number > LAST_CHANGE {
        let row = limit_row(alloc, Limit::Change)?;
        return Ok(Some(row));
    }
    if openings.len() > MOST_FILES {
        let row = limit_row(alloc, Limit::Files)?;
        return Ok(Some(row));
    }
    Ok(None)
}

/// The row of the first refusal of a change.
fn submit_refusal(
    alloc: Global,
    tables: &Tables,
    asker: &Asker,
    contents: &Contents,
    change: u32,
    number: u64,
    text: &Text,
    openings: &[Opening],
) -> Result<Option<Row>, AllocError>
    ensures { IfOk result (λ row. (d : List Deed) (request : AnyRequest) →
        Reads (rows_of tables.now) d request asker.now contents.now → AreOpened d request.caller.client openings.now →
        row ≡ option_map refusal_row (first_of (submit_refusals d request change number text.now (map opening_said openings.now)))) }
{
    let front = front_refusal(alloc, change, text, openings)?;
    if front.is_some() {
        return Ok(front);
    }
    let files = files_refusal(alloc, tables, asker, contents, openings)?;
    if files.is_some() {
        return Ok(files);
    }
    let last = last_refusal(alloc, number, openings)?;
    Ok(last)
}

/// The step of a change that isn't refused.
fn land(
    alloc: Global,
    tables: &Tables,
    request: &Request,
    asker: &Asker,
    change: u32,
    number: u32,
    text: &Text,
    openings: &[Opening],
) -> Result<Step, AllocError>
    ensures { IfOk result (λ step. (d : List Deed) →
        Reads (rows_of tables.now) d request.now asker.now request.now.contents →
        HasRows (rows_of tables.now) d table_ids.Domain →
        AreOpened d request.now.caller.client openings.now →
        map opening_said openings.now ≡ model.openings_of d request.now.caller change →
        number ≡ model.landing_number d change → MaySubmit d request.now change →
        IsStoring (rows_of tables.now) tables.now.archive_end d (model.landed d request.now change text.now (model.openings_of d request.now.caller change)) step) }
{
    let files = files_of(
        alloc,
        tables,
        asker,
        &request.contents,
        tables.archive_end(),
        openings,
    )?;
    let Files {
        entries,
        stores,
        ..
    } = files;
    let rows = landed_rows(alloc, entries.as_slice(), number)?;
    let client = &request.caller.client;
    let later = later_deeds(alloc, tables, client, change, number, entries.as_slice())?;
    let landing = landing_of(request, number, text, entries)?;
    let deeds = all_deeds(alloc, landing, later)?;
    Ok(Step {
        deeds,
        rows,
        stores,
        reads: Sequence::new(alloc),
    })
}

/// A number that fits.
fn small(number: u64) -> Result<u32, AllocError>
    ensures { IfOk result (λ n. n ≡ number) }
{
    match u32::try_from(number) {
        Ok(number) => Ok(number),
        Err(_) => Err(AllocError),
    }
}

/// The step of a change by its first refusal.
fn land_unless(
    alloc: Global,
    tables: &Tables,
    request: &Request,
    asker: &Asker,
    change: u32,
    number: u64,
    text: &Text,
    openings: &[Opening],
) -> Result<Step, AllocError>
    ensures { IfOk result (λ step. (d : List Deed) →
        Reads (rows_of tables.now) d request.now asker.now request.now.contents →
        HasRows (rows_of tables.now) d table_ids.Domain →
        AreOpened d request.now.caller.client openings.now →
        map opening_said openings.now ≡ model.openings_of d request.now.caller change →
        number ≡ model.landing_number d change → IsAsked d request.now change →
        IsStoring (rows_of tables.now) tables.now.archive_end d (model.submit d request.now change text.now) step) }
{
    let refusal = submit_refusal(
        alloc,
        tables,
        asker,
        &request.contents,
        change,
        number,
        text,
        openings,
    )?;
    match refusal {
        Some(row) => {
            let step = Step::tells(alloc, row)?;
            Ok(step)
        }
        None => {
            let number = small(number)?;
            let step = land(
                alloc, tables, request, asker, change, number, text, openings,
            )?;
            Ok(step)
        }
    }
}

/// The step of a change, 0 standing for the default one.
fn submit(
    alloc: Global,
    tables: &Tables,
    request: &Request,
    asker: &Asker,
    change: u32,
    text: &Text,
) -> Result<Step, AllocError>
    ensures { IfOk result (λ step. (d : List Deed) → HasSubmitted (rows_of tables.now) d →
        IsAsker d request.now.caller asker.now → IsAsked d request.now change →
        IsStoring (rows_of tables.now) tables.now.archive_end d (model.submit d request.now change text.now) step) }
{
    let openings = openings_of(alloc, tables, asker, change)?;
    let number = landing_number(alloc, tables, change)?;
    let step = land_unless(
        alloc,
        tables,
        request,
        asker,
        change,
        number,
        text,
        openings.as_slice(),
    )?;
    Ok(step)
}

/// `submit -d TEXT`: submits the files that the client has opened in its default change, from the tables of counters,
/// groups, protections, forms, opened files, resolves and revisions alone. It is refused first that no file is opened
/// in it, then that the description is too long; then, by path, the first file that the caller may not write, that
/// another client has locked, whose base isn't the newest revision, for which a resolve is owed, whose other end of a
/// move isn't in the change, or that lacks its content; then that the number would be too great, and that there are too
/// many files. The one error is want of memory; the length of the archive or a number past 64 bits is answered as such.
pub fn submit_default(
    alloc: Global,
    tables: &Tables,
    request: &Request,
    asker: &Asker,
    text: &Text,
) -> Result<Step, AllocError>
    ensures { IfOk result (λ step. (d : List Deed) → IsSound d → IsAsker d request.now.caller asker.now →
        HasRows (rows_of tables.now) d table_ids.Counter →
        HasRows (rows_of tables.now) d table_ids.Domain → HasRows (rows_of tables.now) d table_ids.Resolve →
        HasRows (rows_of tables.now) d table_ids.Working → HasRows (rows_of tables.now) d table_ids.Rev →
        IsStoring (rows_of tables.now) tables.now.archive_end d (model.submit_default d request.now text.now) step) }
{
    // the bytes of a name are one
    let _user = request.caller.user.as_bytes();
    let step = submit(alloc, tables, request, asker, 0, text)?;
    Ok(step)
}

/// The step of a pending change of the client, under its description.
fn submit_pending(
    alloc: Global,
    tables: &Tables,
    request: &Request,
    asker: &Asker,
    change: u32,
) -> Result<Step, AllocError>
    ensures { IfOk result (λ step. (d : List Deed) (p : Pending) → HasSubmitted (rows_of tables.now) d →
        IsAsker d request.now.caller asker.now →
        HasRows (rows_of tables.now) d table_ids.Change → IsFalse (is_shelved d change) → pending d change ≡ Some p →
        p.client ≡ request.now.caller.client →
        IsStoring (rows_of tables.now) tables.now.archive_end d (model.submit d request.now change p.text) step) }
{
    // the bytes of a name are one
    let _user = request.caller.user.as_bytes();
    match change_of(tables, change) {
        Some(row) => {
            let step = submit(alloc, tables, request, asker, change, &row.text)?;
            Ok(step)
        }
        None => {
            let step = Step::new(alloc);
            Ok(step)
        }
    }
}

/// `submit -c N`: the same for the files of a pending change, under its description, from the table of changes too. It
/// is refused before all else that the change isn't pending, or not of the caller's user and client. A change with
/// shelved files has been refused before.
pub fn submit_change(
    alloc: Global,
    tables: &Tables,
    request: &Request,
    asker: &Asker,
    change: u32,
) -> Result<Step, AllocError>
    ensures { IfOk result (λ step. (d : List Deed) → IsSound d → IsFalse (is_shelved d change) →
        IsAsker d request.now.caller asker.now →
        HasRows (rows_of tables.now) d table_ids.Counter → HasRows (rows_of tables.now) d table_ids.Domain →
        HasRows (rows_of tables.now) d table_ids.Resolve → HasRows (rows_of tables.now) d table_ids.Working →
        HasRows (rows_of tables.now) d table_ids.Change → HasRows (rows_of tables.now) d table_ids.Rev →
        IsStoring (rows_of tables.now) tables.now.archive_end d (model.submit_change d request.now change) step) }
{
    let refusal = change_refusal(alloc, tables, &request.caller, change)?;
    match refusal {
        Some(row) => {
            let step = Step::tells(alloc, row)?;
            Ok(step)
        }
        None => {
            let step = submit_pending(alloc, tables, request, asker, change)?;
            Ok(step)
        }
    }
}
