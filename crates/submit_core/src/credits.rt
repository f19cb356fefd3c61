//! What a submit takes in from other files.

ghost use Rattle.std.specs.List.{cons_option, filter_map};
ghost use Rattle.std.specs.Prelude.{◌≡◌, ◌++◌, IfOk, List, OnOk, Some, [], filter, map};
ghost use Rattle.depot_rows.specs.db_records.declared.table.TableId.TheVariants as table_ids;
ghost use Rattle.depot_rows.specs.depot_model.Deeds.{Deed, Opening};
ghost use Rattle.depot_rows.specs.depot_model.Opened.{opened};
ghost use Rattle.depot_rows.specs.depot_model.Rules.{IsSound};
ghost use Rattle.depot_rows.specs.depot_model.Steps.Submitting.{credits_of as credits_said};
ghost use Rattle.depot_rows.specs.Deed.{credit_of as credit_said};
ghost use Rattle.depot_rows.specs.Standing.{HasRows};
ghost use Rattle.row_ranges.specs.Ranges.{has_row, range_table};
ghost use Rattle.submit_core.specs.Owed.{credit_in, credit_of_row, how_in};
ghost use Rattle.depot_rows.specs.table_changes.Changed.{rows_of};

use depot_rows::paths::{DepotPath, Name, Sequence};
use depot_rows::records::{Record, ResolveRecord};
use depot_rows::tables::Tables;
use depot_rows::{Credit, How};
use opening_reads::{file_resolves, path_in, rows_tell_resolves};
use row_ranges::{KeyRange, rows_in};
use std::alloc::{AllocError, Global};

/// How a resolve was paid, where a word says it.
fn how_of(word: &[u8]) -> Option<How>
    ensures { result ≡ how_in word.now }
{
    if word == b"copy from".as_slice() {
        Some(How::CopyFrom)
    } else if word == b"branch from".as_slice() {
        Some(How::BranchFrom)
    } else if word == b"delete from".as_slice() {
        Some(How::DeleteFrom)
    } else if word == b"ignored".as_slice() {
        Some(How::Ignored)
    } else if word == b"moved from".as_slice() {
        Some(How::MovedFrom)
    } else {
        None
    }
}

/// The credit of a resolve that was paid, from another file than that of the text.
fn credit_of(alloc: Global, path: &[u8], row: &ResolveRecord) -> Result<Option<Credit>, AllocError>
    ensures { IfOk result (λ credit. credit ≡ credit_in path.now row.now) }
{
    if row.from.as_bytes() == path {
        return Ok(None);
    }
    let Some(how) = how_of(row.how.as_bytes()) else {
        return Ok(None);
    };
    let Some(from) = path_in(alloc, &row.from)? else {
        return Ok(None);
    };
    Ok(Some(Credit {
        from,
        first: row.first,
        last: row.last,
        how,
    }))
}

/// Adds the credit of a row, where it has one.
fn add_credit(
    alloc: Global,
    credits: &mut Sequence<Credit>,
    path: &[u8],
    row: &Record,
) -> Result<(), AllocError>
    ensures { OnOk result (credits.new ≡ credits.old ++ cons_option (credit_of_row path.now row.now) []) }
{
    let Record::Resolve(row) = row else {
        return Ok(());
    };
    if let Some(credit) = credit_of(alloc, path, row)? {
        credits.push(credit)?;
    }
    Ok(())
}

/// The credits of the rows of a range.
fn credits_in(
    alloc: Global,
    tables: &Tables,
    range: &KeyRange,
    path: &[u8],
) -> Result<Sequence<Credit>, AllocError>
    ensures { IfOk result (λ credits. credits ≡
        filter_map (credit_of_row path.now) (filter (has_row range.now) (rows_of tables.now (range_table range.now)))) }
{
    let mut credits = Sequence::new(alloc);
    for row in rows_in(alloc, tables, range)? {
        add_credit(alloc, &mut credits, path, row)?;
    }
    Ok(credits)
}

/// What the submit of an opened file takes in: the resolves that were paid, from other files, in their order
/// (Command-Line Reference, "p4 resolve"), from the table of resolves alone. It reads the rows of that file.
pub fn credits_of(
    alloc: Global,
    tables: &Tables,
    client: &Name,
    path: &DepotPath,
) -> Result<Sequence<Credit>, AllocError>
    ensures { IfOk result (λ credits. (d : List Deed) (o : Opening) → IsSound d →
        HasRows (rows_of tables.now) d table_ids.Resolve → opened d client.now path.now ≡ Some o →
        map credit_said credits ≡ credits_said d o) }
{
    rows_tell_resolves(tables);
    let text = path.print(alloc)?;
    let range = file_resolves(alloc, client, path)?;
    let credits = credits_in(alloc, tables, &range, text.as_bytes())?;
    Ok(credits)
}
