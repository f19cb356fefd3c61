//! Which revisions of a file are credited to another one (Command-Line Reference, "p4 integrated").

ghost use Rattle.std.specs.Prelude.{◌≡◌, ◌++◌, ℕ, List, IfOk, IsTrue, OnOk, filter, option_and_then};
ghost use Rattle.std.specs.List.{list_any};
ghost use Rattle.std.specs.Option.{option_copied, option_to_list};
ghost use Rattle.depot_rows.specs.depot_path.Path.{is_path, printed};
ghost use Rattle.depot_rows.specs.db_records.declared.table.TableId.TheVariants as table_ids;
ghost use Rattle.row_ranges.specs.Ranges.{has_row, range_table};
ghost use Rattle.depot_rows.specs.table_changes.Changed.{rows_of};
ghost use Rattle.depot_rows.specs.depot_model.Deeds.{Deed};
ghost use Rattle.depot_rows.specs.depot_model.Revisions.{credited};
ghost use Rattle.depot_rows.specs.depot_model.Rules.{IsSound};
ghost use Rattle.depot_rows.specs.Standing.{HasRows};
ghost use Rattle.integ_records.specs.Crediting.{is_within, record_in, span_in, span_of_row, span_of_rows};

use depot_rows::paths::{DepotPath, Sequence};
use depot_rows::records::{IntegedRecord, Record, TableId};
use depot_rows::tables::Tables;
use row_ranges::{KeyRange, rows_in};
use std::alloc::{AllocError, Global};

/// Revisions of a file from one number up to another.
#[derive(Clone, Copy)]
pub(crate) struct Span {
    pub(crate) first: u32,
    pub(crate) last: u32,
}

impl Span {
    /// Whether a revision is one of them.
    fn has(self, rev: u32) -> bool
        ensures { result ≡ is_within rev self }
    {
        self.first <= rev && rev <= self.last
    }
}

/// The integration record that a row is, if it is one.
fn as_integed(row: &Record) -> Option<&IntegedRecord>
    ensures { option_copied result ≡ record_in row.now }
{
    match row {
        Record::Integed(integed) => Some(integed),
        _ => None,
    }
}

/// The revisions of the file of a text that a record tells of, if it tells of that file.
fn span_of(integed: &IntegedRecord, from: &[u8]) -> Option<Span>
    ensures { result ≡ span_in from.now integed.now }
{
    if integed.from_file.as_bytes() == from {
        Some(Span {
            first: integed.start_from,
            last: integed.end_from,
        })
    } else {
        None
    }
}

/// The same of a row, if it is a record.
fn span_of_found(found: Option<&IntegedRecord>, from: &[u8]) -> Option<Span>
    ensures { result ≡ option_and_then (span_in from.now) (option_copied found.entry) }
{
    match found {
        Some(integed) => span_of(integed, from),
        None => None,
    }
}

/// Adds the revisions of the file of a text that a row tells of, if it tells of that file.
fn add_span(spans: &mut Sequence<Span>, row: &Record, from: &[u8]) -> Result<(), AllocError>
    ensures { OnOk result (spans.new ≡ spans.old ++ option_to_list (span_of_row from.now row.now)) }
{
    let integed = as_integed(row);
    let found = span_of_found(integed, from);
    if let Some(span) = found {
        spans.push(span)?;
    }
    Ok(())
}

/// The revisions of the file of a text that the rows of a range tell of.
fn spans_in(
    alloc: Global,
    tables: &Tables,
    range: &KeyRange,
    from: &[u8],
) -> Result<Sequence<Span>, AllocError>
    ensures { IfOk result (λ spans. spans ≡
        span_of_rows from.now (filter (has_row range.now) (rows_of tables.now (range_table range.now)))) }
{
    let mut spans = Sequence::new(alloc);
    for row in rows_in(alloc, tables, range)? {
        add_span(&mut spans, row, from)?;
    }
    Ok(spans)
}

/// The rows of a file in its range tell which revisions of another one are credited to it (Helix Core database schema
/// reference, "db.integed"): each record of a pair tells it of the file that it is kept for.
fn rows_tell_credits(tables: &Tables)
    ensures { (d : List Deed) (s t : List ℕ) (n : ℕ) → IsSound d → HasRows (rows_of tables.now) d table_ids.Integed →
        IsTrue (is_path s) → IsTrue (is_path t) →
        list_any (is_within n) (span_of_rows (printed s) (filter (has_row (KeyRange.Integrations (printed t))) (rows_of tables.now table_ids.Integed))) ≡ credited d s t n }
{
    let version = tables.version(TableId::Integed);
    // the rows of a version are of its table, their keys rising
    let _table = version.table();
}

/// The range of the rows of a file's integration records.
fn range_of(alloc: Global, path: &DepotPath) -> Result<KeyRange, AllocError>
    ensures { IfOk result (λ range. range ≡ KeyRange.Integrations (printed path.now)) }
{
    let to_file = path.print(alloc)?;
    Ok(KeyRange::Integrations { to_file })
}

/// The revisions of a file that are credited to another one, span by span, from the table of integration records alone.
/// It reads the rows of the other file. The one error is want of memory.
pub(crate) fn credits_of(
    alloc: Global,
    tables: &Tables,
    from: &DepotPath,
    to: &DepotPath,
) -> Result<Sequence<Span>, AllocError>
    ensures { IfOk result (λ spans. (d : List Deed) (n : ℕ) → IsSound d →
        HasRows (rows_of tables.now) d table_ids.Integed →
        list_any (is_within n) spans ≡ credited d from.now to.now n) }
{
    rows_tell_credits(tables);
    // the bytes of a path are one
    let _from = from.as_bytes();
    let _to = to.as_bytes();
    let text = from.print(alloc)?;
    let range = range_of(alloc, to)?;
    let spans = spans_in(alloc, tables, &range, text.as_bytes())?;
    Ok(spans)
}

/// Whether a revision is one of some spans.
pub(crate) fn is_in(spans: &[Span], rev: u32) -> bool
    ensures { result ≡ list_any (is_within rev) spans.now }
{
    spans.iter().any(|span| span.has(rev))
}
