//! The numbers of changes that a text may say.

ghost use Rattle.std.specs.Prelude.{◌≡◌, ◌≤◌, ◌↔◌, All, IsTrue};
ghost use Rattle.depot_rows.specs.db_records.declared.record.Record.TheVariants as rows;
ghost use Rattle.record_text.specs.Grammar.{largest_wide};
ghost use Rattle.row_texts.specs.Texts.{IsOf64Bits, is_count, is_counted as counted};

use depot_rows::records::{Change, IntegedRecord, Record, ResolveRecord, RevRecord, WorkingRecord};

/// Whether a text may say a number of a line, a revision or a change.
fn is_small(number: u32) -> bool
    ensures { result ≡ is_count number }
{
    number <= 2_147_483_647
}

/// Whether a text may say the numbers of the record of an integration.
fn integration_is_counted(row: &IntegedRecord) -> bool
    ensures { result ≡ counted (rows.Integed row.now) }
{
    is_small(row.start_from)
        && is_small(row.end_from)
        && is_small(row.start_to)
        && is_small(row.end_to)
        && is_small(row.change)
}

/// Whether a text may say the numbers of a resolve.
fn resolve_is_counted(row: &ResolveRecord) -> bool
    ensures { result ≡ counted (rows.Resolve row.now) }
{
    is_small(row.first) && is_small(row.last)
}

/// Whether a text may say the numbers of an opened file.
fn opened_is_counted(row: &WorkingRecord) -> bool
    ensures { result ≡ counted (rows.Working row.now) }
{
    is_small(row.base) && is_small(row.change) && is_small(row.lock) && is_small(row.source_rev)
}

/// Whether a text may say the numbers of a revision.
fn revision_is_counted(row: &RevRecord) -> bool
    ensures { result ≡ counted (rows.Rev row.now) }
{
    is_small(row.rev) && is_small(row.change)
}

/// Whether a text may say the numbers of a row.
fn is_counted(row: &Record) -> bool
    ensures { result ≡ counted row.now }
{
    match row {
        Record::Protect(row) => is_small(row.line),
        Record::Have(row) => is_small(row.rev),
        Record::Label(row) => is_small(row.rev),
        Record::Integed(row) => integration_is_counted(row),
        Record::Resolve(row) => resolve_is_counted(row),
        Record::Working(row) => opened_is_counted(row),
        Record::Change(row) => is_small(row.change),
        Record::Rev(row) => revision_is_counted(row),
        _ => true,
    }
}

/// Whether a text may say the numbers of the rows of all changes.
pub(crate) fn are_counted(changes: &[Change]) -> bool
    ensures { IsTrue result ↔ All (λ change. IsTrue (counted change.row)) changes.now }
{
    for change in changes {
        if !is_counted(&change.row) {
            return false;
        }
    }
    true
}

/// A number is no greater than one that a text can say.
fn know_number(number: u64)
    ensures { number ≤ largest_wide }
{
    let _number = number;
}

/// The numbers of a row that no rule bounds are of 64 bits.
fn know_record(row: &Record)
    ensures { IsOf64Bits row.now }
{
    match row {
        Record::Counter(row) => know_number(row.value),
        Record::Change(row) => know_number(row.moment),
        Record::Rev(row) => {
            know_number(row.length);
            know_number(row.at);
        }
        _ => {}
    }
}

/// So are those of all rows.
pub(crate) fn know_records(changes: &[Change])
    ensures { All (λ change. IsOf64Bits change.row) changes.now }
{
    for change in changes {
        know_record(&change.row);
    }
}
