//! The values of counters.

ghost use Rattle.std.specs.Prelude.{◌≤◌, All};
ghost use Rattle.record_text.specs.Grammar.{largest_wide};
ghost use Rattle.depot_checkpoint.specs.Values.{IsWide};

use depot_rows::records::{Change, Record};

/// A number is no greater than one that a text can say.
fn know_number(number: u64)
    ensures { number ≤ largest_wide }
{
    // its type bounds a number
    let _number = number;
}

/// A text can say the value of a counter.
fn know_value(row: &Record)
    ensures { IsWide row.now }
{
    match row {
        Record::Counter(row) => know_number(row.value),
        _ => {}
    }
}

/// A text can say the values of the counters that are changed.
pub(crate) fn know_values(changes: &[Change])
    ensures { All (λ change. IsWide change.row) changes.now }
{
    for change in changes {
        know_value(&change.row);
    }
}
