//! What holds of all records' texts.

ghost use Rattle.db_records.specs.declared.change.Op.{Op};
ghost use Rattle.db_records.specs.declared.record.Record.{Record};
ghost use Rattle.record_text.specs.Reading.{Reads};
ghost use Rattle.record_text.specs.Grammar.{record_at, IsRecord, spelling};

/// A row with its operator has one text, no text begins another, and what is none is one up to the first
/// byte that can't go on.
pub fn records_have_one_spelling()
    ensures { Reads {A = Op × Record} record_at (λ x. IsRecord x.1) (λ x. spelling x.0 x.1) }
{}
