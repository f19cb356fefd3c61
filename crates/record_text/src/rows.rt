//! The fields of a record, one after another: a reader for each layout.

ghost use Rattle.std.specs.Prelude.{◌≡◌};
ghost use Rattle.record_text.specs.declared.layout.Layout.TheVariants as layouts;
ghost use Rattle.record_text.specs.Grammar.{row_at};
ghost use Rattle.record_text.specs.Answers.{Gives};

use crate::fault::RecordFault;
use crate::layout::Layout;
use crate::number::{count_of, line_of, wide_of};
use crate::tables::with_fields;
use crate::text::{action_of, move_of, text_of};
use db_records::paths::Text;
use db_records::{
    ChangeRecord, CounterRecord, DomainRecord, GroupRecord, HaveRecord, IntegedRecord, LabelRecord,
    ProtectRecord, Record, ResolveRecord, RevRecord, WorkingRecord,
};
use std::alloc::Global;

/// The byte that ends each field but the last.
const SPACE: u8 = b' ';
/// The byte that ends the last field.
const LINE: u8 = b'\n';

/// The field of a kind at the front, and the bytes behind the byte that ends it.
macro_rules! field_of {
    (line, $alloc:expr, $ender:expr, $bytes:expr) => { line_of($ender, $bytes) };
    (count, $alloc:expr, $ender:expr, $bytes:expr) => { count_of($ender, $bytes) };
    (wide, $alloc:expr, $ender:expr, $bytes:expr) => { wide_of($ender, $bytes) };
    (text, $alloc:expr, $ender:expr, $bytes:expr) => { text_of($alloc, $ender, $bytes) };
    (plain, $alloc:expr, $ender:expr, $bytes:expr) => { action_of($alloc, $ender, $bytes) };
    (moving, $alloc:expr, $ender:expr, $bytes:expr) => { move_of($alloc, $bytes) };
}

/// Reads fields one after another, and makes a row of them, where need be with one more field of this value.
macro_rules! read_fields {
    ($alloc:expr, $bytes:expr => $table:ident $row:tt, $($fields:tt)+) => {
        read_fields!($alloc, $bytes, $table $row, [], $($fields)+)
    };
    // Behind the fields in brackets stands the last one.
    (
        $alloc:expr, $bytes:expr, $table:ident($Row:ident { $($other:ident: $value:expr)? }), [$($read:ident)*],
        $field:ident: $kind:ident
    ) => {{
        let ($field, rest) = field_of!($kind, $alloc, LINE, $bytes)?;
        let row = $Row { $($read,)* $field, $($other: $value,)? };
        Ok((Record::$table(row), rest))
    }};
    ($alloc:expr, $bytes:expr, $table:ident $row:tt, [$($read:ident)*], $field:ident: $kind:ident, $($fields:tt)+) => {{
        let ($field, rest) = field_of!($kind, $alloc, SPACE, $bytes)?;
        read_fields!($alloc, rest, $table $row, [$($read)* $field], $($fields)+)
    }};
}

/// The fields of a row of this layout.
#[tactic(auto, unfolding(crate::specs::Grammar::row_at))]
fn counter_of(alloc: Global, bytes: &[u8]) -> Result<(Record, &[u8]), RecordFault>
    ensures { Gives (λ x. x.0) (λ x. x.1.now) result (row_at layouts.Counter bytes.now) }
{
    with_fields!(Counter, read_fields, alloc, bytes => Counter(CounterRecord {}))
}

/// The fields of a row of this layout.
#[tactic(auto, unfolding(crate::specs::Grammar::row_at))]
fn group_of(alloc: Global, bytes: &[u8]) -> Result<(Record, &[u8]), RecordFault>
    ensures { Gives (λ x. x.0) (λ x. x.1.now) result (row_at layouts.Group bytes.now) }
{
    with_fields!(Group, read_fields, alloc, bytes => Group(GroupRecord {}))
}

/// The fields of a row of this layout.
#[tactic(auto, unfolding(crate::specs::Grammar::row_at))]
fn protect_of(alloc: Global, bytes: &[u8]) -> Result<(Record, &[u8]), RecordFault>
    ensures { Gives (λ x. x.0) (λ x. x.1.now) result (row_at layouts.Protect bytes.now) }
{
    with_fields!(Protect, read_fields, alloc, bytes => Protect(ProtectRecord {}))
}

/// The fields of a row of this layout.
#[tactic(auto, unfolding(crate::specs::Grammar::row_at))]
fn domain_of(alloc: Global, bytes: &[u8]) -> Result<(Record, &[u8]), RecordFault>
    ensures { Gives (λ x. x.0) (λ x. x.1.now) result (row_at layouts.Domain bytes.now) }
{
    with_fields!(Domain, read_fields, alloc, bytes => Domain(DomainRecord {}))
}

/// The fields of a row of this layout.
#[tactic(auto, unfolding(crate::specs::Grammar::row_at))]
fn have_of(alloc: Global, bytes: &[u8]) -> Result<(Record, &[u8]), RecordFault>
    ensures { Gives (λ x. x.0) (λ x. x.1.now) result (row_at layouts.Have bytes.now) }
{
    with_fields!(Have, read_fields, alloc, bytes => Have(HaveRecord {}))
}

/// The fields of a row of this layout.
#[tactic(auto, unfolding(crate::specs::Grammar::row_at))]
fn label_of(alloc: Global, bytes: &[u8]) -> Result<(Record, &[u8]), RecordFault>
    ensures { Gives (λ x. x.0) (λ x. x.1.now) result (row_at layouts.Label bytes.now) }
{
    with_fields!(Label, read_fields, alloc, bytes => Label(LabelRecord {}))
}

/// The fields of a row of this layout.
#[tactic(auto, unfolding(crate::specs::Grammar::row_at))]
fn integed_of(alloc: Global, bytes: &[u8]) -> Result<(Record, &[u8]), RecordFault>
    ensures { Gives (λ x. x.0) (λ x. x.1.now) result (row_at layouts.Integed bytes.now) }
{
    with_fields!(Integed, read_fields, alloc, bytes => Integed(IntegedRecord {}))
}

/// The fields of a row of this layout.
#[tactic(auto, unfolding(crate::specs::Grammar::row_at))]
fn resolve_of(alloc: Global, bytes: &[u8]) -> Result<(Record, &[u8]), RecordFault>
    ensures { Gives (λ x. x.0) (λ x. x.1.now) result (row_at layouts.Resolve bytes.now) }
{
    with_fields!(Resolve, read_fields, alloc, bytes => Resolve(ResolveRecord {}))
}

/// The fields of a row of this layout.
#[tactic(auto, unfolding(crate::specs::Grammar::row_at))]
fn working_of(alloc: Global, bytes: &[u8]) -> Result<(Record, &[u8]), RecordFault>
    ensures { Gives (λ x. x.0) (λ x. x.1.now) result (row_at layouts.Working bytes.now) }
{
    with_fields!(Working, read_fields, alloc, bytes => Working(WorkingRecord { moved: Text::new(alloc) }))
}

/// The fields of a row of this layout.
#[tactic(auto, unfolding(crate::specs::Grammar::row_at))]
fn moved_working_of(alloc: Global, bytes: &[u8]) -> Result<(Record, &[u8]), RecordFault>
    ensures { Gives (λ x. x.0) (λ x. x.1.now) result (row_at layouts.MovedWorking bytes.now) }
{
    with_fields!(MovedWorking, read_fields, alloc, bytes => Working(WorkingRecord {}))
}

/// The fields of a row of this layout.
#[tactic(auto, unfolding(crate::specs::Grammar::row_at))]
fn change_of(alloc: Global, bytes: &[u8]) -> Result<(Record, &[u8]), RecordFault>
    ensures { Gives (λ x. x.0) (λ x. x.1.now) result (row_at layouts.Change bytes.now) }
{
    with_fields!(Change, read_fields, alloc, bytes => Change(ChangeRecord {}))
}

/// The fields of a row of this layout.
#[tactic(auto, unfolding(crate::specs::Grammar::row_at))]
fn rev_of(alloc: Global, bytes: &[u8]) -> Result<(Record, &[u8]), RecordFault>
    ensures { Gives (λ x. x.0) (λ x. x.1.now) result (row_at layouts.Rev bytes.now) }
{
    with_fields!(Rev, read_fields, alloc, bytes => Rev(RevRecord { moved: Text::new(alloc) }))
}

/// The fields of a row of this layout.
#[tactic(auto, unfolding(crate::specs::Grammar::row_at))]
fn moved_rev_of(alloc: Global, bytes: &[u8]) -> Result<(Record, &[u8]), RecordFault>
    ensures { Gives (λ x. x.0) (λ x. x.1.now) result (row_at layouts.MovedRev bytes.now) }
{
    with_fields!(MovedRev, read_fields, alloc, bytes => Rev(RevRecord {}))
}

/// The fields of a record of this layout at the front, and the bytes behind them.
pub(crate) fn row_of(
    alloc: Global,
    layout: Layout,
    bytes: &[u8],
) -> Result<(Record, &[u8]), RecordFault>
    ensures { Gives (λ x. x.0) (λ x. x.1.now) result (row_at layout bytes.now) }
{
    match layout {
        Layout::Counter => counter_of(alloc, bytes),
        Layout::Group => group_of(alloc, bytes),
        Layout::Protect => protect_of(alloc, bytes),
        Layout::Domain => domain_of(alloc, bytes),
        Layout::Have => have_of(alloc, bytes),
        Layout::Label => label_of(alloc, bytes),
        Layout::Integed => integed_of(alloc, bytes),
        Layout::Resolve => resolve_of(alloc, bytes),
        Layout::Working => working_of(alloc, bytes),
        Layout::MovedWorking => moved_working_of(alloc, bytes),
        Layout::Change => change_of(alloc, bytes),
        Layout::Rev => rev_of(alloc, bytes),
        Layout::MovedRev => moved_rev_of(alloc, bytes),
    }
}
