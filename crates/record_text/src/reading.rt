//! The record at the front.

ghost use Rattle.std.specs.Prelude.{◌≡◌, ◌≤◌, ◌++◌, ℕ, List, length, take, drop, IfOk, IsErrOf};
ghost use Rattle.db_records.specs.declared.change.Op.{Op};
ghost use Rattle.db_records.specs.declared.record.Record.{Record};
ghost use Rattle.record_text.specs.declared.fault.RecordFault.TheVariants.{Cut};
ghost use Rattle.record_text.specs.Clauses.{IsBeginning, StopsAt, IsAnswer, IsCut, IfWrong};
ghost use Rattle.record_text.specs.declared.fault.Part.TheVariants.{Table};
ghost use Rattle.record_text.specs.Words.{word_at};
ghost use Rattle.record_text.specs.Layout.{table_text, layouts};
ghost use Rattle.record_text.specs.Grammar.{operator_text, record_at, IsRecord, spelling};
ghost use Rattle.record_text.specs.Answers.{Gives};

use crate::fault::{Part, RecordFault};
use crate::layout::{Layout, Version};
use crate::rows::row_of;
use crate::word::{Word, word_of};
use db_records::{Op, Record};
use std::alloc::Global;

impl Word for Op {
    ghost text = { operator_text };

    fn text(&self) -> &'static [u8] {
        match self {
            Op::Put => b"@pv@ ",
            Op::Replace => b"@rv@ ",
            Op::Remove => b"@dv@ ",
        }
    }
}

/// The table at the front, one of those that the version has, and the bytes behind it.
fn layout_of(version: Version, bytes: &[u8]) -> Result<(Layout, &[u8]), RecordFault>
    ensures { Gives (λ x. x.0) (λ x. x.1.now) result (word_at table_text (layouts version) Table bytes.now) }
{
    match version {
        Version::One => word_of(
            &[
                Layout::Counter,
                Layout::Group,
                Layout::Protect,
                Layout::Domain,
                Layout::Have,
                Layout::Label,
                Layout::Integed,
                Layout::Resolve,
                Layout::Working,
                Layout::Change,
                Layout::Rev,
            ],
            Part::Table,
            bytes,
        ),
        Version::Two => word_of(
            &[Layout::MovedWorking, Layout::MovedRev],
            Part::Table,
            bytes,
        ),
    }
}

/// The record at the front with its operator, and the bytes behind it.
pub(crate) fn record_of(alloc: Global, bytes: &[u8]) -> Result<((Op, Record), &[u8]), RecordFault>
    ensures { Gives (λ x. x.0) (λ x. x.1.now) result (record_at bytes.now) }
{
    let (op, rest) = word_of(&[Op::Put, Op::Replace, Op::Remove], Part::Operator, bytes)?;
    let (version, rest) = word_of(&[Version::One, Version::Two], Part::Version, rest)?;
    let (layout, rest) = layout_of(version, rest)?;
    let (row, rest) = row_of(alloc, layout, rest)?;
    Ok(((op, row), rest))
}

/// The record at the front with its operator, and its length.
fn whole(alloc: Global, bytes: &[u8]) -> Result<(Op, Record, usize), RecordFault>
    ensures exact { Gives (λ x. (x.0, x.1)) (λ x. drop x.2 bytes.now) result (record_at bytes.now) }
    ensures within { IfOk result (λ x. x.2 ≤ length bytes.now) }
{
    let ((op, row), rest) = record_of(alloc, bytes)?;
    let length = bytes.len() - rest.len();
    Ok((op, row, length))
}

/// The row with which the bytes begin, its operator, and the length of its text in bytes.
///
/// `Cut` says that the bytes end before a record does, and `Wrong` where the first byte stands that no
/// record goes on with.
pub fn read_record(alloc: Global, bytes: &[u8]) -> Result<(Op, Record, usize), RecordFault>
    // What is read is spelled so.
    ensures found { IfOk result (λ x. IsRecord x.1 × (take x.2 bytes.now ≡ spelling x.0 x.1) ×
        (x.2 ≤ length bytes.now)) }
    // What is spelled so is read, whatever follows, unless memory runs out.
    ensures only { (op : Op) (row : Record) (rest : List ℕ) → IsRecord row → bytes.now ≡ spelling op row ++ rest →
        IsAnswer result (op, row, length (spelling op row)) }
    // Cut comes only where all of the bytes are a proper beginning of a record's text, and there nothing else does.
    ensures cut { IsErrOf result Cut → IsBeginning bytes.now }
    ensures begins { IsBeginning bytes.now → IsCut result }
    // Another fault is at the first byte that can't go on.
    ensures wrong { IfWrong result (λ part left. StopsAt bytes.now left) }
    // Which part it is in.
    ensures exact { Gives (λ x. (x.0, x.1)) (λ x. drop x.2 bytes.now) result (record_at bytes.now) }
{
    whole(alloc, bytes)
}
