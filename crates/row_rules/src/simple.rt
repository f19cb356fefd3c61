//! Rows that speak of no other row.

ghost use Rattle.std.specs.Prelude.{◌≡◌, IfOk, is_ok};
ghost use Rattle.depot_rows.specs.protect_table.Line.{line_of};
ghost use Rattle.row_rules.specs.Tests.{is_counter as counter_test, is_group as group_test, is_change as change_test, is_line as line_test, are_words as words_test};

use crate::texts::{is_kept_name, is_status};
use depot_rows::paths::{Text, is_name};
use depot_rows::protections::{LineFault, ProtectLine, line_words};
use depot_rows::records::{ChangeRecord, CounterRecord, GroupRecord, ProtectRecord, line_text};
use std::alloc::{AllocError, Global};

/// Whether a counter's row keeps the rules.
#[tactic(auto, unfolding(crate::specs::Tests::is_counter))]
pub(crate) fn is_counter(row: &CounterRecord) -> bool
    ensures { result ≡ counter_test row.now }
{
    is_name(row.name.as_bytes()) && (!is_kept_name(row.name.as_bytes()) || row.value >= 1)
}

/// Whether the row of a user of a group keeps the rules.
#[tactic(auto, unfolding(crate::specs::Tests::is_group))]
pub(crate) fn is_group(row: &GroupRecord) -> bool
    ensures { result ≡ group_test row.now }
{
    is_name(row.group.as_bytes()) && is_name(row.user.as_bytes())
}

/// Whether a change's row keeps the rules.
#[tactic(auto, unfolding(crate::specs::Tests::is_change))]
pub(crate) fn is_change(row: &ChangeRecord) -> bool
    ensures { result ≡ change_test row.now }
{
    is_status(row.status.as_bytes())
        && is_name(row.user.as_bytes())
        && is_name(row.client.as_bytes())
}

/// Whether these are the words of a row.
fn are_words(words: &[Text], row: &ProtectRecord) -> bool
    ensures { result ≡ words_test words.now row.now }
{
    match words {
        [mode, kind, name, host, path] => {
            mode.as_bytes() == row.mode.as_bytes()
                && kind.as_bytes() == row.kind.as_bytes()
                && name.as_bytes() == row.name.as_bytes()
                && host.as_bytes() == row.host.as_bytes()
                && path.as_bytes() == row.path.as_bytes()
        }
        _ => false,
    }
}

/// Whether a text is a line of the protections.
fn is_read(alloc: Global, text: &[u8]) -> Result<bool, AllocError>
    ensures { IfOk result (λ is. is ≡ is_ok (line_of text.now)) }
{
    match ProtectLine::read(alloc, text) {
        Ok(_) => Ok(true),
        Err(LineFault::Memory) => Err(AllocError),
        Err(_) => Ok(false),
    }
}

/// Whether the row of a line of the protections keeps the rules.
#[tactic(auto, unfolding(crate::specs::Tests::is_line))]
pub(crate) fn is_line(alloc: Global, row: &ProtectRecord) -> Result<bool, AllocError>
    ensures { IfOk result (λ is. is ≡ line_test row.now) }
{
    let text = line_text(alloc, row)?;
    let words = line_words(alloc, text.as_bytes())?;
    let read = is_read(alloc, text.as_bytes())?;
    Ok(are_words(words.as_slice(), row) && read)
}
