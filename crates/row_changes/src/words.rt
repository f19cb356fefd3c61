//! The words that rows have for what deeds say, and the texts of rows.

ghost use Rattle.std.specs.Prelude.{◌≡◌, IfOk};
ghost use Rattle.std.specs.Option.{option_copied};
ghost use Rattle.depot_rows.specs.depot_model.Latest as latest;
ghost use Rattle.depot_rows.specs.depot_model.Records.{printed_or_empty as text_of_end, into_word as other_word};
ghost use Rattle.depot_rows.specs.depot_model.Rows as words;
ghost use Rattle.depot_rows.specs.depot_model.Rules.{value_of, lock_of as lock_in};
ghost use Rattle.depot_rows.specs.Deed.{kind_of, action_of, how_of};

use depot_rows::paths::{DepotPath, Text};
use depot_rows::records::Record;
use depot_rows::{Action, How, SpecKind};
use std::alloc::{AllocError, Global};

/// The word of what a form is of.
pub(crate) fn kind_word(kind: SpecKind) -> &'static [u8]
    ensures { result.now ≡ latest.kind_word (kind_of kind) }
{
    match kind {
        SpecKind::Client => b"client",
        SpecKind::Label => b"label",
        SpecKind::Shelf => b"shelf",
        SpecKind::Job => b"job",
        SpecKind::Fix => b"fix",
    }
}

/// The word of an action.
pub(crate) fn action_word(action: Action) -> &'static [u8]
    ensures { result.now ≡ words.action_word (action_of action) }
{
    match action {
        Action::Add => b"add",
        Action::Edit => b"edit",
        Action::Delete => b"delete",
        Action::Branch => b"branch",
        Action::Integrate => b"integrate",
        Action::MoveAdd => b"move/add",
        Action::MoveDelete => b"move/delete",
    }
}

/// The word of how a resolve was paid.
pub(crate) fn how_word(how: How) -> &'static [u8]
    ensures { result.now ≡ words.how_word (how_of how) }
{
    match how {
        How::CopyFrom => b"copy from",
        How::BranchFrom => b"branch from",
        How::DeleteFrom => b"delete from",
        How::Ignored => b"ignored",
        How::MovedFrom => b"moved from",
    }
}

/// The word of how a resolve was paid, as the other file of the pair has it.
pub(crate) fn into_word(how: How) -> &'static [u8]
    ensures { result.now ≡ other_word (how_of how) }
{
    match how {
        How::CopyFrom => b"copy into",
        How::BranchFrom => b"branch into",
        How::DeleteFrom => b"delete into",
        How::Ignored => b"ignored by",
        How::MovedFrom => b"moved into",
    }
}

/// The printed text of a path, or no bytes where there is none. The one error is want of memory.
pub(crate) fn printed_or_empty(alloc: Global, path: Option<&DepotPath>) -> Result<Text, AllocError>
    ensures { IfOk result (λ text. text ≡ text_of_end (option_copied path.entry)) }
{
    match path {
        Some(path) => Ok(path.print(alloc)?),
        None => Ok(Text::new(alloc)),
    }
}

/// The value of a counter's row, 0 where there is none.
pub(crate) fn counter_value(row: Option<&Record>) -> u64
    ensures { result ≡ value_of (option_copied row.entry) }
{
    match row {
        Some(Record::Counter(counter)) => counter.value,
        _ => 0,
    }
}

/// The lock number of an opened file's row, 0 where there is none.
pub(crate) fn lock_of(row: Option<&Record>) -> u32
    ensures { result ≡ lock_in (option_copied row.entry) }
{
    match row {
        Some(Record::Working(working)) => working.lock,
        _ => 0,
    }
}
