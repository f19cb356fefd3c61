//! Texts at the front.

ghost use Rattle.std.specs.Prelude.{◌≡◌, ◌≤◌, [], ◌∷◌, length, drop, MatchOption};
ghost use Rattle.record_text.specs.declared.fault.Part.TheVariants.{Field};
ghost use Rattle.record_text.specs.Machine.{run};
ghost use Rattle.record_text.specs.Spelling.{text_at, text_step, Within, before_sign};
ghost use Rattle.record_text.specs.Layout.{is_move, Move};
ghost use Rattle.record_text.specs.Grammar.{any, is_plain, field_at, spelled_move};
ghost use Rattle.record_text.specs.Answers.{Gives};

use crate::fault::{Part, RecordFault};
use crate::word::{Word, word_of};
use db_records::paths::Text;
use std::alloc::Global;

/// One of the two actions of moves.
#[derive(Clone, Copy)]
pub(crate) enum MoveAction {
    Add,
    Delete,
}

impl Word for MoveAction {
    ghost text = { spelled_move 0x20 };

    fn text(&self) -> &'static [u8] {
        match self {
            MoveAction::Add => b"@move/add@ ",
            MoveAction::Delete => b"@move/delete@ ",
        }
    }
}

/// How many bytes stand before the first sign, or at all.
fn plain_length(bytes: &[u8]) -> usize
    ensures value { result ≡ before_sign bytes.now }
    ensures within { result ≤ length bytes.now }
{
    let mut count = 0;
    while count < bytes.len() && bytes[count] != b'@' {
        count += 1;
    }
    count
}

/// The byte behind a sign, and those behind it.
fn behind_sign(bytes: &[u8]) -> Option<(u8, &[u8])>
    ensures { MatchOption result (length bytes.now ≤ 1) (λ x. drop 1 bytes.now ≡ x.0 ∷ x.1.now) }
{
    match bytes {
        [] => None,
        [_, after @ ..] => match after {
            [] => None,
            [byte, behind @ ..] => Some((*byte, behind)),
        },
    }
}

/// What follows the opening sign of a text: the text, and the bytes behind the byte that ends it.
fn inner_of(alloc: Global, ender: u8, bytes: &[u8]) -> Result<(Text, &[u8]), RecordFault>
    ensures { Gives (λ x. x.0) (λ x. x.1.now) result (run (text_step any ender) Field (Within []) bytes.now) }
{
    let mut kept = Text::new(alloc);
    let mut rest = bytes;
    while !rest.is_empty() {
        let (plain, after) = rest.split_at(plain_length(rest));
        kept.append(plain)?;
        let Some((byte, behind)) = behind_sign(after) else {
            return Err(RecordFault::Cut);
        };
        if byte != b'@' {
            if byte == ender {
                return Ok((kept, behind));
            }
            return Err(RecordFault::Wrong {
                part: Part::Field,
                left: behind.len() + 1,
            });
        }
        kept.append(b"@")?;
        rest = behind;
    }
    Err(RecordFault::Cut)
}

/// A text between signs at the front, and the bytes behind the byte that ends it.
pub(crate) fn text_of(alloc: Global, ender: u8, bytes: &[u8]) -> Result<(Text, &[u8]), RecordFault>
    ensures { Gives (λ x. x.0) (λ x. x.1.now) result (text_at any ender bytes.now) }
{
    match bytes {
        [] => Err(RecordFault::Cut),
        [b'@', inner @ ..] => inner_of(alloc, ender, inner),
        [_, ..] => Err(RecordFault::Wrong {
            part: Part::Field,
            left: bytes.len(),
        }),
    }
}

/// Whether the action is one of the two of moves.
pub(crate) fn moves(action: &Text) -> bool
    ensures { result ≡ is_move action.now }
{
    action.as_bytes() == b"move/add".as_slice() || action.as_bytes() == b"move/delete".as_slice()
}

/// An action that is none of a move at the front.
pub(crate) fn action_of(
    alloc: Global,
    ender: u8,
    bytes: &[u8],
) -> Result<(Text, &[u8]), RecordFault>
    ensures { Gives (λ x. x.0) (λ x. x.1.now) result (text_at is_plain ender bytes.now) }
{
    let (action, rest) = text_of(alloc, ender, bytes)?;
    if moves(&action) {
        return Err(RecordFault::Wrong {
            part: Part::Field,
            left: rest.len() + 1,
        });
    }
    Ok((action, rest))
}

/// An action of a move at the front, and the bytes behind the space that ends it.
pub(crate) fn move_of(alloc: Global, bytes: &[u8]) -> Result<(Text, &[u8]), RecordFault>
    ensures { Gives (λ x. x.0) (λ x. x.1.now) result (field_at Move 0x20 bytes.now) }
{
    let (action, rest) = word_of(&[MoveAction::Add, MoveAction::Delete], Part::Field, bytes)?;
    let text = match action {
        MoveAction::Add => Text::from_bytes(alloc, b"move/add")?,
        MoveAction::Delete => Text::from_bytes(alloc, b"move/delete")?,
    };
    Ok((text, rest))
}
