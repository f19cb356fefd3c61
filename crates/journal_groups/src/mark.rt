//! Marks, and the lines before the records of groups.

ghost use Rattle.record_text.specs.Answers.{Gives};
ghost use Rattle.journal_groups.specs.Reading.{exactly as exact_bytes, mark_at, head_at};

use itoa::Buffer;
use record_text::{Part, RecordFault, common_front, number_of};

/// What follows these bytes.
pub(crate) fn exactly<'a>(word: &[u8], bytes: &'a [u8]) -> Result<&'a [u8], RecordFault>
    ensures { Gives (λ x. tt) (λ x. x.now) result (exact_bytes word.now bytes.now) }
{
    if bytes.starts_with(word) {
        let (_, rest) = bytes.split_at(word.len());
        return Ok(rest);
    }
    let going = common_front(word, bytes);
    if bytes.len() <= going {
        return Err(RecordFault::Cut);
    }
    Err(RecordFault::Wrong {
        part: Part::Field,
        left: bytes.len() - going,
    })
}

/// Whether the mark at the front is open, and what follows it.
pub(crate) fn mark_of(bytes: &[u8]) -> Result<(bool, &[u8]), RecordFault>
    ensures { Gives (λ x. x.0) (λ x. x.1.now) result (mark_at bytes.now) }
{
    let rest = exactly(b"@", bytes)?;
    match rest {
        [] => Err(RecordFault::Cut),
        [byte, rest @ ..] => {
            let rest = exactly(b"x@\n", rest)?;
            Ok((*byte == b'e', rest))
        }
    }
}

/// How many bytes the records of the group of this number have, and what follows its head.
pub(crate) fn head_of(number: u64, bytes: &[u8]) -> Result<(u64, &[u8]), RecordFault>
    ensures { Gives (λ x. x.0) (λ x. x.1.now) result (head_at number bytes.now) }
{
    let rest = exactly(b"@nx@ ", bytes)?;
    let mut buffer = Buffer::new();
    let rest = exactly(buffer.format(number).as_bytes(), rest)?;
    let rest = exactly(b" ", rest)?;
    number_of(0, u64::MAX, b'\n', rest)
}
