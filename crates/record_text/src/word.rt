//! One of a few words at the front.

ghost use Rattle.std.specs.Prelude.{◌≡◌, ◌≤◌, List, ℕ, length, IfSome};
ghost use Rattle.record_text.specs.Words.{first_word, common, reach, word_at};
ghost use Rattle.record_text.specs.Answers.{Gives};

use crate::fault::{Part, RecordFault};

/// A value that stands in a record's text as a word of its own.
pub(crate) trait Word: Copy {
    ghost text: { Self → List ℕ };

    /// The word with the byte that ends it.
    fn text(&self) -> &'static [u8]
        ensures { result.now ≡ text self.now };
}

/// The first of the values with whose word the bytes begin.
fn first_of<W: Word>(words: &[W], bytes: &[u8]) -> Option<W>
    ensures value { result ≡ first_word W.text words.now bytes.now }
    ensures within { IfSome result (λ word. length (W.text word) ≤ length bytes.now) }
{
    for word in words {
        if bytes.starts_with(word.text()) {
            return Some(*word);
        }
    }
    None
}

/// How many bytes the two have in common at their fronts.
pub fn common_front(text: &[u8], bytes: &[u8]) -> usize
    ensures { result ≡ common text.now bytes.now }
{
    let mut count = 0;
    while count < text.len() && count < bytes.len() && text[count] == bytes[count] {
        count += 1;
    }
    count
}

/// How many bytes at the front are those of some word.
fn reach_of<W: Word>(words: &[W], bytes: &[u8]) -> usize
    ensures { result ≡ reach W.text words.now bytes.now }
{
    let mut going = 0;
    for word in words {
        let front = common_front(word.text(), bytes);
        if going <= front {
            going = front;
        }
    }
    going
}

/// The word at the front, and the bytes behind it.
pub(crate) fn word_of<'a, W: Word>(
    words: &[W],
    part: Part,
    bytes: &'a [u8],
) -> Result<(W, &'a [u8]), RecordFault>
    ensures { Gives (λ x. x.0) (λ x. x.1.now) result (word_at W.text words.now part bytes.now) }
{
    match first_of(words, bytes) {
        Some(word) => {
            let (_, rest) = bytes.split_at(word.text().len());
            Ok((word, rest))
        }
        None => {
            let going = reach_of(words, bytes);
            if bytes.len() <= going {
                Err(RecordFault::Cut)
            } else {
                Err(RecordFault::Wrong {
                    part,
                    left: bytes.len() - going,
                })
            }
        }
    }
}
