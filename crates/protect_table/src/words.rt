//! The words of a line.

ghost use Rattle.std.specs.Prelude.{◌≡◌, ◌∷◌, [], ◌≤◌, ◌<◌, length, drop, take, IfOk, IfSome, IfNone, false};
ghost use Rattle.protect_table.specs.Words.{words_of, parts_words as parting, quoted_after as quoting, is_comment as comment_test, word_length as length_of_word, without_spaces as spaceless};

use depot_path::{Sequence, Text};
use std::alloc::{AllocError, Global};

/// Whether the byte parts words, in quotes or outside them.
fn parts_words(quoted: bool, byte: u8) -> bool
    ensures { result ≡ parting quoted byte }
{
    byte == b' ' && !quoted
}

/// Whether what follows the byte stands in quotes.
fn quoted_after(quoted: bool, byte: u8) -> bool
    ensures { result ≡ quoting quoted byte }
{
    if byte == b'"' { !quoted } else { quoted }
}

/// How many bytes the word has with which a text begins.
#[tactic(auto, using(crate::proofs::WordLemmas::length_here, crate::proofs::WordLemmas::length_more, crate::proofs::WordLemmas::length_end))]
fn word_length(text: &[u8]) -> usize
    ensures value { result ≡ length_of_word false text.now }
    ensures within { result ≤ length text.now }
{
    let mut quoted = false;
    for i in 0..text.len() {
        if parts_words(quoted, text[i]) {
            return i;
        }
        quoted = quoted_after(quoted, text[i]);
    }
    text.len()
}

/// The text without the spaces at its beginning.
fn without_spaces(text: &[u8]) -> &[u8]
    ensures value { result.now ≡ spaceless text.now }
    ensures within { length result.now ≤ length text.now }
{
    let mut rest = text;
    while let [b' ', after @ ..] = rest {
        rest = after;
    }
    rest
}

fn is_comment(word: &[u8]) -> bool
    ensures { result ≡ comment_test word.now }
{
    word.starts_with(b"##")
}

/// The first word of a text and what follows it, unless nothing or a comment is left.
#[tactic(auto, using(crate::proofs::WordLemmas::found_none, crate::proofs::WordLemmas::found_comment, crate::proofs::WordLemmas::found_word))]
fn next_word(text: &[u8]) -> Option<(&[u8], &[u8])>
    ensures none { IfNone result (words_of text.now ≡ []) }
    ensures some { IfSome result (λ found. words_of text.now ≡ found.0.now ∷ words_of found.1.now) }
    ensures shorter { IfSome result (λ found. length found.1.now < length text.now) }
{
    let rest = without_spaces(text);
    let end = word_length(rest);
    let word = &rest[..end];
    if word.is_empty() {
        return None;
    }
    if is_comment(word) {
        return None;
    }
    Some((word, &rest[end..]))
}

/// The words of a line of the protections table, before its comment: five in a line that is one. A word in double quotes may hold spaces, and
/// keeps its quotes.
pub fn line_words(alloc: Global, line: &[u8]) -> Result<Sequence<Text>, AllocError>
    ensures { IfOk result (λ words. words ≡ words_of line.now) }
{
    let mut words = Sequence::new(alloc);
    let mut rest = line;
    while let Some((word, after)) = next_word(rest) {
        words.push(Text::from_bytes(alloc, word)?)?;
        rest = after;
    }
    Ok(words)
}
