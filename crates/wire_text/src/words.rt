//! The words of a command line.

ghost use Rattle.std.specs.Prelude.{◌≡◌, ◌≤◌, ◌<◌, ◌∷◌, ◌++◌, length, drop, IfOk, OnOk, IfSome, IfNone, Some, None};
ghost use Rattle.std.specs.Option.{option_copied, option_to_list};
ghost use Rattle.std.specs.List.{list_any};
ghost use Rattle.depot_model.specs.depot_path.Bytes.{is_control};
ghost use Rattle.wire_text.specs.Parts.{upto, past};
ghost use Rattle.wire_text.specs.Words.{words_from, with_maybe, plain_word as plain, quoted_word as quoted, is_apart as apart_test, is_clean as clean_test, line_of};

use crate::parts::cut_at;
use depot_model::Line;
use depot_model::paths::{Sequence, Text, is_utf8};
use std::alloc::{AllocError, Global};

/// The most words of a command line.
pub const MAX_WORDS: usize = 64;

fn is_control_byte(byte: u8) -> bool
    ensures { result ≡ is_control byte }
{
    byte < 0x20 || byte == 0x7F
}

fn has_control_byte(line: &[u8]) -> bool
    ensures { result ≡ list_any is_control line.now }
{
    line.iter().any(|byte| is_control_byte(*byte))
}

/// UTF-8 without control bytes.
fn is_clean(line: &[u8]) -> bool
    ensures { result ≡ clean_test line.now }
{
    is_utf8(line) && !has_control_byte(line)
}

/// Whether a text that stands behind a word begins with a space, or is empty.
fn is_apart(text: &[u8]) -> bool
    ensures { result ≡ apart_test text.now }
{
    match text {
        [] => true,
        [first, ..] => *first == b' ',
    }
}

/// The word that ends before the next quote, and what stands behind that.
fn quoted_word(text: &[u8]) -> Option<(&[u8], &[u8])>
    ensures word { IfSome result (λ cut. quoted text.now ≡ Some cut.0.now) }
    ensures behind { IfSome result (λ cut. cut.1.now ≡ past 0x22 text.now) }
    ensures shorter { IfSome result (λ cut. length cut.1.now < length text.now) }
    ensures none { IfNone result (quoted text.now ≡ None) }
{
    match cut_at(b'"', text) {
        Some((word, behind)) => {
            if is_apart(behind) {
                Some((word, behind))
            } else {
                None
            }
        }
        None => None,
    }
}

/// What stands before the first space.
fn upto_space(text: &[u8]) -> &[u8]
    ensures word { result.now ≡ upto 0x20 text.now }
    ensures fits { length result.now ≤ length text.now }
{
    match cut_at(b' ', text) {
        Some((word, _)) => word,
        None => text,
    }
}

/// The word that ends before the next space, and what stands behind it.
fn plain_word(text: &[u8]) -> Option<(&[u8], &[u8])>
    ensures word { IfSome result (λ cut. plain text.now ≡ Some cut.0.now) }
    ensures behind { IfSome result (λ cut. cut.1.now ≡ drop (length (upto 0x20 text.now)) text.now) }
    ensures none { IfNone result (plain text.now ≡ None) }
{
    let word = upto_space(text);
    match cut_at(b'"', word) {
        Some(_) => None,
        None => Some((word, &text[word.len()..])),
    }
}

/// The word with which a text begins, where one does, and what stands behind the word or the first byte. It answers
/// none where neither a space nor a word begins the text.
fn word_at<'a>(first: u8, text: &'a [u8], after: &'a [u8]) -> Option<(Option<&'a [u8]>, &'a [u8])>
    requires { text.now ≡ first ∷ after.now }
    ensures word { IfSome result (λ cut. words_from 0 text.now ≡ with_maybe (option_copied cut.0) (words_from 0 cut.1.now)) }
    ensures shorter { IfSome result (λ cut. length cut.1.now < length text.now) }
    ensures none { IfNone result (words_from 0 text.now ≡ None) }
{
    if first == b' ' {
        return Some((None, after));
    }
    if first == b'"' {
        return match quoted_word(after) {
            Some((word, behind)) => Some((Some(word), behind)),
            None => None,
        };
    }
    match plain_word(text) {
        Some((word, behind)) => Some((Some(word), behind)),
        None => None,
    }
}

fn push_word(
    words: &mut Sequence<Text>,
    alloc: Global,
    word: Option<&[u8]>,
) -> Result<(), AllocError>
    ensures { OnOk result (words.new ≡ words.old ++ option_to_list (option_copied word.entry)) }
{
    if let Some(word) = word {
        words.push(Text::from_bytes(alloc, word)?)?;
    }
    Ok(())
}

/// The words of a text, if it is a list of words.
fn words(alloc: Global, line: &[u8]) -> Result<Option<Sequence<Text>>, AllocError>
    ensures { IfOk result (λ words. words ≡ words_from 0 line.now) }
{
    let mut words = Sequence::new(alloc);
    let mut rest = line;
    while let [first, after @ ..] = rest {
        match word_at(*first, rest, after) {
            Some((word, behind)) => {
                push_word(&mut words, alloc, word)?;
                rest = behind;
            }
            None => return Ok(None),
        }
    }
    Ok(Some(words))
}

/// What a command line is read as.
pub(crate) fn read_words(alloc: Global, line: &[u8]) -> Result<Line, AllocError>
    ensures { IfOk result (λ words. words ≡ line_of line.now) }
{
    if !is_clean(line) {
        return Ok(Line::Bad);
    }
    match words(alloc, line)? {
        Some(words) => {
            if words.len() <= MAX_WORDS {
                Ok(Line::Words(words))
            } else {
                Ok(Line::Bad)
            }
        }
        None => Ok(Line::Bad),
    }
}
