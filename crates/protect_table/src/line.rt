//! The lines of the protections table.

ghost use Rattle.std.specs.Prelude.{◌≡◌, Ok, Err, MatchResult};
ghost use Rattle.depot_path.specs.Answers.{Answers};
ghost use Rattle.protect_table.specs.Mode.{mode_of, grantee_of};
ghost use Rattle.protect_table.specs.Line.{read_word, required, name_of, has_quote as quote_test, unquoted, has_dash as dash_test, undashed, is_excluding as excluding_test, path_text as text_of_path, pattern_in, last_word as fifth_word, line_of_words, line_of};

use crate::fault::LineFault;
use crate::mode::{Grantee, Mode};
use crate::words::line_words;
use depot_path::{PathFault, Pattern, Text};
use std::alloc::Global;

/// A line of the protections table (Command-Line Reference, "p4 protect").
#[derive(Drop)]
pub struct ProtectLine {
    /// What it grants, or denies where it is an exclusion.
    pub mode: Mode,
    /// Whether it is for users or for groups.
    pub grantee: Grantee,
    /// The name of the user or group, with `*` for any text.
    pub name: Text,
    /// The host that the caller comes from, with `*` for any text.
    pub host: Text,
    /// Whether it is an exclusion, whose path begins with `-`.
    pub excludes: bool,
    /// Which files it is about.
    pub path: Pattern,
}

fn read_mode(words: &[Text]) -> Result<Mode, LineFault>
    ensures { result ≡ read_word mode_of LineFault.BadMode words.now 0 }
{
    match words.first() {
        Some(word) => Mode::from_word(word.as_bytes()).ok_or(LineFault::BadMode),
        None => Err(LineFault::BadMode),
    }
}

fn read_grantee(words: &[Text]) -> Result<Grantee, LineFault>
    ensures { result ≡ read_word grantee_of LineFault.BadGrantee words.now 1 }
{
    match words.get(1) {
        Some(word) => Grantee::from_word(word.as_bytes()).ok_or(LineFault::BadGrantee),
        None => Err(LineFault::BadGrantee),
    }
}

fn has_quote(word: &[u8]) -> bool
    ensures { result ≡ quote_test word.now }
{
    word.iter().any(|byte| *byte == b'"')
}

/// The name or host that a word is.
fn copy_name(alloc: Global, word: &[u8]) -> Result<Text, LineFault>
    ensures { Answers LineFault.Memory result (required LineFault.BadGrantee (name_of word.now)) }
{
    if has_quote(word) {
        return Err(LineFault::BadGrantee);
    }
    match Text::from_bytes(alloc, word) {
        Ok(name) => Ok(name),
        Err(_) => Err(LineFault::Memory),
    }
}

fn read_name(alloc: Global, words: &[Text], at: usize) -> Result<Text, LineFault>
    ensures { Answers LineFault.Memory result (read_word name_of LineFault.BadGrantee words.now at) }
{
    match words.get(at) {
        Some(word) => copy_name(alloc, word.as_bytes()),
        None => Err(LineFault::BadGrantee),
    }
}

/// The fifth word, which is to be the last.
fn last_word(words: &[Text]) -> Result<&[u8], LineFault>
    ensures { MatchResult result (λ word. fifth_word words.now ≡ Ok word.now) (λ fault. fifth_word words.now ≡ Err fault) }
{
    if words.len() > 5 {
        return Err(LineFault::BadPath);
    }
    match words.get(4) {
        Some(word) => Ok(word.as_bytes()),
        None => Err(LineFault::BadPath),
    }
}

fn without_quotes(word: &[u8]) -> &[u8]
    ensures { result.now ≡ unquoted word.now }
{
    match word {
        [b'"', inner @ .., b'"'] => inner,
        _ => word,
    }
}

fn has_dash(word: &[u8]) -> bool
    ensures { result ≡ dash_test word.now }
{
    word.starts_with(b"-")
}

fn without_dash(word: &[u8]) -> &[u8]
    ensures { result.now ≡ undashed word.now }
{
    if has_dash(word) { &word[1..] } else { word }
}

fn is_excluding(word: &[u8]) -> bool
    ensures { result ≡ excluding_test word.now }
{
    has_dash(word) || has_dash(without_quotes(word))
}

/// The text of the pattern in a path's word.
fn path_text(word: &[u8]) -> &[u8]
    ensures { result.now ≡ text_of_path word.now }
{
    if has_dash(word) {
        without_quotes(without_dash(word))
    } else {
        without_dash(without_quotes(word))
    }
}

fn read_pattern(alloc: Global, word: &[u8]) -> Result<Pattern, LineFault>
    ensures { Answers LineFault.Memory result (pattern_in word.now) }
{
    let text = path_text(word);
    if has_quote(text) {
        return Err(LineFault::BadPath);
    }
    match Pattern::read(alloc, text, false) {
        Ok(path) => Ok(path),
        Err(PathFault::Memory) => Err(LineFault::Memory),
        Err(_) => Err(LineFault::BadPath),
    }
}

/// The line that words spell.
#[tactic(auto, using(depot_path::proofs::Answers::right, depot_path::proofs::Answers::after, depot_path::proofs::Answers::fails))]
fn read_words(alloc: Global, words: &[Text]) -> Result<ProtectLine, LineFault>
    ensures { Answers LineFault.Memory result (line_of_words words.now) }
{
    let mode = read_mode(words)?;
    let grantee = read_grantee(words)?;
    let name = read_name(alloc, words, 2)?;
    let host = read_name(alloc, words, 3)?;
    let word = last_word(words)?;
    let path = read_pattern(alloc, word)?;
    Ok(ProtectLine {
        mode,
        grantee,
        name,
        host,
        excludes: is_excluding(word),
        path,
    })
}

impl ProtectLine {
    /// Reads a line. Of several faults it answers that of the first word that is missing or bad.
    pub fn read(alloc: Global, text: &[u8]) -> Result<Self, LineFault>
        ensures { Answers LineFault.Memory result (line_of text.now) }
    {
        match line_words(alloc, text) {
            Ok(words) => read_words(alloc, words.as_slice()),
            Err(_) => Err(LineFault::Memory),
        }
    }
}
