//! Patterns, which select files by their paths.

ghost use Rattle.std.specs.Prelude.{◌≡◌, ◌≤◌, ◌+◌, ◌==◌, ◌&&◌, ℕ, List, drop, length, codes, true, Some, IfOk, OnErr};
ghost use Rattle.std.specs.List.{list_any};
ghost use Rattle.depot_path.specs.Answers.{Answers};
ghost use Rattle.depot_path.specs.Bytes.{is_among, begins_with};
ghost use Rattle.depot_path.specs.Fit.{fits, texts, filled, AreTexts, IsFilling};
ghost use Rattle.depot_path.specs.Path.{printed};
ghost use Rattle.depot_path.specs.declared.piece.Piece.{Piece};
ghost use Rattle.depot_path.specs.Pattern.{place_at as place_in, piece_at as piece_in, more_bytes, pieces as pieces_in, has_bad_percent as bad_percent, pattern_fault as fault_in, pattern_of, literal};

use crate::component::{begins_with_slashes, has_dot_component, has_empty_component, is_text};
use crate::escape::{escape_at, print_bytes};
use crate::fault::PathFault;
use crate::filling::{fill, texts_for};
use crate::fit::fits;
use crate::path::DepotPath;
use crate::piece::Piece;
use crate::sequence::Sequence;
use crate::text::Text;
use std::alloc::{AllocError, Global};
use std::marker::Model;

/// A pattern of paths, as of a file specification or of a side of a view line.
#[derive(Clone, PartialEq, Eq)]
pub struct Pattern {
    pieces: Sequence<Piece>,
}

impl Drop for Pattern {
    fn drop(self) {
        let Pattern { pieces: _ } = self;
    }
}

impl Model for Pattern {
    ghost use Rattle.std.specs.Prelude.{◌≤◌, List, length};
    ghost use Rattle.depot_path.specs.declared.piece.Piece.{Piece};

    ghost Value = { List Piece };

    ghost view = { λ pattern. pattern.pieces };

    ghost inverse = { λ pieces. record { pieces = pieces } };

    ghost invariant = { λ pattern. length pattern.pieces ≤ 1024 };
}

/// The k of a `%%k` with which a text begins, where these are read.
fn place_at(text: &[u8], positional: bool) -> Option<u8>
    ensures { result ≡ place_in positional text.now }
{
    match text {
        [first, second, digit, ..] => {
            if positional && *first == b'%' && *second == b'%' && *digit >= b'1' && *digit <= b'9' {
                Some(*digit - b'0')
            } else {
                None
            }
        }
        _ => None,
    }
}

/// The piece with which a text begins, whose first byte is given too.
fn piece_at(text: &[u8], first: u8, positional: bool) -> Piece
    ensures { result ≡ piece_in positional text.now first }
{
    if text.starts_with(b"...") {
        return Piece::Dots;
    }
    if first == b'*' {
        return Piece::Star;
    }
    match place_at(text, positional) {
        Some(place) => Piece::Place(place),
        None => Piece::Byte(escape_at(text).unwrap_or(first)),
    }
}

/// How many bytes the piece with which a text begins has after its first.
fn bytes_after_first(text: &[u8], positional: bool) -> usize
    ensures value { result ≡ more_bytes positional text.now }
    ensures small { result ≤ 2 }
{
    if text.starts_with(b"...")
        || place_at(text, positional).is_some()
        || escape_at(text).is_some()
    {
        2
    } else {
        0
    }
}

/// What follows the piece with which a text begins.
fn after_piece(text: &[u8], positional: bool) -> &[u8]
    ensures { result.now ≡ drop (more_bytes positional text.now + 1) text.now }
{
    text.get(bytes_after_first(text, positional) + 1..)
        .unwrap_or(&[])
}

/// Whether a text begins with a `%`, its first byte, that begins no escape and no `%%k`.
fn begins_bad(text: &[u8], first: u8, positional: bool) -> bool
    ensures { result ≡ ((first == 0x25) && (more_bytes positional text.now == 0)) }
{
    first == b'%' && bytes_after_first(text, positional) == 0
}

#[tactic(auto, using(crate::proofs::Spelling::bad_percent_step, crate::proofs::Spelling::bad_percent_here))]
fn has_bad_percent(text: &[u8], positional: bool) -> bool
    ensures { result ≡ bad_percent positional 0 text.now }
{
    let mut rest = text;
    while let [first, ..] = rest {
        if begins_bad(rest, *first, positional) {
            return true;
        }
        rest = after_piece(rest, positional);
    }
    false
}

fn has_barred_byte(text: &[u8]) -> bool
    ensures { result ≡ list_any (is_among (codes "@#")) text.now }
{
    text.iter().any(|byte| matches!(*byte, b'@' | b'#'))
}

/// Why a text is no pattern.
fn pattern_fault(text: &[u8], positional: bool) -> Option<PathFault>
    ensures { result ≡ fault_in positional text.now }
{
    if text.len() > 1024 {
        Some(PathFault::TooLong)
    } else if !begins_with_slashes(text) {
        Some(PathFault::NoSlashes)
    } else if has_empty_component(text) {
        Some(PathFault::EmptyPart)
    } else if has_bad_percent(text, positional) {
        Some(PathFault::BadEscape)
    } else if has_barred_byte(text) || !is_text(text) {
        Some(PathFault::BadByte)
    } else if has_dot_component(text) {
        Some(PathFault::Dots)
    } else {
        None
    }
}

/// The pieces that a text spells.
fn read_pieces(alloc: Global, text: &[u8], positional: bool) -> Result<Sequence<Piece>, AllocError>
    ensures { IfOk result (λ pieces. pieces ≡ pieces_in positional 0 text.now) }
{
    let mut pieces = Vec::new(alloc);
    let mut rest = text;
    while let [first, ..] = rest {
        pieces.push(piece_at(rest, *first, positional))?;
        rest = after_piece(rest, positional);
    }
    Ok(Sequence::from_vec(pieces))
}

/// The bytes before the first specifier.
fn literal_bytes(alloc: Global, pieces: &[Piece]) -> Result<Text, AllocError>
    ensures { IfOk result (λ bytes. bytes ≡ literal pieces.now) }
{
    let mut bytes = Vec::new(alloc);
    for piece in pieces {
        match piece {
            Piece::Byte(byte) => bytes.push(*byte)?,
            _ => break,
        }
    }
    Ok(Text::from_vec(bytes))
}

impl Pattern {
    /// Reads a pattern as it is written, with `%%1` to `%%9` where `positional` is true. Of several faults it answers
    /// that which stands first in this order: `TooLong`, `NoSlashes`, `EmptyPart`, `BadEscape`, `BadByte`, `Dots`.
    pub fn read(alloc: Global, text: &[u8], positional: bool) -> Result<Self, PathFault>
        ensures { Answers PathFault.Memory result (pattern_of positional text.now) }
    {
        if let Some(fault) = pattern_fault(text, positional) {
            return Err(fault);
        }
        match read_pieces(alloc, text, positional) {
            Ok(pieces) => Ok(Pattern { pieces }),
            Err(_) => Err(PathFault::Memory),
        }
    }

    /// The pieces.
    pub fn pieces(&self) -> &[Piece]
        ensures { result.now ≡ self.now }
    {
        self.pieces.as_slice()
    }

    /// Whether the path fits. It takes no memory, and its cost is at most the product of the two lengths; where the
    /// pattern begins with literal text, a path that differs there is refused at the first byte that differs.
    pub fn matches(&self, path: &DepotPath) -> bool
        ensures { result ≡ fits self.now path.now }
    {
        fits(self.pieces.as_slice(), path.as_bytes())
    }

    /// The texts for which the specifiers stand in a text without escapes, in their order; None where it doesn't fit.
    /// The leftmost specifier takes the shortest text that lets the rest fit. The cost is at most the product of the
    /// two lengths. A text that doesn't fit takes no memory.
    pub fn texts(&self, alloc: Global, text: &[u8]) -> Result<Option<Sequence<Text>>, AllocError>
        ensures value { IfOk result (λ found. found ≡ texts self.now text.now) }
        ensures memory { OnErr result (fits self.now text.now ≡ true) }
    {
        texts_for(alloc, self.pieces.as_slice(), text)
    }

    /// The pattern with its specifiers replaced by texts, in order, as bytes without escapes. A specifier for which no
    /// text is left stands for nothing, and texts beyond the last specifier are left out.
    pub fn filled(&self, alloc: Global, texts: &[Text]) -> Result<Text, AllocError>
        ensures { IfOk result (λ text. text ≡ filled self.now texts.now) }
    {
        fill(alloc, self.pieces.as_slice(), texts)
    }

    /// The text with which every path that fits begins as it is printed: what stands before the first specifier. In
    /// path order the paths that begin so stand together, from this text on.
    pub fn beginning(&self, alloc: Global) -> Result<Text, AllocError>
        ensures value { IfOk result (λ text. text ≡ printed (literal self.now)) }
        ensures every { (path : List ℕ) → fits self.now path ≡ true →
            begins_with (printed path) (printed (literal self.now)) ≡ true }
    {
        let bytes = literal_bytes(alloc, self.pieces.as_slice())?;
        print_bytes(alloc, bytes.as_bytes())
    }
}

/// The texts that a pattern's specifiers stand for are exactly those whose lengths come first, compared from the left,
/// and there are some wherever a text fits.
pub fn texts_come_first()
    ensures first { (p : List Piece) (t : List ℕ) (ts : List (List ℕ)) → texts p t ≡ Some ts → AreTexts p t ts }
    ensures only { (p : List Piece) (t : List ℕ) (ts : List (List ℕ)) → AreTexts p t ts → texts p t ≡ Some ts }
    ensures every { (p : List Piece) (t : List ℕ) (us : List (List ℕ)) → IsFilling p t us →
        (ts : List (List ℕ)) × (texts p t ≡ Some ts) }
{}
