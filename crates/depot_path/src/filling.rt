//! The texts for which the specifiers of a pattern stand, and what texts make of a pattern.

ghost use Rattle.std.specs.Prelude.{◌≡◌, ◌≤◌, ◌<◌, ◌+◌, ◌-◌, ◌∷◌, ◌++◌, true, Some, ℕ, List, [], length, take, drop, IfOk, OnOk, OnErr};
ghost use Rattle.depot_path.specs.Fit.{is_specifier as specifier_test, filled as filled_in, fits as fit_test, texts as texts_in};
ghost use Rattle.depot_path.specs.Filling.{IsColumn, AreColumns, IsFirst};
ghost use Rattle.depot_path.specs.declared.piece.Piece.{Piece};

use crate::fit::{fits, with_byte, without_byte};
use crate::piece::Piece;
use crate::sequence::Sequence;
use crate::text::Text;
use std::alloc::{AllocError, Global};

fn is_specifier(piece: Piece) -> bool
    ensures { result ≡ specifier_test piece }
{
    !matches!(piece, Piece::Byte(_))
}

/// The column of no pieces, which fit the end of the text alone. A column says for each place in a text whether some
/// pieces fit the text from there on.
fn begin_column(alloc: Global, text: &[u8]) -> Result<Vec<bool>, AllocError>
    ensures { IfOk result (λ column. IsColumn [] text.now column.items) }
{
    let mut column = vec![in alloc; false; text.len()]?;
    column.push(true)?;
    Ok(column)
}

/// Makes the column of the pieces that begin with one from the column of those after it.
fn add_piece(piece: Piece, text: &[u8], column: &mut [bool])
    requires { length column.old ≡ length text.now + 1 }
    ensures { (pieces : List Piece) → IsColumn pieces text.now column.old →
        IsColumn (piece ∷ pieces) text.now column.new }
{
    let mut at = text.len();
    let mut below = column[at];
    column[at] = without_byte(piece, below);
    while at > 0 {
        at -= 1;
        let next = column[at];
        column[at] = with_byte(piece, text[at], column[at + 1], below, next);
        below = next;
    }
}

/// Keeps the column of what follows a piece, if that is a specifier.
fn keep_column(
    alloc: Global,
    piece: Piece,
    column: &[bool],
    columns: &mut Vec<Sequence<bool>>,
) -> Result<(), AllocError>
    ensures { OnOk result ((pieces : List Piece) (text : List ℕ) → IsColumn pieces text column.now →
        AreColumns pieces text columns.old.items → AreColumns (piece ∷ pieces) text columns.new.items) }
{
    if is_specifier(piece) {
        columns.push(Sequence::from_vec(column.to_vec(alloc)?))?;
    }
    Ok(())
}

/// The columns of what follows each specifier, that of the last specifier first.
fn columns_of(
    alloc: Global,
    pieces: &[Piece],
    text: &[u8],
) -> Result<Vec<Sequence<bool>>, AllocError>
    ensures { IfOk result (λ columns. AreColumns pieces.now text.now columns.items) }
{
    let mut columns = Vec::new(alloc);
    let mut column = begin_column(alloc, text)?;
    let mut at = pieces.len();
    while at > 0 {
        at -= 1;
        keep_column(alloc, pieces[at], &column, &mut columns)?;
        add_piece(pieces[at], text, column.as_mut_slice());
    }
    Ok(columns)
}

/// The first place from one on where the pieces of a column fit, or else its last place.
fn first_fit(column: &[bool], from: usize) -> usize
    ensures { from < length column.now → IsFirst column.now from result }
{
    let mut at = from;
    while at < column.len().saturating_sub(1) && !column[at] {
        at += 1;
    }
    at
}

fn take_column(alloc: Global, columns: &mut Vec<Sequence<bool>>) -> Sequence<bool>
    ensures { 1 ≤ length columns.old.items → columns.old.items ≡ columns.new.items ++ result ∷ [] }
{
    columns.pop().unwrap_or(Sequence::new(alloc))
}

fn part(text: &[u8], from: usize, end: usize) -> &[u8]
    ensures { from ≤ end → end ≤ length text.now → result.now ≡ take (end - from) (drop from text.now) }
{
    text.get(from..end).unwrap_or(&[])
}

/// The texts for which the specifiers stand in a text that fits: each takes the shortest that lets the rest fit.
fn texts_by_columns(
    alloc: Global,
    pieces: &[Piece],
    text: &[u8],
    columns: Vec<Sequence<bool>>,
) -> Result<Sequence<Text>, AllocError>
    requires fit { fit_test pieces.now text.now ≡ true }
    requires columns { AreColumns pieces.now text.now columns.items }
    ensures { IfOk result (λ ts. Some ts ≡ texts_in pieces.now text.now) }
{
    let mut columns = columns;
    let mut texts = Vec::new(alloc);
    let mut at = 0;
    for piece in pieces {
        if is_specifier(*piece) {
            let column = take_column(alloc, &mut columns);
            let end = first_fit(column.as_slice(), at);
            texts.push(Text::from_bytes(alloc, part(text, at, end))?)?;
            at = end;
        } else {
            at += 1;
        }
    }
    Ok(Sequence::from_vec(texts))
}

/// How many bytes stand before the first specifier. What fits begins with them, and has its texts behind them.
fn literal_length(pieces: &[Piece]) -> usize
    ensures { (text : List ℕ) → fit_test pieces.now text ≡ true →
        texts_in (drop result pieces.now) (drop result text) ≡ texts_in pieces.now text }
{
    let mut count = 0;
    while count < pieces.len() && !is_specifier(pieces[count]) {
        count += 1;
    }
    count
}

/// The texts for which the specifiers stand in a text, if it fits. The cost is at most the product of the two lengths,
/// and what doesn't fit takes no memory.
pub(crate) fn texts_for(
    alloc: Global,
    pieces: &[Piece],
    text: &[u8],
) -> Result<Option<Sequence<Text>>, AllocError>
    requires { length pieces.now ≤ 1024 }
    ensures value { IfOk result (λ found. found ≡ texts_in pieces.now text.now) }
    ensures memory { OnErr result (fit_test pieces.now text.now ≡ true) }
{
    if !fits(pieces, text) {
        return Ok(None);
    }
    let first = literal_length(pieces);
    let pieces = pieces.get(first..).unwrap_or(&[]);
    let text = text.get(first..).unwrap_or(&[]);
    let columns = columns_of(alloc, pieces, text)?;
    Ok(Some(texts_by_columns(alloc, pieces, text, columns)?))
}

/// The pattern with its specifiers replaced by texts, in order; a specifier for which there is none left is left out.
pub(crate) fn fill(alloc: Global, pieces: &[Piece], texts: &[Text]) -> Result<Text, AllocError>
    ensures { IfOk result (λ whole. whole ≡ filled_in pieces.now texts.now) }
{
    let mut whole = Text::new(alloc);
    let mut rest = texts;
    for piece in pieces {
        if let Piece::Byte(byte) = piece {
            whole.append(&[*byte])?;
        } else if let [first, after @ ..] = rest {
            whole.append(first.as_bytes())?;
            rest = after;
        }
    }
    Ok(whole)
}
