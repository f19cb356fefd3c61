//! Whether a text fits a pattern.

ghost use Rattle.std.specs.Prelude.{◌≡◌, ◌≤◌, ◌<◌, ℕ, List, [], ◌∷◌, length};
ghost use Rattle.depot_path.specs.Fit.{fits as fit_test};
ghost use Rattle.depot_path.specs.Rows.{IsRow, with_byte as byte_step, without_byte as no_byte};

use crate::piece::Piece;

/// The most pieces of a pattern, and one more.
const ROW: usize = 1025;

/// Whether the pieces from one on fit the text from a byte on, given whether they fit what follows the byte (`here`),
/// and whether the pieces after that one fit what follows the byte (`below`) and the text from the byte on (`next`).
pub(crate) fn with_byte(piece: Piece, byte: u8, here: bool, below: bool, next: bool) -> bool
    ensures { result ≡ byte_step piece byte here below next }
{
    match piece {
        Piece::Byte(expected) => expected == byte && below,
        Piece::Dots => next || here,
        Piece::Star | Piece::Place(_) => next || (byte != b'/' && here),
    }
}

/// Whether the pieces from one on fit no text, given whether those after it do.
pub(crate) fn without_byte(piece: Piece, next: bool) -> bool
    ensures { result ≡ no_byte piece next }
{
    match piece {
        Piece::Byte(_) => false,
        _ => next,
    }
}

/// Makes the row of no text.
fn begin_row(pieces: &[Piece], row: &mut [bool])
    requires { length pieces.now < length row.old }
    ensures { IsRow pieces.now [] row.new }
{
    let mut at = pieces.len();
    row[at] = true;
    while at > 0 {
        at -= 1;
        row[at] = without_byte(pieces[at], row[at + 1]);
    }
}

/// Makes the row of a text that begins with a byte from the row of what follows it.
fn add_byte(pieces: &[Piece], row: &mut [bool], byte: u8)
    requires { length pieces.now < length row.old }
    ensures { (text : List ℕ) → IsRow pieces.now text row.old → IsRow pieces.now (byte ∷ text) row.new }
{
    let mut at = pieces.len();
    let mut below = row[at];
    row[at] = false;
    while at > 0 {
        at -= 1;
        let here = row[at];
        row[at] = with_byte(pieces[at], byte, here, below, row[at + 1]);
        below = here;
    }
}

/// Whether the text fits, from its last byte to its first: a row says for each place in the pattern whether what
/// follows there fits the part of the text that has been passed.
fn fits_by_rows(pieces: &[Piece], text: &[u8]) -> bool
    requires { length pieces.now ≤ 1024 }
    ensures { result ≡ fit_test pieces.now text.now }
{
    let mut row = [false; ROW];
    begin_row(pieces, &mut row);
    let mut at = text.len();
    while at > 0 {
        at -= 1;
        add_byte(pieces, &mut row, text[at]);
    }
    row[0]
}

/// Whether the text fits the pieces. It takes no memory.
pub(crate) fn fits(pieces: &[Piece], text: &[u8]) -> bool
    requires { length pieces.now ≤ 1024 }
    ensures { result ≡ fit_test pieces.now text.now }
{
    let mut pieces = pieces;
    let mut text = text;
    while let [Piece::Byte(expected), pieces_after @ ..] = pieces {
        match text {
            [byte, text_after @ ..] if *byte == *expected => {
                pieces = pieces_after;
                text = text_after;
            }
            _ => return false,
        }
    }
    if pieces.is_empty() {
        text.is_empty()
    } else {
        fits_by_rows(pieces, text)
    }
}
