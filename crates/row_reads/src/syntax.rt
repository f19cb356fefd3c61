//! Arguments in client syntax.

ghost use Rattle.std.specs.Prelude.{◌≡◌, ◌∷◌, ℕ, List, [], false, None, IfSome};
ghost use Rattle.depot_rows.specs.depot_model.Arguments.{begins_with_name as name_begins, in_client_syntax as in_syntax_of};

use depot_rows::paths::{Name, Pattern, Piece};

/// The pieces after a byte, where they begin with it.
fn after_byte(first: u8, pieces: &[Piece]) -> Option<&[Piece]>
    ensures some { IfSome result (λ later. (name : List ℕ) →
        name_begins (first ∷ name) pieces.now ≡ name_begins name later.now) }
    ensures none { result ≡ None → (name : List ℕ) → name_begins (first ∷ name) pieces.now ≡ false }
{
    match pieces {
        [Piece::Byte(byte), later @ ..] => { if first == *byte { Some(later) } else { None } }
        _ => None,
    }
}

/// Whether pieces begin with `/`, or there are none.
fn is_end(pieces: &[Piece]) -> bool
    ensures { result ≡ name_begins [] pieces.now }
{
    match pieces {
        [] => true,
        [first, ..] => *first == Piece::Byte(b'/'),
    }
}

/// Whether a pattern begins with these bytes, and goes on with `/` or not at all.
fn begins_with_name(name: &[u8], pieces: &[Piece]) -> bool
    ensures { result ≡ name_begins name.now pieces.now }
{
    let mut name = name;
    let mut pieces = pieces;
    while let [first, after @ ..] = name {
        let Some(later) = after_byte(*first, pieces) else {
            return false;
        };
        pieces = later;
        name = after;
    }
    is_end(pieces)
}

/// Whether a pattern is in the syntax of a client: its first component is the client's name (Command-Line Reference,
/// "File specifications").
pub fn in_client_syntax(client: &Name, pattern: &Pattern) -> bool
    ensures { result ≡ in_syntax_of client.now pattern.now }
{
    let Some(pieces) = after_byte(b'/', pattern.pieces()) else {
        return false;
    };
    let Some(pieces) = after_byte(b'/', pieces) else {
        return false;
    };
    begins_with_name(client.as_bytes(), pieces)
}
