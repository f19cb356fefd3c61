//! Names and hosts of lines, in which `*` stands for any text.

ghost use Rattle.std.specs.Prelude.{◌≡◌, ◌<◌, ◌≤◌, ℕ, List, [], ◌∷◌, length};
ghost use Rattle.std.specs.List.{list_any};
ghost use Rattle.protect_table.specs.Wildcard.{fits_word as word_fits, IsRow, with_place as place_step, at_end as end_step};

use depot_path::Name;

/// The most bytes of a name, and one more.
const ROW: usize = 129;

/// Whether a word that begins with a byte fits the text from a place on, whose byte is given, where it is known whether the rest of the word
/// fits from there (`here`) and from the next place (`below`), and whether the word fits from the next place (`next`).
fn with_place(byte: u8, place: u8, here: bool, below: bool, next: bool) -> bool
    ensures { result ≡ place_step byte place here below next }
{
    if byte == b'*' {
        here || next
    } else {
        byte == place && below
    }
}

/// Whether a word that begins with a byte fits the empty text, where it is known whether the rest of the word does.
fn at_end(byte: u8, here: bool) -> bool
    ensures { result ≡ end_step byte here }
{
    byte == b'*' && here
}

/// Makes the row of the empty word.
fn begin_row(text: &[u8], row: &mut [bool])
    requires room { length text.now < length row.old }
    ensures { IsRow [] text.now row.new }
{
    let mut at = text.len();
    row[at] = true;
    while at > 0 {
        at -= 1;
        row[at] = false;
    }
}

/// Makes the row of a word that begins with a byte from the row of what follows it.
fn add_byte(byte: u8, text: &[u8], row: &mut [bool])
    requires room { length text.now < length row.old }
    ensures { (word : List ℕ) → IsRow word text.now row.old → IsRow (byte ∷ word) text.now row.new }
{
    let mut at = text.len();
    let mut below = row[at];
    row[at] = at_end(byte, below);
    while at > 0 {
        at -= 1;
        let here = row[at];
        row[at] = with_place(byte, text[at], here, below, row[at + 1]);
        below = here;
    }
}

/// Whether the text fits, from the word's last byte to its first: a row says for each place of the text whether what has been passed of the
/// word fits from there on.
fn fits_by_rows(word: &[u8], text: &[u8]) -> bool
    requires short { length text.now ≤ 128 }
    ensures { result ≡ word_fits word.now text.now }
{
    let mut row = [false; ROW];
    begin_row(text, &mut row);
    let mut at = word.len();
    while at > 0 {
        at -= 1;
        add_byte(word[at], text, &mut row);
    }
    row[0]
}

/// Whether the text, as short as a name, fits the word. It takes no memory, and a word without `*` costs one comparison.
#[tactic(auto, using(crate::proofs::Places::passes, crate::proofs::Places::differs, crate::proofs::Places::ends, crate::proofs::Places::any_text))]
pub(crate) fn fits_word(word: &[u8], text: &[u8]) -> bool
    requires short { length text.now ≤ 128 }
    ensures { result ≡ word_fits word.now text.now }
{
    let mut rest = word;
    let mut left = text;
    while let [first, rest_after @ ..] = rest {
        if *first == b'*' {
            return rest.len() == 1 || fits_by_rows(rest, left);
        }
        match left {
            [byte, left_after @ ..] if *byte == *first => {
                rest = rest_after;
                left = left_after;
            }
            _ => return false,
        }
    }
    left.is_empty()
}

/// Whether the name fits the word.
pub(crate) fn fits_name(word: &[u8], name: &Name) -> bool
    ensures { result ≡ word_fits word.now name.now }
{
    fits_word(word, name.as_bytes())
}

/// Whether one of the names fits the word.
pub(crate) fn fits_some_name(word: &[u8], names: &[Name]) -> bool
    ensures { result ≡ list_any (word_fits word.now) names.now }
{
    names.iter().any(|name| fits_name(word, name))
}
