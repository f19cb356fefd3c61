//! File types: `text` or `binary`, with the modifiers `x`, `w`, `l` and `F`.

ghost use Rattle.std.specs.Prelude.{◌≡◌, ◌==◌, ◌&&◌, ◌<◌, ◌≤◌, codes, count_by, filter, length, not, position, IfOk, IfSome};
ghost use Rattle.std.specs.List.{list_all, prefix_len};
ghost use Rattle.db_records.specs.depot_path.Bytes.{is_among};
ghost use Rattle.depot_model.specs.Types as spec;

use db_records::paths::Text;
use std::alloc::{AllocError, Global};

/// The modifiers, in the order in which they are printed.
const MODIFIERS: &[u8; 4] = b"xwlF";

fn plus_in(text: &[u8]) -> Option<usize>
    ensures value { result ≡ position (λ b. b == 43) text.now }
    ensures within { IfSome result (λ plus. plus < length text.now) }
{
    text.iter().position(|byte| *byte == b'+')
}

/// How many bytes stand before the first `+`.
#[tactic(auto, using(crate::proofs::TypeBases::found, crate::proofs::TypeBases::whole))]
fn base_len(text: &[u8]) -> usize
    ensures value { result ≡ prefix_len (λ b. not (b == 43)) text.now }
    ensures within { result ≤ length text.now }
{
    match plus_in(text) {
        Some(plus) => plus,
        None => text.len(),
    }
}

/// What stands before the first `+`.
fn base_type(text: &[u8]) -> &[u8]
    ensures { result.now ≡ spec.base_type text.now }
{
    &text[..base_len(text)]
}

/// What stands behind the first `+`.
fn modifiers(text: &[u8]) -> &[u8]
    ensures { result.now ≡ spec.modifiers text.now }
{
    text.get(base_type(text).len() + 1..).unwrap_or(&[])
}

fn is_modifier(byte: u8) -> bool
    ensures { result ≡ is_among (codes "xwlF") byte }
{
    matches!(byte, b'x' | b'w' | b'l' | b'F')
}

/// How often a byte stands in a text.
fn times(text: &[u8], byte: u8) -> usize
    ensures { result ≡ count_by (λ b. b == byte) text.now }
{
    text.iter().filter(|b| **b == byte).count()
}

/// Whether a byte is a modifier that stands once among the letters.
fn is_one_modifier(letters: &[u8], byte: u8) -> bool
    ensures { result ≡ (is_among (codes "xwlF") byte && (count_by (λ b. b == byte) letters.now == 1)) }
{
    is_modifier(byte) && times(letters, byte) == 1
}

fn are_all_modifiers(letters: &[u8]) -> bool
    ensures { result ≡ list_all (λ b. is_among (codes "xwlF") b && (count_by (λ c. c == b) letters.now == 1)) letters.now }
{
    letters.iter().all(|byte| is_one_modifier(letters, *byte))
}

/// Whether these are one modifier or more, each once.
fn are_modifiers(letters: &[u8]) -> bool
    ensures { result ≡ spec.are_modifiers letters.now }
{
    !letters.is_empty() && are_all_modifiers(letters)
}

/// Whether a word is a file type.
pub fn is_file_type(text: &[u8]) -> bool
    ensures { result ≡ spec.is_type text.now }
{
    let base = base_type(text);
    (base == b"text".as_slice() || base == b"binary".as_slice())
        && (text == base || are_modifiers(modifiers(text)))
}

fn has(text: &[u8], byte: u8) -> bool
    ensures { result ≡ is_among text.now byte }
{
    text.iter().any(|b| *b == byte)
}

/// Those modifiers that are among the letters, in the order in which they are printed.
fn ordered(alloc: Global, letters: &[u8]) -> Result<Text, AllocError>
    ensures { IfOk result (λ text. text ≡ filter (λ b. is_among letters.now b) (codes "xwlF")) }
{
    let mut text = Vec::new(alloc);
    for modifier in MODIFIERS {
        if has(letters, *modifier) {
            text.push(*modifier)?;
        }
    }
    Ok(Text::from_vec(text))
}

/// The file type as it is printed, with its modifiers in order. The one error is want of memory.
pub fn printed_type(alloc: Global, text: &[u8]) -> Result<Text, AllocError>
    ensures { IfOk result (λ printed. printed ≡ spec.printed_type text.now) }
{
    let base = base_type(text);
    if text == base {
        return Text::from_bytes(alloc, text);
    }
    let mut printed = Text::from_bytes(alloc, base)?;
    printed.append(b"+")?;
    printed.append(ordered(alloc, modifiers(text))?.as_bytes())?;
    Ok(printed)
}

/// Whether a text is a file type as it is printed. The one error is want of memory.
pub fn is_printed_type(alloc: Global, text: &[u8]) -> Result<bool, AllocError>
    ensures { IfOk result (λ is. is ≡ spec.is_printed_type text.now) }
{
    let printed = printed_type(alloc, text)?;
    Ok(is_file_type(text) && printed.as_bytes() == text)
}
