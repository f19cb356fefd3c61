//! The escapes of the bytes that mean something else in a file specification.

ghost use Rattle.std.specs.Prelude.{◌≡◌, ◌++◌, length, IfOk, OnOk};
ghost use Rattle.depot_path.specs.Path.{escape_at, escaped, has_bad_escape, printed};

use crate::text::Text;
use std::alloc::{AllocError, Global};

/// The byte of the escape with which a text begins.
pub(crate) fn escape_at(text: &[u8]) -> Option<u8>
    ensures { result ≡ escape_at text.now }
{
    if text.starts_with(b"%40") {
        Some(b'@')
    } else if text.starts_with(b"%23") {
        Some(b'#')
    } else if text.starts_with(b"%2A") || text.starts_with(b"%2a") {
        Some(b'*')
    } else if text.starts_with(b"%25") {
        Some(b'%')
    } else {
        None
    }
}

pub(crate) fn has_bad_escape(text: &[u8]) -> bool
    ensures { result ≡ has_bad_escape text.now }
{
    let mut rest = text;
    while let [_, after @ ..] = rest {
        if rest.starts_with(b"%") && escape_at(rest).is_none() {
            return true;
        }
        rest = after;
    }
    false
}

/// How many bytes a byte has as it is printed.
pub(crate) fn escape_length(byte: u8) -> usize
    ensures { result ≡ length (escaped byte) }
{
    match byte {
        b'@' | b'#' | b'*' | b'%' => 3,
        _ => 1,
    }
}

fn push_printed(text: &mut Vec<u8>, byte: u8) -> Result<(), AllocError>
    ensures { OnOk result (text.new.items ≡ text.old.items ++ escaped byte) }
{
    match byte {
        b'@' => text.extend_from_slice(b"%40"),
        b'#' => text.extend_from_slice(b"%23"),
        b'*' => text.extend_from_slice(b"%2A"),
        b'%' => text.extend_from_slice(b"%25"),
        _ => {
            text.push(byte)?;
            Ok(())
        }
    }
}

/// The bytes as they are printed, with escapes, whether or not they are a path (Command-Line Reference, File
/// Specifications). It fails only where memory is wanted.
pub fn print_bytes(alloc: Global, path: &[u8]) -> Result<Text, AllocError>
    ensures { IfOk result (λ text. text ≡ printed path.now) }
{
    let mut text = Vec::with_capacity(alloc, path.len())?;
    for byte in path {
        push_printed(&mut text, *byte)?;
    }
    Ok(Text::from_vec(text))
}
