//! Depot paths.

ghost use Rattle.std.specs.Prelude.{◌≡◌, true, drop, length, nat_le, if◌then◌else◌, IfOk, codes};
ghost use Rattle.std.specs.List.{list_any};
ghost use Rattle.depot_path.specs.Bytes.{is_among};
ghost use Rattle.depot_path.specs.Answers.{Answers};
ghost use Rattle.depot_path.specs.Path.{path_fault as fault_in, path_of, printed, further_bytes, unescaped, is_path as path_test};

use crate::component::{
    begins_with_slashes, has_dot_component, has_empty_component, has_one_component, has_three_dots,
    is_text,
};
use crate::escape::{escape_at, escape_length, has_bad_escape, print_bytes};
use crate::fault::PathFault;
use crate::plain::is_plain_path;
use crate::text::Text;
use std::alloc::{AllocError, Global};
use std::marker::Model;

/// The path of a file in a depot, or in a client workspace where its first component is a client's name.
///
/// It is written with escapes and kept without them, and has two or more components and at most 1,024 bytes as it is
/// written.
#[derive(Clone)]
pub struct DepotPath {
    bytes: Text,
}

impl Drop for DepotPath {
    fn drop(self) {
        let DepotPath { bytes: _ } = self;
    }
}

/// The path of a file in a client workspace: its first component is the client's name.
pub type ClientPath = DepotPath;

impl Model for DepotPath {
    ghost use Rattle.std.specs.Prelude.{◌≡◌, List, ℕ, true};
    ghost use Rattle.depot_path.specs.Path.{is_path};

    ghost Value = { List ℕ };

    ghost view = { λ path. path.bytes };

    ghost invariant = { λ path. is_path path.bytes ≡ true };
}

fn has_barred_byte(text: &[u8]) -> bool
    ensures { result ≡ list_any (is_among (codes "@#*")) text.now }
{
    text.iter().any(|byte| matches!(*byte, b'@' | b'#' | b'*'))
}

/// Why a text is no path.
fn path_fault(text: &[u8]) -> Option<PathFault>
    ensures { result ≡ fault_in text.now }
{
    if text.len() > 1024 {
        Some(PathFault::TooLong)
    } else if !begins_with_slashes(text) {
        Some(PathFault::NoSlashes)
    } else if has_one_component(text) || has_empty_component(text) {
        Some(PathFault::EmptyPart)
    } else if has_bad_escape(text) {
        Some(PathFault::BadEscape)
    } else if has_barred_byte(text) || !is_text(text) {
        Some(PathFault::BadByte)
    } else if has_dot_component(text) || has_three_dots(text) {
        Some(PathFault::Dots)
    } else {
        None
    }
}

/// What follows the first byte that a text spells.
fn after_escape<'a>(text: &[u8], after: &'a [u8]) -> &'a [u8]
    ensures { result.now ≡ drop (further_bytes text.now) after.now }
{
    if escape_at(text).is_none() {
        after
    } else {
        after.get(2..).unwrap_or(&[])
    }
}

/// The bytes that a text spells.
#[tactic(auto, using(crate::proofs::Spelling::unescaped_on))]
fn unescape(alloc: Global, text: &[u8]) -> Result<Text, AllocError>
    ensures { IfOk result (λ bytes. bytes ≡ unescaped 0 text.now) }
{
    let mut bytes = Vec::new(alloc);
    let mut rest = text;
    while let [first, after @ ..] = rest {
        bytes.push(escape_at(rest).unwrap_or(*first))?;
        rest = after_escape(rest, after);
    }
    Ok(Text::from_vec(bytes))
}

fn is_short_as_printed(path: &[u8]) -> bool
    ensures { result ≡ nat_le (length (printed path.now)) 1024 }
{
    let mut room: usize = 1024;
    for byte in path {
        let taken = escape_length(*byte);
        if taken > room {
            return false;
        }
        room -= taken;
    }
    true
}

/// Whether bytes without escapes are a path. It takes no memory.
pub fn is_path(bytes: &[u8]) -> bool
    ensures { result ≡ path_test bytes.now }
{
    if is_plain_path(bytes) {
        return true;
    }
    is_short_as_printed(bytes)
        && begins_with_slashes(bytes)
        && !has_one_component(bytes)
        && !has_empty_component(bytes)
        && is_text(bytes)
        && !has_dot_component(bytes)
        && !has_three_dots(bytes)
}

impl DepotPath {
    /// Reads a path as it is written. Of several faults it answers that which stands first in this order: `TooLong`,
    /// `NoSlashes`, `EmptyPart`, `BadEscape`, `BadByte`, `Dots`.
    pub fn read(alloc: Global, text: &[u8]) -> Result<Self, PathFault>
        ensures { Answers PathFault.Memory result (path_of text.now) }
    {
        if is_plain_path(text) {
            let Ok(bytes) = Text::from_bytes(alloc, text) else {
                return Err(PathFault::Memory);
            };
            return Ok(DepotPath { bytes });
        }
        if let Some(fault) = path_fault(text) {
            return Err(fault);
        }
        match unescape(alloc, text) {
            Ok(bytes) => Ok(DepotPath { bytes }),
            Err(_) => Err(PathFault::Memory),
        }
    }

    /// The path of these bytes, which have no escapes, if they are one's. It takes no memory.
    pub fn from_text(bytes: Text) -> Option<Self>
        ensures { result ≡ (if path_test bytes then Some bytes else None) }
    {
        if is_path(bytes.as_bytes()) {
            Some(DepotPath { bytes })
        } else {
            None
        }
    }

    /// The path as it is written, with escapes. Reading it gives the path.
    pub fn print(&self, alloc: Global) -> Result<Text, AllocError>
        ensures printed { IfOk result (λ text. text ≡ printed self.now) }
        ensures read_again { path_of (printed self.now) ≡ Ok self.now }
    {
        print_bytes(alloc, self.bytes.as_bytes())
    }

    /// The bytes without escapes, which are a path.
    pub fn as_bytes(&self) -> &[u8]
        ensures value { result.now ≡ self.now }
        ensures path { path_test result.now ≡ true }
    {
        self.bytes.as_bytes()
    }
}
