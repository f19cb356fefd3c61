//! What the readers of paths and patterns ask of a text and its components.

ghost use Rattle.std.specs.Prelude.{◌≡◌, ◌==◌, drop, length, nat_lt, count_by};
ghost use Rattle.std.specs.List.{list_any};
ghost use Rattle.depot_path.specs.Bytes.{is_control};
ghost use Rattle.depot_path.specs.Path.{components, begins_with_slashes, has_empty_component, has_dot_component, has_three_dots, is_text};

use crate::utf8::is_utf8;

pub(crate) fn begins_with_slashes(text: &[u8]) -> bool
    ensures { result ≡ begins_with_slashes text.now }
{
    text.starts_with(b"//")
}

/// What follows the two slashes.
pub(crate) fn after_slashes(text: &[u8]) -> &[u8]
    ensures { result.now ≡ drop 2 text.now }
{
    text.get(2..).unwrap_or(&[])
}

fn count_slashes(text: &[u8]) -> usize
    ensures { result ≡ count_by (λ b. b == 0x2F) text.now }
{
    text.iter().filter(|byte| **byte == b'/').count()
}

/// One component alone, which is the name of a depot.
pub(crate) fn has_one_component(text: &[u8]) -> bool
    ensures { result ≡ nat_lt (length (components text.now)) 2 }
{
    count_slashes(after_slashes(text)) == 0
}

pub(crate) fn has_empty_component(text: &[u8]) -> bool
    ensures { result ≡ has_empty_component text.now }
{
    after_slashes(text)
        .split(|byte| *byte == b'/')
        .any(|part| part.is_empty())
}

pub(crate) fn has_dot_component(text: &[u8]) -> bool
    ensures { result ≡ has_dot_component text.now }
{
    after_slashes(text)
        .split(|byte| *byte == b'/')
        .any(|part| part == b".".as_slice() || part == b"..".as_slice())
}

pub(crate) fn has_three_dots(text: &[u8]) -> bool
    ensures { result ≡ has_three_dots text.now }
{
    let mut rest = text;
    while let [_, after @ ..] = rest {
        if rest.starts_with(b"...") {
            return true;
        }
        rest = after;
    }
    false
}

fn is_control_byte(byte: u8) -> bool
    ensures { result ≡ is_control byte }
{
    byte < 0x20 || byte == 0x7F
}

fn has_control_byte(text: &[u8]) -> bool
    ensures { result ≡ list_any is_control text.now }
{
    text.iter().any(|byte| is_control_byte(*byte))
}

/// UTF-8 without control bytes.
pub(crate) fn is_text(text: &[u8]) -> bool
    ensures { result ≡ is_text text.now }
{
    is_utf8(text) && !has_control_byte(text)
}
