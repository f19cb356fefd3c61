//! Paths that are printed as they are kept.

ghost use Rattle.std.specs.Prelude.{◌≡◌, true, IsTrue, Ok};
ghost use Rattle.depot_path.specs.Path.{is_plain_after as plain_after_test, are_plain_components as components_test, is_plain_path as plain_path_test, is_path as path_test, path_of, printed};

use crate::component::{after_slashes, begins_with_slashes};

/// Whether a byte of a plain path may stand behind another one.
fn is_plain_after(before: u8, byte: u8) -> bool
    ensures { result ≡ plain_after_test before byte }
{
    match byte {
        b'@' | b'#' | b'*' | b'%' => false,
        b'/' => before != b'/',
        b'.' => before != b'/' && before != b'.',
        _ => byte >= 0x20 && byte <= 0x7E,
    }
}

/// Whether what stands behind two slashes is two plain components or more. It looks at each byte once.
fn are_plain_components(text: &[u8]) -> bool
    ensures { result ≡ components_test text.now }
{
    let mut before = b'/';
    let mut parted = false;
    for byte in text {
        if !is_plain_after(before, *byte) {
            return false;
        }
        before = *byte;
        parted = parted || before == b'/';
    }
    parted && before != b'/'
}

/// Whether a text is a plain path: of printing ASCII bytes without escapes, no component of which begins with a dot or
/// has two in a row. Such a text is the path that it spells, and most paths are plain. It takes no memory.
pub fn is_plain_path(text: &[u8]) -> bool
    ensures value { result ≡ plain_path_test text.now }
    ensures read { IsTrue result → path_of text.now ≡ Ok text.now }
    ensures printed { IsTrue result → printed text.now ≡ text.now }
    ensures path { IsTrue result → path_test text.now ≡ true }
{
    if text.len() > 1024 {
        return false;
    }
    begins_with_slashes(text) && are_plain_components(after_slashes(text))
}
