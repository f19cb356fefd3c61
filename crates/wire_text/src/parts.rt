//! Parts of a line.

ghost use Rattle.std.specs.Prelude.{◌≡◌, ◌<◌, [], length, true, false, IfSome, IfNone, Some, None};
ghost use Rattle.wire_text.specs.Parts.{upto, past, is_in, IsFree, last_cut};

use memchr::{memchr, memrchr};
use std::alloc::{AllocError, Global};

/// What stands before and behind the first separator, if there is one.
pub(crate) fn cut_at(separator: u8, text: &[u8]) -> Option<(&[u8], &[u8])>
    ensures before { IfSome result (λ cut. cut.0.now ≡ upto separator text.now) }
    ensures behind { IfSome result (λ cut. cut.1.now ≡ past separator text.now) }
    ensures shorter { IfSome result (λ cut. length cut.1.now < length text.now) }
    ensures fits { IfSome result (λ cut. length cut.0.now < length text.now) }
    ensures found { IfSome result (λ cut. is_in separator text.now ≡ true) }
    ensures none { IfNone result (is_in separator text.now ≡ false) }
    ensures whole { IfNone result (upto separator text.now ≡ text.now) }
    ensures nothing { IfNone result (past separator text.now ≡ []) }
    ensures free { IfNone result (IsFree separator text.now) }
{
    match memchr(separator, text) {
        Some(at) => Some((&text[..at], &text[at + 1..])),
        None => None,
    }
}

/// What stands before and behind the last separator, if there is one.
pub(crate) fn cut_at_last(separator: u8, text: &[u8]) -> Option<(&[u8], &[u8])>
    ensures cut { IfSome result (λ cut. last_cut separator text.now ≡ Some (record { before = cut.0.now; behind = cut.1.now })) }
    ensures none { IfNone result (last_cut separator text.now ≡ None) }
{
    match memrchr(separator, text) {
        Some(at) => Some((&text[..at], &text[at + 1..])),
        None => None,
    }
}
