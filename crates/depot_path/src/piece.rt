//! The pieces of patterns.

/// A byte of a pattern, or a specifier in it.
#[derive(Clone, Copy, PartialEq, Eq)]
pub enum Piece {
    /// A byte that stands for itself.
    Byte(u8),
    /// `*`: any text without `/`.
    Star,
    /// `...`: any text.
    Dots,
    /// `%%1` to `%%9`, in views: any text without `/`.
    Place(u8),
}
