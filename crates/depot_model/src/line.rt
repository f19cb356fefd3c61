//! A command line, cut into words.

use db_records::paths::{Sequence, Text};

/// A command line of a script.
#[derive(Drop)]
pub enum Line {
    /// The words, in order.
    Words(Sequence<Text>),
    /// A line that is no list of at most 64 words of UTF-8 without control bytes.
    Bad,
}
