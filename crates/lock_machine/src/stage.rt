//! How far a command is.

/// How far a command at hand is.
#[derive(Clone, Copy)]
pub enum Stage {
    /// It goes through its set.
    Gathering,
    /// It has the journal, and nothing that it saw was changed.
    Judged,
    /// It has its place.
    Committed,
}
