//! What a step of a replica did.

/// What a replica took from its master in one step.
#[derive(Clone, Copy, PartialEq, Eq)]
pub enum Moved {
    /// There was nothing to take.
    Nothing,
    /// So many bytes of the master's journal, with so many changes in whole groups.
    Taken { bytes: u64, changes: u64 },
    /// The next generation begins.
    Next,
}
