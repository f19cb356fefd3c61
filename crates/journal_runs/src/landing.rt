//! How a commit ended.

/// How the commit of some changes ended.
#[derive(Clone, Copy, Drop, PartialEq, Eq)]
pub enum Landing {
    /// The group is on the disk.
    Landed,
    /// The disk failed. The group isn't committed, and it may be in doubt until the next commit settles it.
    Faulted,
    /// There was no memory for the group's text, and no call of the disk.
    NoMemory,
}
