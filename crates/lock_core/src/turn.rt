//! What turns do.

use command_core::Outcome;

/// What a party's turn did.
#[derive(Drop)]
pub enum Turn {
    /// Nothing: its event isn't enabled.
    Idle,
    /// It took its event.
    Moved,
    /// Its command's commit is at hand, with this outcome; `finish` makes it.
    Ready(Outcome),
}

/// How a commit ends.
#[derive(Clone, Copy)]
pub enum Finish {
    /// What the command changes is committed.
    Done,
    /// A disk failed, and nothing is changed.
    Fault,
    /// There was no memory for it: it gets no place.
    NoMemory,
}
