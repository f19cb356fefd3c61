//! A party of a run.

use crate::work::Work;
use depot_rows::model::LockId;

/// A party of a run.
#[derive(Drop)]
pub struct Party {
    /// The commands that it hasn't begun, the next one last.
    pub(crate) left: Vec<Work>,
    /// The command at hand.
    pub(crate) work: Option<Work>,
}

/// For what a party waits.
#[derive(Clone, Copy)]
pub enum Wait {
    /// It has nothing more to do.
    Never,
    /// Nothing.
    Now,
    /// This lock.
    For(LockId),
}
