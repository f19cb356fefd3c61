//! Why a replica takes nothing.

ghost use Rattle.std.specs.Prelude.{◌≡◌};
ghost use Rattle.replica_pull.specs.declared.fault.PullFault.TheVariants as faults;

use outside_api::Failed;
use std::alloc::AllocError;

/// Why a replica took nothing of its master's journal. It stays as it was.
#[derive(Clone, Copy, PartialEq, Eq)]
pub enum PullFault {
    /// The link has failed.
    LinkFault,
    /// At this place of the generation's text, in bytes from 0, stands the first byte from which no group
    /// goes on, or the first record that doesn't fit.
    BadFeed(u64),
    /// The last generation that there can be is closed.
    NoGeneration,
    /// There was no memory.
    Memory,
}

impl From<Failed> for PullFault {
    ghost from_gives = { λ _ fault. fault ≡ faults.LinkFault };

    fn from(_: Failed) -> PullFault {
        PullFault::LinkFault
    }
}

impl From<AllocError> for PullFault {
    ghost from_gives = { λ _ fault. fault ≡ faults.Memory };

    fn from(_: AllocError) -> PullFault {
        PullFault::Memory
    }
}
