//! Why no checkpoint is taken.

ghost use Rattle.std.specs.Prelude.{◌≡◌};
ghost use Rattle.depot_checkpoint.specs.declared.fault.TakingFault.TheVariants as faults;

use std::alloc::AllocError;

/// Why no checkpoint is taken.
#[derive(Clone, Copy, PartialEq, Eq)]
pub enum TakingFault {
    /// The disk has failed.
    DiskFault,
    /// There was no memory, and no call of the disk was made.
    Memory,
}

impl From<AllocError> for TakingFault {
    ghost from_gives = { λ _ fault. fault ≡ faults.Memory };

    fn from(_: AllocError) -> TakingFault {
        TakingFault::Memory
    }
}
