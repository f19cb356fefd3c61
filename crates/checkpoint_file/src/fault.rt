//! Why no generation is begun.

ghost use Rattle.std.specs.Prelude.{◌≡◌};
ghost use Rattle.checkpoint_file.specs.declared.fault.CheckpointFault.TheVariants as faults;

use outside_api::DiskFault as Fault;

/// Why no generation is begun.
#[derive(Clone, Copy, PartialEq, Eq)]
pub enum CheckpointFault {
    /// The files are of generation 4,095, the last that a root can tell.
    NoGeneration,
    /// The disk has failed.
    DiskFault,
}

impl From<Fault> for CheckpointFault {
    ghost from_gives = { λ _ fault. fault ≡ faults.DiskFault };

    fn from(_: Fault) -> CheckpointFault {
        CheckpointFault::DiskFault
    }
}
