//! Why an attempt of a command to get its place came to nothing.
ghost use Rattle.std.specs.Prelude.{◌≡◌};
ghost use Rattle.shared_depot.specs.declared.unplaced.Unplaced.TheVariants as unplaced;

use std::alloc::AllocError;

/// Why an attempt came to nothing.
#[derive(Clone, Copy)]
pub(crate) enum Unplaced {
    /// A table was changed since it was looked at.
    Overtaken,
    /// No memory was left.
    Memory,
}

impl From<AllocError> for Unplaced {
    ghost from_gives = { λ _ e. e ≡ unplaced.Memory };

    fn from(_error: AllocError) -> Unplaced {
        Unplaced::Memory
    }
}
