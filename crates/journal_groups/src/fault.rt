//! Why no group begins at a place.

ghost use Rattle.std.specs.Prelude.{◌≡◌};
ghost use Rattle.journal_groups.specs.declared.fault.GroupFault.TheVariants.{Memory};

use std::alloc::AllocError;

/// Why bytes begin with nothing that is wanted. A place counts bytes from the text's begin.
#[derive(Clone, Copy, PartialEq, Eq)]
pub enum GroupFault {
    /// At this place stands the first byte that can't go on.
    BadGroup(u64),
    /// The bytes end at this place, before what is wanted does.
    Short(u64),
    /// There was no memory for the group.
    Memory,
}

impl From<AllocError> for GroupFault {
    ghost from_gives = { λ _ fault. fault ≡ Memory };

    fn from(_error: AllocError) -> GroupFault {
        GroupFault::Memory
    }
}
