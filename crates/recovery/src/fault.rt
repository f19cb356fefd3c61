//! Why the files of a depot can't be made or opened.

ghost use Rattle.std.specs.Prelude.{◌≡◌};
ghost use Rattle.recovery.specs.Faults.{unread_as};
ghost use Rattle.recovery.specs.declared.fault.MakeFault.TheVariants as make_faults;
ghost use Rattle.recovery.specs.declared.fault.OpenFault.TheVariants as open_faults;

use archive_file::ContentFault;
use outside_api::{DiskFault, Failed};
use std::alloc::AllocError;

/// Why no files were made.
#[derive(Clone, Copy, PartialEq, Eq)]
pub enum MakeFault {
    /// There are files already: the root isn't empty.
    Made,
    /// A disk has failed.
    DiskFault,
}

/// A disk of a depot.
#[derive(Clone, Copy, PartialEq, Eq)]
pub enum DepotDisk {
    /// That of the root, the checkpoints and the journals.
    Journal,
    /// That of the contents.
    Archive,
}

/// Why files weren't opened.
#[derive(Clone, Copy, PartialEq, Eq)]
pub enum OpenFault {
    /// There are no files: the root is empty.
    Unmade,
    /// The files hold no rows. The place counts bytes of the file from 0.
    Damaged {
        disk: DepotDisk,
        file: u32,
        place: u64,
    },
    /// A disk has failed.
    DiskFault,
    /// There was no memory for the rows.
    Memory,
}

impl From<Failed> for MakeFault {
    ghost from_gives = { λ _ fault. fault ≡ make_faults.DiskFault };

    fn from(_: Failed) -> MakeFault {
        MakeFault::DiskFault
    }
}

impl From<DiskFault> for MakeFault {
    ghost from_gives = { λ _ fault. fault ≡ make_faults.DiskFault };

    fn from(_: DiskFault) -> MakeFault {
        MakeFault::DiskFault
    }
}

impl From<Failed> for OpenFault {
    ghost from_gives = { λ _ fault. fault ≡ open_faults.DiskFault };

    fn from(_: Failed) -> OpenFault {
        OpenFault::DiskFault
    }
}

impl From<ContentFault> for OpenFault {
    ghost from_gives = { λ content fault. fault ≡ unread_as content };

    fn from(fault: ContentFault) -> OpenFault {
        match fault {
            ContentFault::DiskFault => OpenFault::DiskFault,
            ContentFault::Memory => OpenFault::Memory,
        }
    }
}

impl From<AllocError> for OpenFault {
    ghost from_gives = { λ _ fault. fault ≡ open_faults.Memory };

    fn from(_: AllocError) -> OpenFault {
        OpenFault::Memory
    }
}
