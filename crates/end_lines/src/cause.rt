//! Why a run ends.

ghost use Rattle.std.specs.Prelude.{◌≡◌};
ghost use Rattle.end_lines.specs.Causes.{cause_by, status_of};

use recovery::{DepotDisk, OpenFault};

/// Why the program ends.
#[derive(Clone, Copy, PartialEq, Eq)]
pub enum Cause {
    /// All is done.
    Done,
    /// The words are those of no mode.
    Usage,
    /// Files are there already, where none were to be.
    Made,
    /// No files are there.
    Unmade,
    /// The files hold no rows: the first byte of a file from which on nothing stands is at this place, counted from 0.
    Damaged {
        disk: DepotDisk,
        file: u32,
        place: u64,
    },
    /// A script has a fault.
    Script,
    /// The outside has failed.
    Fault,
    /// There was no memory.
    Memory,
}

/// The status of a cause.
pub fn status_code(cause: Cause) -> u8
    ensures { result ≡ status_of cause }
{
    match cause {
        Cause::Done => 0,
        Cause::Usage => 1,
        Cause::Made | Cause::Unmade | Cause::Damaged { .. } => 2,
        Cause::Script => 3,
        Cause::Fault => 4,
        Cause::Memory => 5,
    }
}

/// The cause of an end whose files weren't opened.
pub fn cause_of_fault(fault: OpenFault) -> Cause
    ensures { result ≡ cause_by fault }
{
    match fault {
        OpenFault::Unmade => Cause::Unmade,
        OpenFault::Damaged { disk, file, place } => Cause::Damaged { disk, file, place },
        OpenFault::DiskFault => Cause::Fault,
        OpenFault::Memory => Cause::Memory,
    }
}
