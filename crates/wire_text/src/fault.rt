//! What may be wrong with a script.

ghost use Rattle.std.specs.Prelude.{◌≡◌};
ghost use Rattle.wire_text.specs.declared.fault.ScriptError.TheVariants.{Memory};

use std::alloc::AllocError;

/// What is wrong with a script.
#[derive(Clone, Copy, PartialEq, Eq)]
pub enum ScriptFaultKind {
    /// The first line is no head.
    BadHead,
    /// A line has too many bytes.
    LongLine,
    /// A line isn't of its form, or its block isn't followed by a line feed.
    BadData,
    /// The script ends inside a line or a block, or while an input waits for its command.
    Cut,
    /// A block or the script has too many bytes.
    LongData,
}

/// What is wrong with a script, and where.
#[derive(Clone, Copy, PartialEq, Eq)]
pub struct ScriptFault {
    /// What is wrong.
    pub what: ScriptFaultKind,
    /// The place of the first byte of the line concerned, from 0; of a script that is cut, its length.
    pub place: u64,
}

/// Why a script can't be read on.
#[derive(Clone, Copy, PartialEq, Eq)]
pub enum ScriptError {
    /// It isn't of the form of a script.
    Fault(ScriptFault),
    /// The source failed.
    ReadFault,
    /// There was no memory.
    Memory,
}

impl From<AllocError> for ScriptError {
    ghost from_gives = { λ _ error. error ≡ Memory };

    fn from(_: AllocError) -> Self {
        ScriptError::Memory
    }
}
