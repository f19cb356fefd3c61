//! Why a text is no path, pattern or file specification.

ghost use Rattle.std.specs.Prelude.{◌≡◌};
ghost use Rattle.depot_path.specs.Fault.{code_of};

/// Why a text is no path, pattern or file specification.
#[derive(Clone, Copy, PartialEq, Eq)]
pub enum PathFault {
    /// It doesn't begin with `//`.
    NoSlashes,
    /// A component is empty, or a path has fewer than two.
    EmptyPart,
    /// A `%` begins none of the escapes.
    BadEscape,
    /// A byte that no path holds: `@`, `#`, `*` without an escape, a control byte, or no UTF-8.
    BadByte,
    /// More than 1,024 bytes.
    TooLong,
    /// A component is `.` or `..`, or that of a path holds `...`.
    Dots,
    /// No form of a revision, or a number above 2,147,483,647.
    BadRevision,
    /// The ends of a range aren't allowed there, or differ in kind.
    BadRange,
    /// A date's shape, and no date.
    BadDate,
    /// No memory for it.
    Memory,
}

impl PathFault {
    /// The number by which a reply names the fault, from 1; 0 for want of memory, which no reply names.
    pub fn code(self) -> u8
        ensures { result ≡ code_of self }
    {
        match self {
            PathFault::NoSlashes => 1,
            PathFault::EmptyPart => 2,
            PathFault::BadEscape => 3,
            PathFault::BadByte => 4,
            PathFault::TooLong => 5,
            PathFault::Dots => 6,
            PathFault::BadRevision => 7,
            PathFault::BadRange => 8,
            PathFault::BadDate => 9,
            PathFault::Memory => 0,
        }
    }
}
