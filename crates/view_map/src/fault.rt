//! Why lines are no view.

/// What is wrong with a view.
#[derive(Clone, Copy, PartialEq, Eq)]
pub enum ViewCause {
    /// The line isn't an optional sign and two patterns with spaces between.
    BadLine,
    /// The two sides of the line have different specifiers.
    UnequalSpecifiers,
    /// There are more than 200 lines.
    TooManyLines,
    /// The client side doesn't begin with the client's name.
    WrongRoot,
    /// No memory for it.
    Memory,
}

/// What is wrong with a view, and in which line.
#[derive(Clone, Copy, PartialEq, Eq)]
pub struct ViewFault {
    /// What is wrong.
    pub what: ViewCause,
    /// The line's number, from 1: 201 where there are too many; 0 for want of memory.
    pub line: usize,
}
