//! Why lines are no protections table.

/// What is wrong with a line.
#[derive(Clone, Copy, PartialEq, Eq)]
pub enum LineFault {
    /// It doesn't begin with a mode.
    BadMode,
    /// What follows isn't `user` or `group` with a name and a host, each without a double quote.
    BadGrantee,
    /// What follows isn't one pattern, or more follows it.
    BadPath,
    /// No memory for it.
    Memory,
}

/// Which line is wrong, and why.
#[derive(Clone, Copy, PartialEq, Eq)]
pub struct ProtectFault {
    /// What is wrong.
    pub what: LineFault,
    /// The line's number, from 1; 0 for want of memory.
    pub line: usize,
}
