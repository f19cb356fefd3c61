//! The calls that a disk in memory was asked, as it keeps them.

/// What a call did to the disk.
#[derive(Drop)]
pub(crate) enum Call {
    /// Nothing: a length, a read, or a sync that failed.
    Look,
    /// A write of these bytes.
    Write { file: u32, at: u64, piece: Vec<u8> },
    /// A write of so many bytes that failed: a read gives what it gave before, and a stop may leave any bytes there.
    BrokenWrite { file: u32, at: u64, count: u64 },
    /// A cut to a length.
    Cut { file: u32, length: u64 },
    /// A cut that failed: a read gives what it gave before, and a stop may leave a shorter file.
    BrokenCut { file: u32, length: u64 },
    /// A sync.
    Sync,
}
