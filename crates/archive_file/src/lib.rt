//! The contents of revisions in one file of a disk, each at its spot, and their digests.
//!
//! [`Archive`] has the file. What brings contents of an archive, which may stand elsewhere, is a
//! [`Contents`]: an archive is one.
#![tactic(auto)]

mod archive;
mod contents;
mod digests;
mod in_memory;

pub use archive::{Archive, ContentFault};
pub use contents::{Contents, ContentsFault, MOST_BYTES};
pub use digests::{digest, digest_on_disk};
pub use in_memory::MemoryContents;
