//! The fault of what stands on a disk.

use crate::stream::Failed;

/// The disk has failed: its count has risen in the call that answers this.
#[derive(Clone, Copy, PartialEq, Eq)]
pub struct DiskFault;

impl From<Failed> for DiskFault {
    fn from(_: Failed) -> Self {
        DiskFault
    }
}
