//! Where a view puts a file.

use depot_path::{ClientPath, DepotPath, Sequence};

/// Where a view puts a file.
#[derive(Drop)]
pub enum Mapped {
    /// Nowhere: the file has no client path.
    Nothing,
    /// At a client path.
    At {
        /// The client path.
        path: ClientPath,
        /// The files that later overlay lines put there too, that of the last line first.
        rivals: Sequence<DepotPath>,
    },
}
