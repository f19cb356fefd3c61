//! A journal of groups in the numbered files of a disk. A group counts once the mark before it is open.
//!
//! File 0 is the root: its leading bytes `e` count the generation. Generation g has its journal in
//! file 1 + 2g and its checkpoint in file 2 + 2g. A journal's text is marks `@ex@`, each with the
//! group that it opens, and then a mark with another byte, after which everything is ignored.
#![tactic(auto)]

mod fetch;
mod head;
mod journal;
mod make;
mod scanned;

pub use journal::{Journal, Prepared, Receipt};
pub use make::make_files;
pub use scanned::Scanned;
