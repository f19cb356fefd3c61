//! Making the files of a depot, and opening them.
#![tactic(auto)]

mod contents;
mod depot;
mod fault;
mod make;
mod open;
mod pieces;
mod puts;
mod root;
mod rows;
mod rules;
mod spots;

pub use fault::{DepotDisk, MakeFault, OpenFault};
pub use make::make_files;
pub use open::{NotOpened, Opened, open_files};
pub use rows::make_fitting;
