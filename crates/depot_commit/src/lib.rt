//! Giving commands their places in a depot in files, over its parts: the rows of its tables, its journal and
//! its archive.
//!
//! Before a command is answered the contents that it stores are in the archive and what it changes is
//! committed to the journal. One thread does so over a depot of its own, and many over parts that they lock.
#![tactic(auto)]

mod counting;
mod fetching;
mod imaging;
mod landing;
mod store;
mod storing;
mod telling;
mod unwritten;
mod writing;

pub use fetching::{fetch_texts, read_contents};
pub use imaging::Imaging;
pub use landing::{Landed, place};
pub use store::{NoArchive, Store};
pub use telling::{Told, tell, tell_reading};
pub use unwritten::place_unwritten;
