//! Texts, names and lists, which the values of every layer are made of; depot paths, the patterns that select them, and
//! file specifications.
//!
//! Each of these types is seen by contracts as a plain list, so that a definition speaks of bytes
//! and lists alone, and two values are compared by `≡`.
#![tactic(auto)]

mod component;
mod date;
mod digits;
mod escape;
mod fault;
mod file_spec;
mod filling;
mod fit;
mod name;
mod order;
mod path;
mod pattern;
mod piece;
mod plain;
mod revision;
mod sequence;
mod text;
mod utf8;

pub use digits::{are_digits, is_digits, number_up_to, value_up_to};
pub use escape::print_bytes;
pub use fault::PathFault;
pub use file_spec::FileSpec;
pub use name::{Name, NameFault, is_name};
pub use path::{ClientPath, DepotPath, is_path};
pub use pattern::{Pattern, texts_come_first};
pub use piece::Piece;
pub use plain::is_plain_path;
pub use revision::{RevSpec, Wanted};
pub use sequence::Sequence;
pub use text::Text;
pub use utf8::{Tail, is_utf8};
