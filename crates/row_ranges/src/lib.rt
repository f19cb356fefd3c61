//! Rows by range: those of a table whose keys begin alike, as the records of one file, of one client or of one label.
//!
//! A [`KeyRange`] names such keys, and [`rows_in`] walks over the rows that have them, at the cost of these rows alone.
#![tactic(auto)]

mod range;
mod walk;

pub use range::KeyRange;
pub use walk::{RangeWalk, rows_in};
