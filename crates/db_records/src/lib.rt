//! The rows of a depot's tables, and the keys that order them.
//!
//! A depot is kept in eleven tables (Helix Core database schema reference, "Tables"). A row is a
//! [`Record`] of its table, and no two rows of a table have one [`Key`].
#![tactic(auto)]

mod change;
mod fields;
mod key;
mod lines;
mod record;
mod rows;
mod table;

pub use change::{Change, Op, Spot};
pub use key::{Key, keys_have_one_order};
pub use lines::line_text;
pub use record::Record;
pub use rows::{
    ChangeRecord, CounterRecord, DomainRecord, GroupRecord, HaveRecord, IntegedRecord, LabelRecord,
    ProtectRecord, ResolveRecord, RevRecord, WorkingRecord,
};
pub use table::TableId;

// What stands below, for the crates above.
pub use depot_path as paths;
