//! The text of a row of a table, as it stands in journals and checkpoints.
//!
//! The text is `@OP@ VERSION @TABLE@`, a space and a field for each field, and a line feed. The operator is
//! `pv` for a row that is put, `rv` for one that replaces another, and `dv` for one that goes away. A
//! number is decimal without leading zeros; a text stands between `@` signs, with each `@` in it doubled. A
//! db.working or db.rev row whose action is `move/add` or `move/delete` has version 2 and one more last
//! field, the other file of the move; every other row has version 1.
#![tactic(auto)]

mod fault;
mod field;
mod laws;
mod layout;
mod number;
mod printing;
mod reading;
mod rows;
mod tables;
mod text;
mod word;

pub use fault::{Part, RecordFault};
pub use laws::records_have_one_spelling;
pub use number::number_of;
pub use printing::{append_record, print_record};
pub use reading::read_record;
pub use word::common_front;
