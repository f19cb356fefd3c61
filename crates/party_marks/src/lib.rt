//! A list of marks that threads share, of which each party knows its own.
//!
//! The list is an order of `order_words`: it exists in contracts alone, and takes no memory. The
//! seat of the order lies behind a lock ([`Marks`]): who holds that lock knows the whole list, and
//! may tie it to what else lies there. Each party keeps the seat of its lane outside of the lock
//! ([`MarkPass`]): it knows a beginning of the list, which has all marks that the party made, so
//! that what it says of them is still known when all threads have ended.
#![tactic(auto)]

mod mark;
mod mark_pass;
mod marking;
mod marks;
mod words;

pub use mark::Mark;
pub use mark_pass::MarkPass;
pub use marking::Marking;
pub use marks::Marks;
pub use words::MarkWords;
