//! The protections table: which rights a caller has at a path.
//!
//! A table is read from its lines, as `write user * * //depot/...`. The rights are six needs, from 1, list, to 6, super, and a caller is a
//! user with the groups that list it and the host that it comes from (Command-Line Reference, "p4 protect").
#![tactic(auto)]

mod fault;
mod laws;
mod line;
mod mode;
mod numbers;
mod protects;
mod said;
mod who;
mod wildcard;
mod words;

pub use fault::{LineFault, ProtectFault};
pub use laws::{
    levels_are_the_greatest, lower_needs_are_granted, other_lines_change_nothing,
    whole_exclusions_deny,
};
pub use line::ProtectLine;
pub use mode::{Grantee, Mode};
pub use protects::Protects;
pub use who::{Level, Who};
pub use words::line_words;
