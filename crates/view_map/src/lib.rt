//! Client views: which client path a file of the depot has, and which files a client path has.
//!
//! A view is read from its lines, as `//depot/main/... //ws1/main/...`. The last line that takes a file decides for it
//! (Command-Line Reference, "p4 client", "Views").
#![tactic(auto)]

mod beginnings;
mod carry;
mod fault;
mod laws;
mod line;
mod mapped;
mod specifiers;
mod view;

pub use fault::{ViewCause, ViewFault};
pub use laws::{
    client_paths_begin_with_root, later_lines_decide, lines_go_both_ways, one_file_without_overlays,
};
pub use line::{Sign, ViewLine};
pub use mapped::Mapped;
pub use specifiers::{Label, answering, same_specifiers};
pub use view::View;
