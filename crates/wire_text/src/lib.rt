//! What passes between a session and the server: the text of its script, and the text of the replies.
#![tactic(auto)]

mod blocks;
mod contents;
mod entry;
mod fault;
mod giving;
mod head;
mod intake;
mod line_kind;
mod lines;
mod part;
mod parts;
mod printing;
mod reader;
mod script;
mod words;

pub use entry::{Entry, Item};
pub use fault::{ScriptError, ScriptFault, ScriptFaultKind};
pub use giving::{GiveFault, give_all, give_memory};
pub use head::Head;
pub use intake::MAX_SCRIPT;
pub use line_kind::MAX_BLOCK;
pub use lines::MAX_LINE;
pub use printing::print_reply;
pub use reader::ScriptReader;
pub use script::{ReadScript, ScriptEnd, read_script};
pub use words::MAX_WORDS;
