//! Commands that read the history of files: `files`, `print`, `fstat`, `filelog`, `integrated` and `dirs`.
//!
//! Each makes a `Step` without deeds from the tables alone that it names. Its cost follows the files that its arguments
//! name.
#![tactic(auto)]

mod choosing;
mod crediting;
mod dir_rows;
mod directories;
mod integrating;
mod leaping;
mod listing;
mod logging;
mod printing;
mod stating;
mod telling;
mod texts;

pub use dir_rows::dirs;
pub use integrating::integrated;
pub use listing::files;
pub use logging::filelog;
pub use printing::print;
pub use stating::file_stat;
