//! The files that an argument names, from the rows of the tables.
//!
//! A [`Listing`] is a list of files as a table has it, as those that a client has. An [`Asker`] says which of them an
//! argument names, and [`candidates`] looks up the files that an argument without wildcards may name. For another one
//! it walks over the rows alone whose paths begin with one of the texts with which the files begin that the argument
//! may name. [`ListedFiles`], [`ShownFiles`], [`HeadFiles`], [`ChosenFiles`], [`SelectedFiles`] and [`OpenedAnywhere`]
//! are the sets of files over which commands go.
#![tactic(auto)]

mod anywhere;
mod asker;
mod beginning;
mod choosing;
mod chosen_files;
mod front;
mod head_files;
mod head_rows;
mod listed_files;
mod listing;
mod looked_up;
mod made_files;
mod selected_files;
mod shown_files;
mod spelling;

pub use anywhere::OpenedAnywhere;
pub use asker::Asker;
pub use choosing::{all_files, begun_candidates, candidates};
pub use chosen_files::ChosenFiles;
pub use head_files::HeadFiles;
pub use head_rows::HeadedFiles;
pub use listed_files::ListedFiles;
pub use listing::Listing;
pub use selected_files::SelectedFiles;
pub use shown_files::ShownFiles;
pub use spelling::spelled_path;
