//! The loop over the files that the arguments of a command name: by argument, and then by path, each file once.
//!
//! A [`FileSet`] says which files an argument names, and a [`FileAct`] what a command does with one of them; [`over`]
//! and [`over_all`] do the rest. A [`WalkAct`] goes on from what it read for the file before, by [`walk_over`] and
//! [`walk_over_all`]. Where arguments spell files, whether they are there or not, a [`FileFinder`] finds them for
//! [`over_found`]. A command whose files stand in each other's way takes them in turn, as a [`TurnAct`].
#![tactic(auto)]

mod acts;
mod finders;
mod limits;
mod loops;
mod missing;
mod paths;
mod sets;
mod spelled;
mod turns;

pub use acts::{FileAct, WalkAct};
pub use finders::FileFinder;
pub use limits::within_files;
pub use loops::{named_among, named_by, over, over_all, walk_over, walk_over_all};
pub use missing::{no_file, not_open};
pub use paths::{PathSet, in_path_order};
pub use sets::FileSet;
pub use spelled::over_found;
pub use turns::{TurnAct, in_turn};
