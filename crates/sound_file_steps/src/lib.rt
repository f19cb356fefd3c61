//! Which steps on files keep a depot sound.
#![tactic(auto)]

mod laws;

pub use laws::{
    steps_between_files_keep_depots_sound, steps_on_files_keep_depots_sound,
    steps_that_open_files_keep_depots_sound,
};
