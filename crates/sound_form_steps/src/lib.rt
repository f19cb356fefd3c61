//! Which steps on forms, changes, shelves and fixes keep a depot sound.
#![tactic(auto)]

mod laws;

pub use laws::{
    forms_that_are_saved_keep_depots_sound, kept_lines_have_the_same_words,
    steps_on_changes_keep_depots_sound, steps_on_shelves_and_fixes_keep_depots_sound,
};
