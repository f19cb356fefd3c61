//! Which rows have a text.
#![tactic(auto)]

mod laws;

pub use laws::rows_of_sound_depots_have_texts;
