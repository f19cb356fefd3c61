//! What stays sound of a depot that is cut to a filter.
#![tactic(auto)]

mod laws;

pub use laws::cut_depots_are_sound;
