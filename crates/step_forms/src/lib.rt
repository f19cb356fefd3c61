//! The kinds of forms that the step of a request saves.
#![tactic(auto)]

mod laws;

pub use laws::steps_save_forms_of_their_kinds_alone;
