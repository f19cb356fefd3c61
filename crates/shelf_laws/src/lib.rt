//! Laws of shelved files, over the places of an order.
#![tactic(auto)]

mod laws;

pub use laws::{
    kept_files_are_those_last_shelved, no_change_lands_with_kept_files, shelves_change_no_history,
    shelving_saves_forms_alone, unshelving_opens_what_was_last_shelved,
};
