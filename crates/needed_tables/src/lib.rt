//! What a request does depends on the tables alone that it needs.
#![tactic(auto)]

mod laws;

pub use laws::{
    changes_fit_alike, commands_that_write_no_revisions_store_nothing,
    outcomes_depend_on_their_set_alone, outcomes_that_store_nothing_stand_anywhere,
    tables_that_agree_have_what_is_needed,
};
