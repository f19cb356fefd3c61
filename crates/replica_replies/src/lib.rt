//! What a replica replies: laws of the definitions.
#![tactic(auto)]

mod laws;

pub use laws::{
    contents_are_those_of_the_revisions_shown, masters_that_agree_on_the_cut_are_answered_alike,
    print_alone_is_answered_with_contents,
};
