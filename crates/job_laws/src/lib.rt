//! Laws of jobs and fixes, over the places of an order.
#![tactic(auto)]

mod laws;

pub use laws::{
    fixes_are_folded, fixes_are_listed_as_folded, fixes_go_with_their_change, jobs_are_folded,
    jobs_are_shown_as_folded,
};
