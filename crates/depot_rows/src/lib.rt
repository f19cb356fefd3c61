//! The rows of a depot in its tables, and what each deed does to them.
#![tactic(auto)]

mod deed;
mod laws;

pub use deed::{
    Action, Credit, Deed, Entry, Held, How, Landing, Opening, Owing, Pending, Source, SpecKind,
    Stored,
};
pub use laws::{
    deeds_do_so_in_turn, deeds_do_to_rows_what_they_do_to_depots, deeds_of_commands_may_follow,
    depots_with_the_same_rows_stay_so, rows_of_a_cut_depot_are_the_rows_cut,
    standing_rows_are_those_of_the_depot,
};

// What stands below, for the crates above.
pub use depot_model as model;
pub use depot_model::{forms, paths, protections, records, views};
pub use table_changes as changes;
pub use table_changes::tables;
