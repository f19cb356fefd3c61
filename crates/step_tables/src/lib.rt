//! The tables in which the step of a request changes rows.
#![tactic(auto)]

mod laws;

pub use laws::{
    deeds_change_rows_of_their_tables_alone, steps_change_rows_of_written_tables_alone,
    steps_that_write_no_revisions_land_nothing,
};
