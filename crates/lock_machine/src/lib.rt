//! A machine of the locks by which commands of many sessions agree on one order, without threads.
//!
//! Each party takes turns with its commands. A command locks the tables that it writes and looks at those that it only
//! reads; with the journal it judges whether a table that it looked at was changed since, and then takes its whole set
//! in a second attempt. Whatever the turns, what it saw is what the depot has at its place. The definitions stand in
//! `specs/`.
#![tactic(auto)]

mod laws;
mod stage;

pub use laws::parties_see_the_depot_at_their_place;
pub use stage::Stage;
