//! Forms: the texts by which clients, labels, groups, the protections table, changes, shelved files,
//! jobs and fixes are shown and saved.
#![tactic(auto)]

mod cut;
mod fault;
mod fields;
mod form;
mod place;
mod print;
mod reader;
mod shape;

pub use fault::{FormFault, FormFaultKind, ValueFault};
pub use fields::Fields;
pub use form::{Field, Form, is_value};
pub use place::{field_place, line_place};
pub use shape::{FieldKind, Shape};
