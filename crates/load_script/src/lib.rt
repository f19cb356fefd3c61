//! The mode `load`: its script, made from a seed and a number of steps, and the lines that it prints.
#![tactic(auto)]

mod lines;
mod script;

pub use lines::{LoadFigures, load_lines};
pub use script::load_script;
