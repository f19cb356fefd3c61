//! What the commands do that put files into labels and take them out, as deeds and rows of replies.
#![tactic(auto)]

mod making;
mod tagging;
mod taking;

pub use tagging::{labelsync, tag};
