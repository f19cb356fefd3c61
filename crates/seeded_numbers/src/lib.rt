//! The numbers that a seed gives, one after another.
#![tactic(auto)]

mod draw;

pub use draw::Draw;
