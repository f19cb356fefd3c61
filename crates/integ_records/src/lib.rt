//! What the commands do that integrate files, as deeds and rows of replies: which revisions of a file are credited to
//! another one, what `integrate` opens, and what `resolve` settles.
#![tactic(auto)]

mod based;
mod crediting;
mod integrating;
mod opened_targets;
mod resolving;
mod turns;
mod uncredited;

pub use integrating::integrate;
pub use resolving::resolve;
