//! The order in which the commands of all sessions were taken.

use db_records::paths::Text;

/// The place of a command in the order.
#[derive(Clone, Copy, PartialEq, Eq)]
pub struct Place {
    /// The party, from 1.
    pub party: u32,
    /// The command's number among those of the party, from 1.
    pub number: u32,
    /// The moment of its request, in seconds since 1970.
    pub moment: u64,
    /// Whether its commit failed.
    pub fault: bool,
}

/// A place and what was printed to it.
#[derive(Drop)]
pub struct Answer {
    /// The place.
    pub place: Place,
    /// The text of the reply.
    pub reply: Text,
}
