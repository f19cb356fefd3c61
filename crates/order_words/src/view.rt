//! What seats know, as the lane rule sees it. No value of these types is made.
use std::collections::LinkedList;

/// What one seat knows.
pub struct View<E> {
    /// A beginning of the order.
    pub list: LinkedList<E>,
    /// The list of a note that was met and isn't taken in yet.
    pub told: LinkedList<E>,
    pub role: Role,
}

/// What a seat is for.
pub enum Role {
    /// The one seat of the order: how many lanes are made, and which are checked for the next
    /// place.
    Order { made: u32, checked: LinkedList<u32> },
    /// The seat of a lane, with the number in the lane's word.
    Lane { lane: u32, word: u64, resting: bool },
    /// A note: the lane whose seat gave it, and the number that its word had then.
    Note { lane: u32, word: u64 },
    /// A note that was met.
    Spent,
}
