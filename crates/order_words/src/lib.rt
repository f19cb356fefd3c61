//! One order of entries that many threads add to, of which memory holds a few words alone.
//!
//! Word 0 counts the places of the order, and each lane has a word that names the last place that
//! touched it. The entries themselves are known to contracts only: each seat carries, without
//! bytes, a beginning of the order, and what a step on a word tells its caller is the lane rule
//! (`LaneRule`). The words and their rule are this project's own choice.
//!
//! How the seats are meant to lie behind locks:
//!
//! - The seat of the order lies behind one lock. Whoever holds that lock knows the whole order.
//! - The seat of a lane lies beside what the lane stands for, behind that thing's lock, at rest
//!   while the lock is free.
//! - Under both locks `announce_next` readies each lane that an entry touches, `append` puts the
//!   entry at the next place, and `settle` brings each of these lanes to rest again.
#![tactic(auto)]

mod lanes;
mod orders;
mod placing;
mod plays;
mod rule;
mod seats;
mod view;

pub use lanes::{Entry, with_lane};
pub use orders::Orders;
pub use seats::{LaneSeat, Note, OrderSeat};
