//! A gate that holds a command until another was answered.

ghost use Rattle.std.specs.Prelude.{◌≡◌};

use crate::looks::is_set_within;
use outside_api::Gate;
use std::sync::atomic::AtomicBool;
use std::sync::atomic::Ordering::SeqCst;

/// A gate that holds a command until another was answered, or until its turns are spent. A turn is one look.
#[derive(Drop)]
pub struct TurnGate {
    hold: (u32, u32),
    until: (u32, u32),
    turns: u64,
    answered: AtomicBool,
    released: AtomicBool,
}

impl TurnGate {
    /// A gate that holds the first of these commands until the second was answered, for so many turns at most.
    pub fn new(hold: (u32, u32), until: (u32, u32), turns: u64) -> Self
        ensures hold { result.hold ≡ hold }
        ensures until { result.until ≡ until }
        ensures turns { result.turns ≡ turns }
    {
        TurnGate {
            hold,
            until,
            turns,
            answered: AtomicBool::new(false),
            released: AtomicBool::new(false),
        }
    }

    /// Whether the answer to the other command released the one that it holds: not where that one hasn't come, where it
    /// is still held, and where its turns were spent.
    pub fn released(&self) -> bool {
        self.released.load(SeqCst)
    }
}

impl Gate for TurnGate {
    fn pass(&self, party: u32, number: u32) {
        if (party, number) == self.hold && is_set_within(&self.answered, self.turns) {
            self.released.store(true, SeqCst);
        }
    }

    fn answered(&self, party: u32, number: u32) {
        if (party, number) == self.until {
            self.answered.store(true, SeqCst);
        }
    }
}
