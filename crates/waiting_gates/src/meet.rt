//! A gate at which two commands meet.

ghost use Rattle.std.specs.Prelude.{◌≡◌};

use crate::looks::is_set_within;
use outside_api::Gate;
use std::sync::atomic::AtomicBool;
use std::sync::atomic::Ordering::SeqCst;

/// A gate that holds each of two commands until the other has come to it, or until its turns are spent. A turn is one
/// look.
#[derive(Drop)]
pub struct MeetGate {
    one: (u32, u32),
    other: (u32, u32),
    turns: u64,
    one_came: AtomicBool,
    other_came: AtomicBool,
    spent: AtomicBool,
}

impl MeetGate {
    /// A gate at which these two commands meet, where each is held for so many turns at most.
    pub fn new(one: (u32, u32), other: (u32, u32), turns: u64) -> Self
        ensures one { result.one ≡ one }
        ensures other { result.other ≡ other }
        ensures turns { result.turns ≡ turns }
    {
        MeetGate {
            one,
            other,
            turns,
            one_came: AtomicBool::new(false),
            other_came: AtomicBool::new(false),
            spent: AtomicBool::new(false),
        }
    }

    /// Whether both commands came, and neither spent its turns.
    pub fn met(&self) -> bool {
        self.one_came.load(SeqCst) && self.other_came.load(SeqCst) && !self.spent.load(SeqCst)
    }

    /// Says that a command came, and waits for the one that it is to meet.
    fn meet(&self, own: &AtomicBool, awaited: &AtomicBool) {
        own.store(true, SeqCst);
        if !is_set_within(awaited, self.turns) {
            self.spent.store(true, SeqCst);
        }
    }
}

impl Gate for MeetGate {
    fn pass(&self, party: u32, number: u32) {
        if (party, number) == self.one {
            self.meet(&self.one_came, &self.other_came);
        } else if (party, number) == self.other {
            self.meet(&self.other_came, &self.one_came);
        }
    }

    fn answered(&self, _party: u32, _number: u32) {}
}
