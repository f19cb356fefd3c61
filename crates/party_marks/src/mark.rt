//! An entry of the list.
ghost use Rattle.std.specs.Prelude.{◌≡◌, ◌≤◌};
ghost use Rattle.party_marks.specs.Marks.{mark_of};

use order_words::Entry;

/// A mark that a party made.
#[derive(Drop)]
pub struct Mark {
    /// Which party it was.
    pub party: u32,
    /// The lanes that it touches, bit i for lane i: that of its party alone.
    pub lanes: u32,
}

impl Entry for Mark {
    ghost use Rattle.party_marks.specs.Marks.{lanes_of};

    ghost lanes = { lanes_of };

    fn lanes(&self) -> u32 {
        self.lanes
    }
}

impl Mark {
    /// That of a party.
    pub(crate) fn of(party: u32) -> Mark
        requires { (1 ≤ party) × (party ≤ 16) }
        ensures { result ≡ mark_of party }
    {
        Mark {
            party,
            lanes: 1 << party,
        }
    }
}
