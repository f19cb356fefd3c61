//! An entry of the order.

use depot_model::paths::{Sequence, Text};
use depot_model::records::Change;
use depot_model::{Place, Request};
use order_words::Entry;

/// A command that was given its place, with what it did.
#[derive(Drop)]
pub struct Taken {
    /// What was asked.
    pub request: Request,
    /// Whether a disk failed, so that nothing was changed.
    pub fault: bool,
    /// Whether it was the archive's. It counts where the archive's lane is touched.
    pub lost: bool,
    /// The lanes that it touches, bit i for lane i.
    pub lanes: u32,
    /// What it changed in the tables.
    pub changes: Sequence<Change>,
    /// How many bytes of the archive are used after it. It counts where the archive's lane is
    /// touched.
    pub end: u64,
    /// The contents that it stored behind those of the places before it. They count where the
    /// archive's lane is touched.
    pub stores: Sequence<Text>,
}

impl Entry for Taken {
    ghost use Rattle.locked_tables.specs.Taken.{lanes_of};

    ghost lanes = { lanes_of };

    fn lanes(&self) -> u32 {
        self.lanes
    }
}

impl Taken {
    ghost use Rattle.std.specs.Prelude.{◌≡◌};
    ghost use Rattle.locked_tables.specs.Taken.{place_of};

    /// Its place.
    pub fn place(&self) -> Place
        ensures { result ≡ place_of self.now }
    {
        Place {
            party: self.request.party,
            number: self.request.number,
            moment: self.request.moment,
            fault: self.fault,
        }
    }

    /// The same, with these lanes.
    pub(crate) fn touching(self, lanes: u32) -> Taken
        ensures { result ≡ record self { lanes = lanes } }
    {
        Taken { lanes, ..self }
    }
}
