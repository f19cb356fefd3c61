//! How far the text of a closed generation was scanned.

ghost use Rattle.std.specs.Prelude.{◌≡◌, ◌<◌, ◌^◌, ℕ, List};
ghost use Rattle.disk_journal.specs.Fetch.{IsReached};

/// A place in the text of a closed generation at which a mark stands. What stands before it needn't be looked at again.
#[derive(Clone, Copy, Drop)]
pub struct Scanned {
    pub(crate) generation: u32,
    pub(crate) place: u64,
    ghost short: { place < 2 ^ 63 },
}

impl Scanned {
    ghost use Rattle.disk_journal.specs.Scanned.{IsMarkOf};

    /// Nothing was scanned yet.
    pub fn nothing() -> Self
        ensures { (file : List ℕ) → IsMarkOf result file }
    {
        Scanned {
            generation: 0,
            place: 0,
        }
    }

    /// A place in the text of a generation at which a mark stands: its front, where another generation was scanned.
    pub(crate) fn place_in(self, generation: u32) -> u64
        ensures reached { (groups : List (List ℕ)) → (generation ≡ self.generation → IsReached groups self.place) →
            IsReached groups result }
        ensures short { result < 2 ^ 63 }
    {
        if generation == self.generation {
            self.place
        } else {
            0
        }
    }
}
