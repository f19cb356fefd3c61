//! Whose turn a number draws.

ghost use Rattle.std.specs.Prelude.{◌≡◌, ◌<◌, ◌^◌, ◌||◌, List, length, slice_get};
ghost use Rattle.depot_rows.specs.depot_model.Deeds.{Deed};
ghost use Rattle.lock_machine.specs.Draws.{chosen};
ghost use Rattle.lock_machine.specs.Machine.{State};
ghost use Rattle.lock_core.specs.Core.{Shows, may_wait, wait_at};
ghost use Rattle.lock_core.specs.Drawing.{going_parties, has_other, may_go_below};

use crate::machine::LockCore;

/// Whether a party has something left to do outside of the machine.
fn has_other(others: &[u32], party: u32) -> bool
    ensures { result ≡ has_other others.now party }
{
    match others.get(party as usize) {
        Some(left) => *left > 0,
        None => false,
    }
}

impl LockCore {
    /// How many parties there are, of those that a number can name.
    fn party_count(&self) -> u32
        ensures { length self.now.parties.items < 2 ^ 32 → result ≡ length self.now.parties.items }
    {
        u32::try_from(self.parties.len()).unwrap_or(u32::MAX)
    }

    /// Whether a party may go on, in the machine or outside of it.
    fn may_go_on(&self, others: &[u32], party: u32) -> bool
        ensures { result ≡ (may_wait self.now.parties.items (wait_at self.now.parties.items party) ||
            has_other others.now party) }
    {
        self.may_go(party) || has_other(others, party)
    }

    /// How many of the first parties may go on.
    fn count_below(&self, others: &[u32], end: u32) -> u32
        ensures { result ≡ length (may_go_below self.now.parties.items others.now end) }
    {
        let mut count = 0;
        for party in 0..end {
            if self.may_go_on(others, party) {
                count += 1;
            }
        }
        count
    }

    /// The party at a place among those of the first that may go on.
    fn nth_below(&self, others: &[u32], end: u32, place: u32) -> Option<u32>
        ensures { result ≡ slice_get (may_go_below self.now.parties.items others.now end) place }
    {
        let mut passed = 0;
        for party in 0..end {
            if self.may_go_on(others, party) {
                if passed == place {
                    return Some(party);
                }
                passed += 1;
            }
        }
        None
    }

    /// The party whose turn a value draws: of those whose next event is enabled, or that have something left to do
    /// outside of the machine, in rising order, the one at the value's place, modulo how many they are; none where
    /// there is none. The others tell by party how much each has left to do there.
    pub fn drawn(&self, value: u32, others: &[u32]) -> Option<u32>
        ensures { (start : List Deed) (s : State) → Shows start self.now s → length s.parties < 2 ^ 32 →
            result ≡ chosen (going_parties s others.now) value }
    {
        let end = self.party_count();
        let count = self.count_below(others, end);
        if count == 0 {
            return None;
        }
        self.nth_below(others, end, value % count)
    }
}
