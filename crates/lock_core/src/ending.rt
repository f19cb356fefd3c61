//! The end of a commit.

ghost use Rattle.std.specs.Prelude.{◌≡◌};
ghost use Rattle.command_needs.specs.Sets.{tables_in};
ghost use Rattle.lock_core.specs.Finished.{committed_party, marked_parties, marked_party, room_in};

use crate::party::Party;
use crate::work::Room;
use command_needs::TableSet;
use lock_machine::Stage;

impl Party {
    /// Marks its command as stale where it looked at one of these tables.
    fn mark(&mut self, changed: TableSet)
        ensures { self.new ≡ marked_party (tables_in changed) self.old }
    {
        if let Some(work) = &mut self.work {
            work.mark(changed);
        }
    }

    /// Gives its command its place, and the room for that.
    pub(crate) fn commit(&mut self) -> Option<Room>
        ensures party { self.new ≡ committed_party self.old }
        ensures room { result ≡ room_in self.old.work }
    {
        match &mut self.work {
            Some(work) => {
                work.stage = Stage::Committed;
                work.room.take()
            }
            None => None,
        }
    }
}

/// Marks as stale what looked at one of these tables.
pub(crate) fn mark_all(parties: &mut [Party], changed: TableSet)
    ensures { parties.new ≡ marked_parties (tables_in changed) parties.old }
{
    for party in parties.iter_mut() {
        party.mark(changed);
    }
}
