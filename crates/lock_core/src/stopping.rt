//! A party that takes no further command, and the request of one that is at hand.

ghost use Rattle.std.specs.Prelude.{◌≡◌, List, Some, slice_get};
ghost use Rattle.std.specs.Option.{option_copied};
ghost use Rattle.depot_rows.specs.depot_model.Deeds.{Deed};
ghost use Rattle.depot_rows.specs.depot_model.declared.request.Request.{Request as ModelRequest};
ghost use Rattle.lock_machine.specs.Machine.{State, stopped};
ghost use Rattle.lock_core.specs.Core.{IsCommit, Shows, request_in};

use crate::machine::LockCore;
use depot_rows::model::Request;

impl LockCore {
    /// The request of the command that a party has at hand, where there is one.
    fn request_of(&self, party: u32) -> Option<&Request>
        ensures { option_copied result ≡ request_in (slice_get self.now.parties.items party) }
    {
        match self.parties.get(party as usize) {
            None => None,
            Some(party) => match &party.work {
                None => None,
                Some(work) => Some(&work.request),
            },
        }
    }

    /// The request whose commit a party has at hand.
    pub fn request(&self, party: u32) -> Option<&Request>
        ensures { (start : List Deed) (s : State) (request : ModelRequest) → IsCommit start s self.now party request →
            option_copied result ≡ Some request }
    {
        self.request_of(party)
    }

    /// Takes from a party the commands that it hasn't begun, so that it ends with the one at hand.
    pub fn stop(&mut self, party: u32)
        ensures tables { self.new.tables ≡ self.old.tables }
        ensures shows { (start : List Deed) (s : State) → Shows start self.old s →
            Shows start self.new (stopped s party) }
    {
        let at = party as usize;
        if at >= self.parties.len() {
            return;
        }
        self.parties[at].left.clear();
    }
}
