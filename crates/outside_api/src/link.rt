//! The committed journal of a master, as a replica reads it.

ghost use Rattle.std.specs.Prelude.{◌<◌, ◌≤◌, ℕ, List, length, IfOk};
ghost use Rattle.outside_api.specs.Count.{HasCause};
ghost use Rattle.outside_api.specs.Says.{LinkSays};
ghost use Rattle.outside_api.specs.Link.{IsEarlier, Answers, Fits};

use crate::stream::Failed;

/// What was fetched of a journal.
#[derive(Clone, Copy, PartialEq, Eq)]
pub enum Fetched {
    /// So many bytes, at least 1, at the front of the buffer.
    Bytes(usize),
    /// No committed byte stands there, and the generation is the newest or isn't there yet.
    End,
    /// No committed byte stands there, and the generation is closed: a later one is open.
    Next,
}

/// What brings the committed text of a journal, generation by generation. It may answer for the
/// journal as it was at an earlier moment.
pub trait Link {
    /// What it says.
    ghost says: { LinkSays Self };

    /// Brings committed bytes of the journal of a generation from a place on.
    fn fetch(&mut self, generation: u32, at: u64, buffer: &mut [u8]) -> Result<Fetched, Failed>
        requires { 0 < length buffer.old }
        ensures answer { (now : List (List ℕ)) → says.tells self.new now → IfOk result (λ fetched. (earlier : List (List ℕ)) × IsEarlier earlier now × Answers earlier generation at fetched buffer.new) }
        ensures fits { IfOk result (λ fetched. Fits fetched (length buffer.old)) }
        ensures grows { (before : List (List ℕ)) → says.tells self.old before → (now : List (List ℕ)) × says.tells self.new now × IsEarlier before now }
        ensures keeps { says.keeps self.old self.new }
        ensures cause { HasCause (says.faults self.old) (says.faults self.new) result };
}
