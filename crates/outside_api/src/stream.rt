//! Bytes that come and bytes that go.

ghost use Rattle.std.specs.Prelude.{◌≡◌, ◌<◌, ◌≤◌, length, take, IfOk, OnErr};
ghost use Rattle.outside_api.specs.Count.{HasCause};
ghost use Rattle.outside_api.specs.Says.{SinkSays, SourceSays};
ghost use Rattle.outside_api.specs.Told.{prepended, extended, IsAtEnd};

/// The outside has failed: the count of the object that answers this has risen in the call.
#[derive(Clone, Copy, PartialEq, Eq)]
pub struct Failed;

/// What bytes come from, as a script of a session.
pub trait Source {
    /// What it says.
    ghost says: { SourceSays Self };

    /// Puts the next bytes at the front of the buffer, and answers how many. 0 for a buffer that
    /// isn't empty is the end of input.
    fn take(&mut self, buffer: &mut [u8]) -> Result<usize, Failed>
        ensures fits { IfOk result (λ n. n ≤ length buffer.new) }
        ensures taken { IfOk result (λ n. says.left self.old ≡ prepended (take n buffer.new) (says.left self.new)) }
        ensures end { IfOk result (λ n. n ≡ 0 → 0 < length buffer.new → IsAtEnd (says.left self.old)) }
        ensures kept { OnErr result (says.left self.new ≡ says.left self.old) }
        ensures cause { HasCause (says.faults self.old) (says.faults self.new) result };
}

/// What bytes go to, as the replies to a session.
pub trait Sink {
    /// What it says.
    ghost says: { SinkSays Self };

    /// Takes the front of a piece, and answers how many bytes: at least 1 of a piece that isn't empty.
    fn give(&mut self, piece: &[u8]) -> Result<usize, Failed>
        ensures fits { IfOk result (λ n. n ≤ length piece.now) }
        ensures some { IfOk result (λ n. 0 < length piece.now → 0 < n) }
        ensures given { IfOk result (λ n. says.given self.new ≡ extended (says.given self.old) (take n piece.now)) }
        ensures kept { OnErr result (says.given self.new ≡ says.given self.old) }
        ensures cause { HasCause (says.faults self.old) (says.faults self.new) result };
}
