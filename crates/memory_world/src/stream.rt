//! Bytes in memory that come and go.

ghost use Rattle.std.specs.Prelude.{◌≡◌, ◌≤◌, ◌<◌, Some, [], take, length, is_err, IsErr, IsTrue, IfOk, OnErr};
ghost use Rattle.outside_api.specs.Count.{HasCause};
ghost use Rattle.outside_api.specs.Told.{prepended, extended, IsAtEnd};
ghost use Rattle.memory_world.specs.Failing.{no_call, one_more, fails_next};

use crate::failing::Failing;
use depot_path::Text;
use outside_api::{Failed, Sink, Source};

/// A source of bytes in memory.
#[derive(Drop)]
pub struct MemorySource {
    bytes: Text,
    at: usize,
    calls: Failing,
    ghost within: { at ≤ length bytes },
}

impl MemorySource {
    ghost use Rattle.memory_world.specs.Stream.{source_left, source_faults, source_calls};

    /// A source of these bytes. The calls of these numbers, from 1, fail.
    pub fn new(bytes: Text, fails: Vec<u64>) -> Self
        ensures left { source_left result ≡ Some bytes }
        ensures faults { source_faults result ≡ 0 }
        ensures calls { source_calls result ≡ no_call fails.items }
    {
        MemorySource {
            bytes,
            at: 0,
            calls: Failing::new(fails),
        }
    }
}

impl Source for MemorySource {
    ghost use Rattle.memory_world.specs.Stream.{source_left, source_faults, source_calls};

    ghost says = { record { left = source_left; faults = source_faults } };

    fn take(&mut self, buffer: &mut [u8]) -> Result<usize, Failed>
        ensures fits { IfOk result (λ n. n ≤ length buffer.new) }
        ensures taken { IfOk result (λ n. source_left self.old ≡ prepended (take n buffer.new) (source_left self.new)) }
        ensures end { IfOk result (λ n. n ≡ 0 → 0 < length buffer.new → IsAtEnd (source_left self.old)) }
        ensures kept { OnErr result (source_left self.new ≡ source_left self.old) }
        ensures cause { HasCause (source_faults self.old) (source_faults self.new) result }
        ensures exactly { is_err result ≡ fails_next (source_calls self.old) }
        ensures calls { source_calls self.new ≡ one_more (source_calls self.old) }
    {
        if self.calls.call_fails() {
            return Err(Failed);
        }
        let rest = &self.bytes.as_bytes()[self.at..];
        let count = rest.len().min(buffer.len());
        buffer[..count].copy_from_slice(&rest[..count]);
        self.at += count;
        Ok(count)
    }
}

/// A sink that keeps what it is given.
#[derive(Drop)]
pub struct MemorySink {
    given: Text,
    calls: Failing,
}

impl MemorySink {
    ghost use Rattle.memory_world.specs.Stream.{sink_given, sink_faults, sink_calls};

    /// An empty sink, which takes no memory. The calls of these numbers, from 1, fail.
    pub fn new(fails: Vec<u64>) -> Self
        ensures given { sink_given result ≡ Some [] }
        ensures faults { sink_faults result ≡ 0 }
        ensures calls { sink_calls result ≡ no_call fails.items }
    {
        MemorySink {
            given: Text::new(*fails.allocator()),
            calls: Failing::new(fails),
        }
    }

    /// What it was given.
    pub fn given(&self) -> &[u8]
        ensures { sink_given self.now ≡ Some result.now }
    {
        self.given.as_bytes()
    }
}

impl Sink for MemorySink {
    ghost use Rattle.memory_world.specs.Stream.{sink_given, sink_faults, sink_calls};

    ghost says = { record { given = sink_given; faults = sink_faults } };

    /// Without memory for the piece the sink has failed as well.
    fn give(&mut self, piece: &[u8]) -> Result<usize, Failed>
        ensures fits { IfOk result (λ n. n ≤ length piece.now) }
        ensures some { IfOk result (λ n. 0 < length piece.now → 0 < n) }
        ensures given { IfOk result (λ n. sink_given self.new ≡ extended (sink_given self.old) (take n piece.now)) }
        ensures kept { OnErr result (sink_given self.new ≡ sink_given self.old) }
        ensures cause { HasCause (sink_faults self.old) (sink_faults self.new) result }
        ensures fails { IsTrue (fails_next (sink_calls self.old)) → IsErr result }
        ensures calls { sink_calls self.new ≡ one_more (sink_calls self.old) }
    {
        if self.calls.call_fails() {
            return Err(Failed);
        }
        if self.given.append(piece).is_err() {
            self.calls.fault();
            return Err(Failed);
        }
        Ok(piece.len())
    }
}
