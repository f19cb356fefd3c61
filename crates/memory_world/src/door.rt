//! A door to a source and a sink in memory.

ghost use Rattle.std.specs.Prelude.{◌≡◌};
ghost use Rattle.memory_world.specs.Stream.{source_faults, sink_faults};

use crate::stream::{MemorySink, MemorySource};
use depot_path::Text;

/// The source and the sink of a party's name, neither of which has failed yet.
#[derive(Drop)]
pub struct Door {
    name: Text,
    source: MemorySource,
    sink: MemorySink,
    ghost fresh_source: { source_faults source ≡ 0 },
    ghost fresh_sink: { sink_faults sink ≡ 0 },
}

impl Door {
    ghost use Rattle.memory_world.specs.Stream.{source_left, sink_given};
    ghost use Rattle.memory_world.specs.Door.{bears, door_name, door_input, door_output};

    /// A door of this name to this source and this sink, whose counts of faults are 0.
    pub fn new(name: Text, source: MemorySource, sink: MemorySink) -> Self
        requires source { source_faults source ≡ 0 }
        requires sink { sink_faults sink ≡ 0 }
        ensures name { door_name result ≡ name }
        ensures input { door_input result ≡ source_left source }
        ensures output { door_output result ≡ sink_given sink }
    {
        Door { name, source, sink }
    }

    /// Whether it is the door of the name.
    pub(crate) fn is_of(&self, name: &str) -> bool
        ensures { result ≡ bears name.now self.now }
    {
        self.name.as_bytes() == name.as_bytes()
    }

    /// The source and the sink.
    pub(crate) fn into_parts(self) -> (MemorySource, MemorySink)
        ensures { result ≡ (self.source, self.sink) }
    {
        let Door { source, sink, .. } = self;
        (source, sink)
    }
}
