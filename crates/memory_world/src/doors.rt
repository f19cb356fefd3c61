//! Doors to sources and sinks in memory.

ghost use Rattle.std.specs.Prelude.{◌≡◌, ◌≢◌, ◌<◌, ◌||◌, ℕ, List, length, slice_get, is_err, None, IfSome, IfNone, IfOk};
ghost use Rattle.outside_api.specs.Count.{HasCause};
ghost use Rattle.memory_world.specs.Door.{door_among};
ghost use Rattle.memory_world.specs.Failing.{no_call, one_more, fails_next};

use crate::door::Door;
use crate::failing::Failing;
use crate::stream::{MemorySink, MemorySource};
use outside_api::{Doors, Failed};

/// Doors of parties, each of which opens once.
#[derive(Drop)]
pub struct MemoryDoors {
    doors: Vec<Door>,
    calls: Failing,
}

/// The place of the first door of the name.
fn place_of(doors: &[Door], name: &str) -> Option<usize>
    ensures within { IfSome result (λ at. at < length doors.now) }
    ensures found { IfSome result (λ at. door_among doors.now name.now ≡ slice_get doors.now at) }
    ensures none { IfNone result (door_among doors.now name.now ≡ None) }
{
    for (at, door) in doors.iter().enumerate() {
        if door.is_of(name) {
            return Some(at);
        }
    }
    None
}

/// Takes the first door of the name away.
fn take_door(doors: &mut Vec<Door>, name: &str) -> Option<Door>
    ensures found { result ≡ door_among doors.old.items name.now }
    ensures others { (other : List ℕ) → other ≢ name.now →
        door_among doors.new.items other ≡ door_among doors.old.items other }
{
    match place_of(doors, name) {
        Some(at) => Some(doors.remove(at)),
        None => None,
    }
}

impl MemoryDoors {
    ghost use Rattle.memory_world.specs.Door.{input_among, output_among};
    ghost use Rattle.memory_world.specs.Doors.{doors_input, doors_output, doors_faults, doors_calls};

    /// These doors. The calls of these numbers, from 1, fail, and so does one for a name that isn't
    /// left.
    pub fn new(doors: Vec<Door>, fails: Vec<u64>) -> Self
        ensures input { (name : List ℕ) → doors_input result name ≡ input_among doors.items name }
        ensures output { (name : List ℕ) → doors_output result name ≡ output_among doors.items name }
        ensures faults { doors_faults result ≡ 0 }
        ensures calls { doors_calls result ≡ no_call fails.items }
    {
        MemoryDoors {
            doors,
            calls: Failing::new(fails),
        }
    }
}

impl Doors for MemoryDoors {
    ghost use Rattle.memory_world.specs.Stream.{source_left, source_faults, sink_given, sink_faults};
    ghost use Rattle.memory_world.specs.Doors.{doors_input, doors_output, doors_faults, doors_calls, is_gone};

    type In = MemorySource;

    type Out = MemorySink;

    ghost says = { record { input = doors_input; output = doors_output; faults = doors_faults } };

    fn come(&mut self, name: &str) -> Result<(MemorySource, MemorySink), Failed>
        ensures source { IfOk result (λ pair. source_left pair.0 ≡ doors_input self.old name.now) }
        ensures sink { IfOk result (λ pair. sink_given pair.1 ≡ doors_output self.old name.now) }
        ensures new_source { IfOk result (λ pair. source_faults pair.0 ≡ 0) }
        ensures new_sink { IfOk result (λ pair. sink_faults pair.1 ≡ 0) }
        ensures other_inputs { (other : List ℕ) → other ≢ name.now →
            doors_input self.new other ≡ doors_input self.old other }
        ensures other_outputs { (other : List ℕ) → other ≢ name.now →
            doors_output self.new other ≡ doors_output self.old other }
        ensures cause { HasCause (doors_faults self.old) (doors_faults self.new) result }
        ensures exactly { is_err result ≡ (fails_next (doors_calls self.old) || is_gone self.old name.now) }
        ensures calls { doors_calls self.new ≡ one_more (doors_calls self.old) }
    {
        if self.calls.call_fails() {
            return Err(Failed);
        }
        match take_door(&mut self.doors, name) {
            Some(door) => Ok(door.into_parts()),
            None => {
                self.calls.fault();
                Err(Failed)
            }
        }
    }
}
