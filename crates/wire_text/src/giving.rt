//! Giving bytes to a sink.

ghost use Rattle.std.specs.Prelude.{◌++◌, ◌∷◌, [], codes, decimal};
ghost use Rattle.outside_api.specs.Count.{HasCause};
ghost use Rattle.wire_text.specs.Giving.{GivesAll};
ghost use Rattle.depot_model.specs.Printed.{printed};
ghost use Rattle.depot_model.specs.Rows.{memory_row};

use itoa::Buffer;
use outside_api::Sink;

/// The sink has failed before it had taken all of a piece.
#[derive(Clone, Copy, PartialEq, Eq)]
pub struct GiveFault;

/// Gives a whole piece, part by part. It takes no memory.
pub fn give_all<K: Sink>(sink: &mut K, piece: &[u8]) -> Result<(), GiveFault>
    ensures given { GivesAll (K.says.given sink.old) (K.says.given sink.new) piece.now result }
    ensures cause { HasCause (K.says.faults sink.old) (K.says.faults sink.new) result }
{
    let mut at = 0;
    while at < piece.len() {
        match sink.give(&piece[at..]) {
            Ok(count) => at += count,
            Err(_) => return Err(GiveFault),
        }
    }
    Ok(())
}

/// Gives the end of a reply.
fn give_end<K: Sink>(sink: &mut K, number: u32) -> Result<(), GiveFault>
    ensures given { GivesAll (K.says.given sink.old) (K.says.given sink.new) (decimal number ++ codes "\n\n") result }
    ensures cause { HasCause (K.says.faults sink.old) (K.says.faults sink.new) result }
{
    match give_all(sink, Buffer::new().format(number).as_bytes()) {
        Ok(()) => give_all(sink, b"\n\n"),
        Err(fault) => Err(fault),
    }
}

/// Gives the reply of a command that found no memory, which takes none.
pub fn give_memory<K: Sink>(sink: &mut K, number: u32) -> Result<(), GiveFault>
    ensures given { GivesAll (K.says.given sink.old) (K.says.given sink.new) (printed (memory_row ∷ []) number) result }
    ensures cause { HasCause (K.says.faults sink.old) (K.says.faults sink.new) result }
{
    match give_all(sink, b"... code 31\n... name Memory\n\n... end ") {
        Ok(()) => give_end(sink, number),
        Err(fault) => Err(fault),
    }
}
