//! Giving a party a reply.

ghost use Rattle.std.specs.Prelude.{◌≡◌, ◌≤◌, true};
ghost use Rattle.outside_api.specs.Count.{HasRisen};
ghost use Rattle.run_parties.specs.Giving.{Got, text_of};

use depot_model::paths::Text;
use outside_api::Sink;
use std::alloc::AllocError;
use wire_text::{give_all, give_memory};

/// Gives a reply, or, where there is none, that of a command that found no memory. Answers whether the sink has failed.
pub fn give<K: Sink>(sink: &mut K, reply: Result<Text, AllocError>, number: u32) -> bool
    ensures got { Got result (text_of reply number) (K.says.given sink.old) (K.says.given sink.new) }
    ensures counts { K.says.faults sink.old ≤ K.says.faults sink.new }
    ensures cause { result ≡ true → HasRisen (K.says.faults sink.old) (K.says.faults sink.new) }
{
    match reply {
        Ok(text) => match give_all(sink, text.as_bytes()) {
            Ok(()) => false,
            Err(_) => true,
        },
        Err(_) => match give_memory(sink, number) {
            Ok(()) => false,
            Err(_) => true,
        },
    }
}
