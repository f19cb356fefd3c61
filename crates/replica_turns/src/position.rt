//! The reply to `pull`, into memory that was taken before.

ghost use Rattle.std.specs.Prelude.{◌≡◌, ◌≤◌, ◌+◌, ◌++◌, ◌∷◌, [], length, decimal, vec_len, vec_capacity, IfOk};
ghost use Rattle.depot_rows.specs.depot_model.Printed.{printed, printed_field};
ghost use Rattle.depot_rows.specs.depot_model.Rows.{number_field};
ghost use Rattle.depot_runs.specs.Replica.{position_row};
ghost use Rattle.replica_turns.specs.Position.{IsRoom};

use depot_rows::paths::Text;
use itoa::Buffer;
use std::alloc::{AllocError, Global};

/// More bytes than the reply to `pull` has.
const ROOM: usize = 128;

/// Memory for the reply to one `pull`.
#[derive(Drop)]
pub(crate) struct Room {
    bytes: Vec<u8>,
}

/// Puts bytes behind those that are there.
fn put(out: &mut Vec<u8>, more: &[u8])
    requires { vec_len out.old + length more.now ≤ vec_capacity out.old }
    ensures bytes { out.new.items ≡ out.old.items ++ more.now }
    ensures len { vec_len out.new ≡ vec_len out.old + length more.now }
    ensures capacity { vec_capacity out.old ≤ vec_capacity out.new }
{
    out.extend_from_slice(more).unwrap();
}

/// Puts a number.
fn put_number(out: &mut Vec<u8>, number: u64)
    requires { vec_len out.old + 20 ≤ vec_capacity out.old }
    ensures bytes { out.new.items ≡ out.old.items ++ decimal number }
    ensures len { vec_len out.new ≤ vec_len out.old + 20 }
    ensures capacity { vec_capacity out.old ≤ vec_capacity out.new }
{
    put(out, Buffer::new().format(number).as_bytes());
}

/// Puts a field that has a number.
fn put_field(out: &mut Vec<u8>, name: &[u8], number: u64)
    requires { vec_len out.old + length name.now + 26 ≤ vec_capacity out.old }
    ensures bytes { out.new.items ≡ out.old.items ++ printed_field (number_field name.now number) }
    ensures len { vec_len out.new ≤ vec_len out.old + length name.now + 26 }
    ensures capacity { vec_capacity out.old ≤ vec_capacity out.new }
{
    put(out, b"... ");
    put(out, name);
    put(out, b" ");
    put_number(out, number);
    put(out, b"\n");
}

impl Room {
    /// Takes the memory.
    pub(crate) fn take(alloc: Global) -> Result<Room, AllocError>
        ensures { IfOk result IsRoom }
    {
        Ok(Room {
            bytes: Vec::with_capacity(alloc, ROOM)?,
        })
    }

    /// The reply to the `pull` of that number: how far the replica is. It takes no memory.
    pub(crate) fn position(self, generation: u32, changes: u64, number: u32) -> Text
        requires { IsRoom self }
        ensures { result ≡ printed (position_row generation changes ∷ []) number }
    {
        let mut bytes = self.bytes;
        put_field(&mut bytes, b"generation", u64::from(generation));
        put_field(&mut bytes, b"changes", changes);
        put(&mut bytes, b"\n... end ");
        put_number(&mut bytes, u64::from(number));
        put(&mut bytes, b"\n\n");
        Text::from_vec(bytes)
    }
}
