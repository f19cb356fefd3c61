//! Reading as far as a buffer and a file go.

ghost use Rattle.std.specs.Prelude.{◌≡◌, ◌+◌, ◌<◌, ◌≤◌, ◌^◌, length, take, drop, IfOk, OnOk};
ghost use Rattle.outside_api.specs.Count.{HasCause};
ghost use Rattle.outside_api.specs.Disk.{Files, NoMore, Same};
ghost use Rattle.outside_api.specs.Moments.{LeavesOnly};

use crate::disk::Disk;
use crate::stream::Failed;

/// Reads bytes of a file from a place on until the buffer is full or the file ends, and answers how many.
/// Mostly it is one read of the disk.
pub fn fill<D: Disk>(disk: &mut D, file: u32, at: u64, buffer: &mut [u8]) -> Result<usize, Failed>
    requires { at + length buffer.old < 2 ^ 64 }
    ensures fits { IfOk result (λ n. n ≤ length buffer.old) }
    ensures bytes { (files : Files) → D.says.seen disk.old files → IfOk result (λ n. take n buffer.new ≡ take (length buffer.old) (drop at (files file))) }
    ensures same { Same (D.says.seen disk.old) (D.says.seen disk.new) }
    ensures crash { NoMore (D.says.may_leave disk.old) (D.says.may_leave disk.new) }
    ensures any_moment { LeavesOnly D.says disk.old disk.new (D.says.may_leave disk.old) }
    ensures only { OnOk result (D.says.faults disk.new ≡ D.says.faults disk.old) }
    ensures cause { HasCause (D.says.faults disk.old) (D.says.faults disk.new) result }
{
    let mut done = 0;
    while done < buffer.len() {
        let count = disk.read(file, at + done as u64, &mut buffer[done..])?;
        if count == 0 {
            return Ok(done);
        }
        done += count;
    }
    Ok(done)
}
