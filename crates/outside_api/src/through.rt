//! A write with the sync after it, as one step.

ghost use Rattle.std.specs.Prelude.{◌≡◌, ◌+◌, ◌<◌, ◌≤◌, ◌^◌, length, OnOk};
ghost use Rattle.outside_api.specs.Count.{HasCause, counted};
ghost use Rattle.outside_api.specs.Disk.{Files, After, Follows, Holds, Leads, OnFile, StillTells, Torn};
ghost use Rattle.outside_api.specs.Moments.{LeavesOnly};

use crate::disk::Disk;
use crate::stream::Failed;

/// Writes a piece and syncs: two calls of the disk. After Ok a crash leaves the piece; until then it
/// may leave any bytes in the range, and nothing else that it couldn't leave before.
pub fn write_through<D: Disk>(disk: &mut D, file: u32, at: u64, piece: &[u8]) -> Result<(), Failed>
    requires { (files : Files) → D.says.seen disk.old files → at ≤ length (files file) }
    ensures durable { OnOk result (Follows (OnFile file (Holds at piece.now)) (D.says.seen disk.old) (D.says.may_leave disk.new)) }
    ensures written { OnOk result (Leads (OnFile file (Holds at piece.now)) (D.says.seen disk.old) (D.says.seen disk.new)) }
    ensures small { OnOk result (at + length piece.now < 2 ^ 63) }
    ensures told { StillTells (D.says.seen disk.old) (D.says.seen disk.new) }
    ensures crash { Follows (OnFile file (Torn at (length piece.now))) (D.says.may_leave disk.old) (D.says.may_leave disk.new) }
    ensures any_moment { LeavesOnly D.says disk.old disk.new (After (OnFile file (Torn at (length piece.now))) (D.says.may_leave disk.old)) }
    ensures asked { OnOk result (D.says.calls disk.new ≡ counted 2 (D.says.calls disk.old)) }
    ensures at_most { D.says.calls disk.new ≤ counted 2 (D.says.calls disk.old) }
    ensures only { OnOk result (D.says.faults disk.new ≡ D.says.faults disk.old) }
    ensures cause { HasCause (D.says.faults disk.old) (D.says.faults disk.new) result }
{
    disk.write_at(file, at, piece)?;
    disk.sync()?;
    Ok(())
}
