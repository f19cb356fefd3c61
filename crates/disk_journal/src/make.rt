//! The first files of a journal's disk.

ghost use Rattle.std.specs.Prelude.{◌≡◌, ◌≤◌, length, OnOk};
ghost use Rattle.outside_api.specs.Count.{HasCause, counted};
ghost use Rattle.outside_api.specs.Disk.{Files, After, Follows, StillTells};
ghost use Rattle.outside_api.specs.Moments.{LeavesOnly};
ghost use Rattle.disk_journal.specs.Stands.{CanBeAdopted};
ghost use Rattle.disk_journal.specs.Made.{made, HasMadeFirst, IsBeingMade, SameButFirst, SameOthers};
ghost use Rattle.disk_journal.specs.Marks.{HasClosedMark, HasClosedRoot};

use outside_api::{Disk, DiskFault, write_through};

/// Writes the first checkpoint and an empty journal, and syncs.
fn make_first<D: Disk>(disk: &mut D) -> Result<(), DiskFault>
    ensures made { OnOk result (Follows HasMadeFirst (D.says.seen disk.old) (D.says.may_leave disk.new)) }
    ensures told { StillTells (D.says.seen disk.old) (D.says.seen disk.new) }
    ensures crash { Follows SameButFirst (D.says.may_leave disk.old) (D.says.may_leave disk.new) }
    ensures any_moment { LeavesOnly D.says disk.old disk.new (After SameButFirst (D.says.may_leave disk.old)) }
    ensures asked { OnOk result (D.says.calls disk.new ≡ counted 3 (D.says.calls disk.old)) }
    ensures at_most { D.says.calls disk.new ≤ counted 3 (D.says.calls disk.old) }
    ensures only { OnOk result (D.says.faults disk.new ≡ D.says.faults disk.old) }
    ensures cause { HasCause (D.says.faults disk.old) (D.says.faults disk.new) result }
{
    disk.write_at(2, 0, b"@nx@ 0 0\n")?;
    write_through(disk, 1, 0, b"@mx@\n")?;
    Ok(())
}

/// Writes the first checkpoint and an empty journal, and syncs; and then writes the root, and syncs.
pub fn make_files<D: Disk>(disk: &mut D) -> Result<(), DiskFault>
    requires { (files : Files) → D.says.seen disk.old files → length (files 0) ≡ 0 }
    ensures made { OnOk result (CanBeAdopted D.says disk.new 0 0 0 made) }
    // The journal's closed mark is `@mx@` and a line end.
    ensures closed { OnOk result ((image : Files) → D.says.may_leave disk.new image → HasClosedMark made image) }
    // The root's first mark is closed by `m`.
    ensures closed_root { OnOk result ((image : Files) → D.says.may_leave disk.new image → HasClosedRoot made image) }
    // The other files are as they were read.
    ensures others { OnOk result (Follows SameOthers (D.says.seen disk.old) (D.says.may_leave disk.new)) }
    // A disk that told what it reads still does, whatever is answered.
    ensures told { StillTells (D.says.seen disk.old) (D.says.seen disk.new) }
    // Whatever is answered, at every moment the other files stay as they were, and the root as well until the rest
    // stands whole.
    ensures crash { Follows IsBeingMade (D.says.may_leave disk.old) (D.says.may_leave disk.new) }
    ensures any_moment { LeavesOnly D.says disk.old disk.new (After IsBeingMade (D.says.may_leave disk.old)) }
    ensures asked { OnOk result (D.says.calls disk.new ≡ counted 5 (D.says.calls disk.old)) }
    ensures at_most { D.says.calls disk.new ≤ counted 5 (D.says.calls disk.old) }
    ensures only { OnOk result (D.says.faults disk.new ≡ D.says.faults disk.old) }
    ensures cause { HasCause (D.says.faults disk.old) (D.says.faults disk.new) result }
{
    make_first(disk)?;
    write_through(disk, 0, 0, &[b'm'; 4095])?;
    Ok(())
}
