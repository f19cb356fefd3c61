//! Making the files of an empty depot.

ghost use Rattle.std.specs.Prelude.{◌≡◌, ◌≢◌, ◌⊎◌, [], length, OnOk, Err};
ghost use Rattle.outside_api.specs.Count.{HasRisen};
ghost use Rattle.outside_api.specs.Disk.{Files, After, Follows, Same, StillTells};
ghost use Rattle.outside_api.specs.Moments.{LeavesOnly};
ghost use Rattle.disk_journal.specs.Images.{HasCommitted};
ghost use Rattle.disk_journal.specs.Made.{made, SameOthers};
ghost use Rattle.recovery.specs.Standing.{StandFor};
ghost use Rattle.recovery.specs.Looking.{OnlyReads, AreCauses};
ghost use Rattle.recovery.specs.Making.{IsMaking};
ghost use Rattle.recovery.specs.Opening.{LooksOnly};
ghost use Rattle.recovery.specs.declared.fault.MakeFault.TheVariants.{Made, DiskFault};

use crate::fault::MakeFault;
use disk_journal::make_files as make_journal;
use outside_api::Disk;

const ROOT: u32 = 0;

/// Makes the files of an empty depot: the first checkpoint and an empty journal, and then the root, so
/// that there are no files before the rest stands whole. Takes no memory. Where the root isn't empty it
/// writes nothing.
pub fn make_files<D: Disk>(journal: &mut D, archive: &mut D) -> Result<(), MakeFault>
    ensures made { OnOk result ((image : Files) → D.says.may_leave journal.new image → HasCommitted made image) }
    ensures empty_depot { OnOk result ((image contents : Files) → D.says.may_leave journal.new image →
        StandFor [] image contents) }
    // Each disk that told what it reads still does, whatever is answered.
    ensures journal_told { StillTells (D.says.seen journal.old) (D.says.seen journal.new) }
    ensures archive_told { StillTells (D.says.seen archive.old) (D.says.seen archive.new) }
    // The journal's other files are as they were read.
    ensures others { OnOk result (Follows SameOthers (D.says.seen journal.old) (D.says.may_leave journal.new)) }
    // Whatever is answered, at every moment they stay as they were, and so does the root until the rest is that of an
    // empty depot.
    ensures images { Follows IsMaking (D.says.may_leave journal.old) (D.says.may_leave journal.new) }
    ensures any_moment { LeavesOnly D.says journal.old journal.new (After IsMaking (D.says.may_leave journal.old)) }
    // Whatever is answered, each image of the archive, at every moment, is one that it had, and it reads as before
    // unless its sync failed.
    ensures archive_looks { LooksOnly D.says archive.old archive.new }
    ensures archive_reads { Same (D.says.seen archive.old) (D.says.seen archive.new) ⊎ ((result ≡ Err DiskFault) ×
        HasRisen (D.says.faults archive.old) (D.says.faults archive.new)) }
    ensures unmade { (files : Files) → D.says.seen journal.old files → OnOk result (length (files 0) ≡ 0) }
    ensures there { (files : Files) → D.says.seen journal.old files → result ≡ Err Made → length (files 0) ≢ 0 }
    ensures exactly { (files : Files) → D.says.seen journal.old files → length (files 0) ≢ 0 →
        (result ≡ Err Made) ⊎ (result ≡ Err DiskFault) }
    // Whatever is answered, where the root isn't empty nothing is written.
    ensures kept { (files : Files) → D.says.seen journal.old files → length (files 0) ≢ 0 →
        OnlyReads D.says journal.old journal.new × (archive.new ≡ archive.old) }
    ensures untouched { result ≡ Err Made → OnlyReads D.says journal.old journal.new × (archive.new ≡ archive.old) }
    ensures unfailed { result ≢ Err DiskFault →
        (D.says.faults journal.new ≡ D.says.faults journal.old) ×
        (D.says.faults archive.new ≡ D.says.faults archive.old) }
    ensures cause { AreCauses (D.says.faults journal.old) (D.says.faults journal.new) (D.says.faults archive.old)
        (D.says.faults archive.new) (result ≡ Err DiskFault) }
{
    let length = journal.length(ROOT)?;
    if length != 0 {
        return Err(MakeFault::Made);
    }
    archive.sync()?;
    make_journal(journal)?;
    Ok(())
}
