//! The root, which tells the generation of a depot's files.

ghost use Rattle.std.specs.Prelude.{◌≡◌, ◌≢◌, ◌≤◌, ◌<◌, ℕ, length, slice_index, take, Ok, Err, IfOk};
ghost use Rattle.std.specs.Result.{IfErr};
ghost use Rattle.outside_api.specs.Disk.{Files};
ghost use Rattle.disk_journal.specs.Images.{IsTail, IsRoot};
ghost use Rattle.recovery.specs.Damage.{IsDamage, IsRootDamage};
ghost use Rattle.recovery.specs.Faults.{IsReadOrSaysNothing, IsUnmadeOrSaysNothing, Tells, UnlessFault};
ghost use Rattle.recovery.specs.Looking.{OnlyReads, IsCause};
ghost use Rattle.recovery.specs.declared.fault.OpenFault.TheVariants.{Damaged, DiskFault, Unmade};
ghost use Rattle.recovery.specs.declared.fault.DepotDisk.TheVariants.{Journal};

use crate::fault::{DepotDisk, OpenFault};
use outside_api::{Disk, fill};

const ROOT: u32 = 0;

const ROOT_LENGTH: usize = 4095;

const OPEN: u8 = b'e';

const CLOSED: u8 = b'm';

/// How many of the first bytes are this one.
fn leading(wanted: u8, bytes: &[u8]) -> usize
    ensures within { result ≤ length bytes.now }
    ensures before { (k : ℕ) → k < result → slice_index bytes.now k ≡ wanted }
    ensures next { result < length bytes.now → slice_index bytes.now result ≢ wanted }
{
    for (i, byte) in bytes.iter().enumerate() {
        if *byte != wanted {
            return i;
        }
    }
    bytes.len()
}

/// How many of the first bytes may stand behind the open ones of a root: any byte that isn't open, and closed ones.
fn fitting(tail: &[u8]) -> usize
    requires { 0 < length tail.now → slice_index tail.now 0 ≢ 101 }
    ensures within { result ≤ length tail.now }
    ensures fit { IsTail (take result tail.now) }
    ensures some { 0 < length tail.now → 0 < result }
    ensures next { result < length tail.now → slice_index tail.now result ≢ 109 }
{
    if tail.is_empty() {
        return 0;
    }
    1 + leading(CLOSED, &tail[1..])
}

/// The generation of a root, or the place of the first byte with which the bytes are none, or of their end.
fn generation_of(root: &[u8]) -> Result<u32, u64>
    requires { length root.now ≤ 4095 }
    ensures root { IfOk result (λ generation. IsRoot generation root.now) }
    ensures last { IfOk result (λ generation. generation ≤ 4095) }
    ensures only { (generation : ℕ) → IsRoot generation root.now → result ≡ Ok generation }
    ensures damaged { IfErr result (IsRootDamage root.now) }
{
    let generation = leading(OPEN, root);
    let (_, tail) = root.split_at(generation);
    let place = generation + fitting(tail);
    if place < root.len() || root.len() < ROOT_LENGTH {
        return Err(place as u64);
    }
    Ok(generation as u32)
}

/// The generation that the root tells.
pub(crate) fn read_root<D: Disk>(disk: &mut D) -> Result<u32, OpenFault>
    ensures root { (files : Files) → D.says.seen disk.old files →
        IfOk result (λ generation. IsRoot generation (files 0)) }
    ensures last { IfOk result (λ generation. generation ≤ 4095) }
    ensures only { (files : Files) (generation : ℕ) → D.says.seen disk.old files → IsRoot generation (files 0) →
        IsReadOrSaysNothing result (λ found. found ≡ generation) }
    ensures damaged { (files contents : Files) → D.says.seen disk.old files →
        IfErr result (Tells (IsDamage files contents)) }
    ensures unmade { (files : Files) → D.says.seen disk.old files → result ≡ Err Unmade → length (files 0) ≡ 0 }
    ensures exactly { (files : Files) → D.says.seen disk.old files → length (files 0) ≡ 0 →
        IsUnmadeOrSaysNothing result }
    ensures reads { OnlyReads D.says disk.old disk.new }
    ensures unfailed { UnlessFault result (D.says.faults disk.new ≡ D.says.faults disk.old) }
    ensures cause { IsCause (D.says.faults disk.old) (D.says.faults disk.new) (result ≡ Err DiskFault) }
{
    let length = disk.length(ROOT)?;
    if length == 0 {
        return Err(OpenFault::Unmade);
    }
    let mut bytes = [0u8; ROOT_LENGTH];
    let count = fill(disk, ROOT, 0, &mut bytes)?;
    match generation_of(&bytes[..count]) {
        Ok(generation) if length == ROOT_LENGTH as u64 => Ok(generation),
        Ok(_) => Err(damaged(ROOT_LENGTH as u64)),
        Err(place) => Err(damaged(place)),
    }
}

/// The fault of the root at a place.
fn damaged(place: u64) -> OpenFault
    ensures { result ≡ Damaged Journal 0 place }
{
    OpenFault::Damaged {
        disk: DepotDisk::Journal,
        file: ROOT,
        place,
    }
}
