//! A disk of files by number: what a read gives, what a crash may leave, and how often it has failed.

ghost use Rattle.std.specs.Prelude.{◌≡◌, ◌+◌, ◌<◌, ◌≤◌, ◌^◌, ℕ, length, take, IfOk, OnOk};
ghost use Rattle.outside_api.specs.Disk.{Files, Follows, OnFile, Torn, Cut, Holds, NoMore, Same, Leads, StillTells, Reads};
ghost use Rattle.outside_api.specs.Says.{DiskSays};
ghost use Rattle.outside_api.specs.Moments.{Passes};
ghost use Rattle.outside_api.specs.Count.{HasCause, counted};

use crate::stream::Failed;

/// Files by number. A file that was never written has length 0, and none is longer than 2^63 - 1 bytes.
///
/// A disk tells what its files read (`seen`), what a crash now may leave of them (`may_leave`: the
/// images), and what a crash at some moment since an earlier one may have left (`left_since`). Each
/// of these is a set of files. A disk that tells nothing has no files in any of them, and then the
/// clauses on content say nothing. Between two syncs a range that was written may hold any bytes, and
/// so may all bytes past the least length that the file had; the length may be any that the file had
/// or passed through. A failed call leaves its range in doubt,
/// and its count rises with a failed call alone.
pub trait Disk {
    /// What it says.
    ghost says: { DiskSays Self };

    /// The length of a file in bytes.
    fn length(&mut self, file: u32) -> Result<u64, Failed>
        ensures length { (files : Files) → says.seen self.old files → IfOk result (λ n. n ≡ length (files file)) }
        ensures small { IfOk result (λ n. n < 2 ^ 63) }
        ensures same { Same (says.seen self.old) (says.seen self.new) }
        ensures crash { NoMore (says.may_leave self.old) (says.may_leave self.new) }
        ensures time { Passes says self.old self.new }
        ensures asked { says.calls self.new ≡ counted 1 (says.calls self.old) }
        ensures only { OnOk result (says.faults self.new ≡ says.faults self.old) }
        ensures cause { HasCause (says.faults self.old) (says.faults self.new) result };

    /// Puts bytes of a file from a place on at the front of the buffer, and answers how many: at
    /// least 1 where the buffer isn't empty and the place is below the length, and 0 else.
    fn read(&mut self, file: u32, at: u64, buffer: &mut [u8]) -> Result<usize, Failed>
        ensures bytes { (files : Files) → says.seen self.old files → IfOk result (λ n. Reads (files file) at buffer.old n buffer.new) }
        ensures fits { IfOk result (λ n. n ≤ length buffer.old) }
        ensures same { Same (says.seen self.old) (says.seen self.new) }
        ensures crash { NoMore (says.may_leave self.old) (says.may_leave self.new) }
        ensures time { Passes says self.old self.new }
        ensures asked { says.calls self.new ≡ counted 1 (says.calls self.old) }
        ensures only { OnOk result (says.faults self.new ≡ says.faults self.old) }
        ensures cause { HasCause (says.faults self.old) (says.faults self.new) result };

    /// Writes over what is there, and past the end. Until a sync, a crash may leave any bytes in the range.
    fn write_at(&mut self, file: u32, at: u64, piece: &[u8]) -> Result<(), Failed>
        requires { (files : Files) → says.seen self.old files → at ≤ length (files file) }
        ensures written { OnOk result (Leads (OnFile file (Holds at piece.now)) (says.seen self.old) (says.seen self.new)) }
        ensures small { OnOk result (at + length piece.now < 2 ^ 63) }
        ensures told { StillTells (says.seen self.old) (says.seen self.new) }
        ensures crash { Follows (OnFile file (Torn at (length piece.now))) (says.may_leave self.old) (says.may_leave self.new) }
        ensures time { Passes says self.old self.new }
        ensures asked { says.calls self.new ≡ counted 1 (says.calls self.old) }
        ensures only { OnOk result (says.faults self.new ≡ says.faults self.old) }
        ensures cause { HasCause (says.faults self.old) (says.faults self.new) result };

    /// Cuts a file to a length. Until a sync, a crash may leave a longer file.
    fn cut(&mut self, file: u32, length: u64) -> Result<(), Failed>
        requires { (files : Files) → says.seen self.old files → length ≤ Rattle.std.specs.Prelude.length (files file) }
        ensures cut { OnOk result (Leads (OnFile file (λ old new. new ≡ take length old)) (says.seen self.old) (says.seen self.new)) }
        ensures told { StillTells (says.seen self.old) (says.seen self.new) }
        ensures crash { Follows (OnFile file (Cut length)) (says.may_leave self.old) (says.may_leave self.new) }
        ensures time { Passes says self.old self.new }
        ensures asked { says.calls self.new ≡ counted 1 (says.calls self.old) }
        ensures only { OnOk result (says.faults self.new ≡ says.faults self.old) }
        ensures cause { HasCause (says.faults self.old) (says.faults self.new) result };

    /// After it, a crash leaves what a read gives.
    fn sync(&mut self) -> Result<(), Failed>
        ensures durable { OnOk result (NoMore (says.seen self.new) (says.may_leave self.new)) }
        ensures same { OnOk result (Same (says.seen self.old) (says.seen self.new)) }
        ensures told { StillTells (says.seen self.old) (says.seen self.new) }
        ensures crash { NoMore (says.may_leave self.old) (says.may_leave self.new) }
        ensures time { Passes says self.old self.new }
        ensures asked { says.calls self.new ≡ counted 1 (says.calls self.old) }
        ensures only { OnOk result (says.faults self.new ≡ says.faults self.old) }
        ensures cause { HasCause (says.faults self.old) (says.faults self.new) result };

    /// What the disk reads is one of its images.
    ghost reads_an_image: { (disk : Self) (c : Files) → says.seen disk c → says.may_leave disk c };

    /// The disk reads as no other files.
    ghost reads_one: { (disk : Self) (c d : Files) → says.seen disk c → says.seen disk d → (file : ℕ) → c file ≡ d file };

    /// No file that is read is longer.
    ghost within: { (disk : Self) (c : Files) (file : ℕ) → says.seen disk c → length (c file) < 2 ^ 63 };

    /// This moment is one of those since an earlier one.
    ghost counts_now: { (disk : Self) (t : ℕ) (c : Files) → t ≤ says.moment disk → says.may_leave disk c → says.left_since disk t c };

    /// Since this moment there is no other.
    ghost only_now: { (disk : Self) (c : Files) → says.left_since disk (says.moment disk) c → says.may_leave disk c };
}
