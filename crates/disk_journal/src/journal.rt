//! The journal of one generation, and the group that may be in doubt.

ghost use Rattle.std.specs.Prelude.{◌≡◌, ◌≢◌, ◌⊎◌, ◌+◌, ◌*◌, ◌<◌, ◌≤◌, ◌^◌, ℕ, List, [], ◌∷◌, ◌++◌, length, OnOk, IfOk, IsErr, IsTrue, ◌↔◌};
ghost use Rattle.outside_api.specs.Count.{HasCause, counted};
ghost use Rattle.outside_api.specs.Disk.{Files, After, Follows};
ghost use Rattle.outside_api.specs.Moments.{LeavesOnly};
ghost use Rattle.journal_groups.specs.Groups.{AreRecords, IsGroup, group_text};
ghost use Rattle.disk_journal.specs.Older.{SameBefore};

use db_records::Change;
use db_records::paths::Text;
use journal_groups::print_group;
use outside_api::{Disk, DiskFault, write_through};
use std::alloc::{AllocError, Global};

const MARK_LENGTH: u64 = 5;

const ROOT: u32 = 0;

const OPEN: u8 = b'e';

const CLOSED: u8 = b'm';

/// What a failed call may or may not have made count.
#[derive(Clone, Copy, Drop, PartialEq, Eq)]
pub(crate) enum Doubt {
    /// Nothing.
    Nothing,
    /// The group behind the last mark.
    Group,
    /// The next generation.
    Generation,
}

/// The text of a journal's next group and of the closed mark behind it, and how many bytes it has.
pub struct Prepared {
    text: Text,
    size: u64,
    ghost size_is: { size ≡ length text },
}

impl Drop for Prepared {
    fn drop(self) {
        let Prepared { text: _, size: _ } = self;
    }
}

/// A group that is on the disk: its generation, and its number in it, from 1.
#[derive(Clone, Copy, Drop, PartialEq, Eq)]
pub struct Receipt {
    pub generation: u32,
    pub group: u64,
}

/// Where a journal's committed text ends: how many groups and bytes its generation has.
#[derive(Clone, Copy, Drop)]
pub(crate) struct End {
    pub generation: u32,
    pub groups: u64,
    pub length: u64,
    ghost last: { generation ≤ 4095 },
    ghost few: { groups ≤ length },
    ghost short: { length + 5 < 2 ^ 63 },
}

/// The journal of one generation.
#[derive(Drop)]
pub struct Journal<D: Disk> {
    pub(crate) disk: D,
    pub(crate) end: End,
    pub(crate) doubt: Doubt,
}

impl<D: Disk> Journal<D> {
    ghost use Rattle.disk_journal.specs.declared.journal.Doubt.TheVariants.{Nothing};
    ghost use Rattle.disk_journal.specs.Keeping.{KeepsOlder};
    ghost use Rattle.disk_journal.specs.Marks.{HasClosedMark, IsShut};
    ghost use Rattle.disk_journal.specs.Images.{Committed, with_group, with_generation, HasEither};
    ghost use Rattle.disk_journal.specs.Stands.{Doubtful, nothing, group, opening, HasWithOrWithout, Stands, IsStill, CanBeAdopted, group_of, IsPrepared, next_number, generation_of_journal, disk_of};

    /// The journal of a disk on which nothing is in doubt, with so many groups in a committed text of
    /// that length in bytes. Makes no call of the disk.
    pub fn adopt(disk: D, generation: u32, groups: u64, length: u64) -> Self
        requires { (was : Committed) × CanBeAdopted D.says disk generation groups length was }
        ensures stands { (was : Committed) → CanBeAdopted D.says disk generation groups length was →
            Stands D.says result was nothing }
        ensures disk { disk_of result ≡ disk }
    {
        Journal {
            disk,
            end: End {
                generation,
                groups,
                length,
            },
            doubt: Doubt::Nothing,
        }
    }

    /// The text of the next group, of these changes, with a closed mark behind it.
    pub fn prepare(&self, alloc: Global, changes: &[Change]) -> Result<Prepared, AllocError>
        ensures group { IfOk result (λ prepared. group_of prepared ≡ group_text (next_number self.now) changes.now) }
        ensures prepared { IfOk result (λ prepared. IsPrepared (next_number self.now) prepared) }
        // What memory holds is no longer than a group's head can say.
        ensures fits { AreRecords changes.now → IfOk result (λ prepared. IsGroup changes.now) }
    {
        let mut text = print_group(alloc, self.end.groups + 1, changes)?;
        text.append(b"@mx@\n")?;
        let size = text.len() as u64;
        Ok(Prepared { text, size })
    }

    /// The generation.
    pub fn generation(&self) -> u32
        ensures { result ≡ generation_of_journal self.now }
    {
        self.end.generation
    }

    /// The disk.
    pub fn into_disk(self) -> D
        ensures { result ≡ disk_of self }
    {
        self.disk
    }

    /// Puts a prepared group on the disk, whole or not at all: a write and a sync of the text, and a
    /// write and a sync of the mark before it.
    pub fn commit(&mut self, prepared: Prepared) -> Result<Receipt, DiskFault>
        requires rest { (was : Committed) × Stands D.says self.old was nothing }
        requires prepared { IsPrepared (next_number self.old) prepared }

        ensures ok { (was : Committed) → Stands D.says self.old was nothing →
            OnOk result (Stands D.says self.new (with_group was (group_of prepared)) nothing) }
        // The closed mark behind the group is `@mx@` and a line end.
        ensures closed { (was : Committed) → Stands D.says self.old was nothing →
            OnOk result ((image : Files) → D.says.may_leave (disk_of self.new) image →
            HasClosedMark (with_group was (group_of prepared)) image) }
        ensures receipt { (was : Committed) → Stands D.says self.old was nothing →
            IfOk result (λ receipt. (receipt.generation ≡ was.generation) × (receipt.group ≡ length was.groups + 1)) }

        // Where the mark's write wasn't begun, no image of the call has the group; else it is in doubt.
        ensures err { (was : Committed) → Stands D.says self.old was nothing → IsErr result →
            IsStill D.says self.old self.new was
            ⊎ Stands D.says self.new was (group (group_of prepared)) }

        ensures any_moment { (was : Committed) → Stands D.says self.old was nothing →
            LeavesOnly D.says (disk_of self.old) (disk_of self.new) (HasEither was (with_group was (group_of prepared))) }

        // The files of the generations before stay as they are, at every moment.
        ensures older { Follows (SameBefore (1 + 2 * generation_of_journal self.old)) (D.says.may_leave (disk_of self.old)) (D.says.may_leave (disk_of self.new)) }
        ensures any_older { LeavesOnly D.says (disk_of self.old) (disk_of self.new) (After (SameBefore (1 + 2 * generation_of_journal self.old)) (D.says.may_leave (disk_of self.old))) }
        ensures keeps { (older : List (List (List ℕ))) → KeepsOlder D.says self.old older →
            KeepsOlder D.says self.new older }

        ensures asked { OnOk result (D.says.calls (disk_of self.new) ≡ counted 4 (D.says.calls (disk_of self.old))) }
        ensures at_most { D.says.calls (disk_of self.new) ≤ counted 4 (D.says.calls (disk_of self.old)) }
        ensures only { OnOk result (D.says.faults (disk_of self.new) ≡ D.says.faults (disk_of self.old)) }
        ensures cause { HasCause (D.says.faults (disk_of self.old)) (D.says.faults (disk_of self.new)) result }
    {
        let file = journal_file(self.end.generation);
        let text = prepared.text.as_bytes();
        write_through(&mut self.disk, file, self.end.length + MARK_LENGTH, text)?;
        self.doubt = Doubt::Group;
        write_through(&mut self.disk, file, self.end.length + 1, &[OPEN])?;
        self.doubt = Doubt::Nothing;
        self.end = End {
            generation: self.end.generation,
            groups: self.end.groups + 1,
            length: self.end.length + prepared.size,
        };
        Ok(Receipt {
            generation: self.end.generation,
            group: self.end.groups,
        })
    }

    /// Whether a group or a generation may or may not count.
    pub fn in_doubt(&self) -> bool
        ensures { (was : Committed) (doubt : Doubtful) → Stands D.says self.now was doubt → IsTrue result ↔ (doubt ≢ nothing) }
    {
        self.doubt != Doubt::Nothing
    }

    /// Closes the mark that is in doubt. Makes no call of the disk where nothing is in doubt.
    pub fn settle(&mut self) -> Result<(), DiskFault>
        requires { (was : Committed) × ((doubt : Doubtful) × Stands D.says self.old was doubt) }
        ensures ok { (was : Committed) (doubt : Doubtful) → Stands D.says self.old was doubt →
            OnOk result (Stands D.says self.new was nothing) }
        // The mark is closed by `m`: a journal's is then `@mx@` and a line end.
        ensures closed { (was : Committed) (doubt : Doubtful) → Stands D.says self.old was doubt →
            OnOk result ((image : Files) → D.says.may_leave (disk_of self.new) image → IsShut was doubt image) }
        ensures err { (was : Committed) (doubt : Doubtful) → Stands D.says self.old was doubt →
            IsErr result → Stands D.says self.new was doubt }
        ensures any_moment { (was : Committed) (doubt : Doubtful) → Stands D.says self.old was doubt →
            LeavesOnly D.says (disk_of self.old) (disk_of self.new) (HasWithOrWithout was doubt) }
        ensures no_call { (was : Committed) → Stands D.says self.old was nothing → disk_of self.new ≡ disk_of self.old }
        ensures number { next_number self.new ≡ next_number self.old }
        // The files of the generations before stay as they are, at every moment.
        ensures older { Follows (SameBefore (1 + 2 * generation_of_journal self.old)) (D.says.may_leave (disk_of self.old)) (D.says.may_leave (disk_of self.new)) }
        ensures any_older { LeavesOnly D.says (disk_of self.old) (disk_of self.new) (After (SameBefore (1 + 2 * generation_of_journal self.old)) (D.says.may_leave (disk_of self.old))) }
        ensures keeps { (older : List (List (List ℕ))) → KeepsOlder D.says self.old older →
            KeepsOlder D.says self.new older }
        ensures asked { (was : Committed) (doubt : Doubtful) → Stands D.says self.old was doubt → doubt ≢ nothing →
            OnOk result (D.says.calls (disk_of self.new) ≡ counted 2 (D.says.calls (disk_of self.old))) }
        ensures at_most { (was : Committed) (doubt : Doubtful) → Stands D.says self.old was doubt → doubt ≢ nothing →
            D.says.calls (disk_of self.new) ≤ counted 2 (D.says.calls (disk_of self.old)) }
        ensures only { OnOk result (D.says.faults (disk_of self.new) ≡ D.says.faults (disk_of self.old)) }
        ensures cause { HasCause (D.says.faults (disk_of self.old)) (D.says.faults (disk_of self.new)) result }
    {
        match self.doubt {
            Doubt::Nothing => Ok(()),
            Doubt::Group => {
                let file = journal_file(self.end.generation);
                write_through(&mut self.disk, file, self.end.length + 1, &[CLOSED])?;
                self.doubt = Doubt::Nothing;
                Ok(())
            }
            Doubt::Generation => {
                write_through(&mut self.disk, ROOT, self.end.generation as u64, &[CLOSED])?;
                self.doubt = Doubt::Nothing;
                Ok(())
            }
        }
    }

    /// Opens the next generation, whole or not at all: writes its checkpoint and an empty journal,
    /// syncs, opens the root's mark and syncs.
    pub fn begin_generation(&mut self, checkpoint: &[u8]) -> Result<u32, DiskFault>
        requires rest { (was : Committed) × Stands D.says self.old was nothing }
        requires below { generation_of_journal self.old < 4095 }

        ensures ok { (was : Committed) → Stands D.says self.old was nothing →
            OnOk result (Stands D.says self.new (with_generation was checkpoint.now) nothing) }
        // The next generation's journal begins with the closed mark `@mx@` and a line end.
        ensures closed { (was : Committed) → Stands D.says self.old was nothing →
            OnOk result ((image : Files) → D.says.may_leave (disk_of self.new) image →
            HasClosedMark (with_generation was checkpoint.now) image) }
        ensures number { IfOk result (λ n. n ≡ generation_of_journal self.old + 1) }

        // Where the root mark's write wasn't begun, no image of the call is of the next generation; else it is in
        // doubt.
        ensures err { (was : Committed) → Stands D.says self.old was nothing → IsErr result →
            IsStill D.says self.old self.new was
            ⊎ Stands D.says self.new was (opening checkpoint.now) }

        ensures any_moment { (was : Committed) → Stands D.says self.old was nothing →
            LeavesOnly D.says (disk_of self.old) (disk_of self.new) (HasEither was (with_generation was checkpoint.now)) }

        // The files of the generations before stay as they are, and so do this one's, at every moment.
        ensures older { Follows (SameBefore (3 + 2 * generation_of_journal self.old)) (D.says.may_leave (disk_of self.old)) (D.says.may_leave (disk_of self.new)) }
        ensures any_older { LeavesOnly D.says (disk_of self.old) (disk_of self.new) (After (SameBefore (3 + 2 * generation_of_journal self.old)) (D.says.may_leave (disk_of self.old))) }
        ensures keeps { (older : List (List (List ℕ))) → KeepsOlder D.says self.old older → IsErr result →
            KeepsOlder D.says self.new older }
        // The journal that was the newest is one of them then.
        ensures closes { (was : Committed) (older : List (List (List ℕ))) → Stands D.says self.old was nothing →
            KeepsOlder D.says self.old older →
            OnOk result (KeepsOlder D.says self.new (older ++ was.groups ∷ [])) }

        ensures asked { OnOk result (D.says.calls (disk_of self.new) ≡ counted 5 (D.says.calls (disk_of self.old))) }
        ensures at_most { D.says.calls (disk_of self.new) ≤ counted 5 (D.says.calls (disk_of self.old)) }
        ensures only { OnOk result (D.says.faults (disk_of self.new) ≡ D.says.faults (disk_of self.old)) }
        ensures cause { HasCause (D.says.faults (disk_of self.old)) (D.says.faults (disk_of self.new)) result }
    {
        let next = self.end.generation + 1;
        self.disk.write_at(checkpoint_file(next), 0, checkpoint)?;
        write_through(&mut self.disk, journal_file(next), 0, b"@mx@\n")?;
        self.doubt = Doubt::Generation;
        write_through(&mut self.disk, ROOT, self.end.generation as u64, &[OPEN])?;
        self.doubt = Doubt::Nothing;
        self.end = End {
            generation: next,
            groups: 0,
            length: 0,
        };
        Ok(next)
    }
}

// The file of a generation's journal.
pub(crate) fn journal_file(generation: u32) -> u32
    requires { generation ≤ 4095 }
    ensures { result ≡ 1 + 2 * generation }
{
    1 + 2 * generation
}

// The file of a generation's checkpoint.
fn checkpoint_file(generation: u32) -> u32
    requires { generation ≤ 4095 }
    ensures { result ≡ 2 + 2 * generation }
{
    2 + 2 * generation
}
