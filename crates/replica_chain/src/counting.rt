//! How many groups and bytes the generations of a journal have.

ghost use Rattle.std.specs.Prelude.{◌≡◌, ◌+◌, ◌*◌, ◌<◌, ◌≤◌, ◌^◌, ◌++◌, [], ℕ, List, length, Err, IfOk, IfSome, OnErr, OnOk};
ghost use Rattle.std.specs.List.{AllByRecursion, concat};
ghost use Rattle.std.specs.Result.{IfErr};
ghost use Rattle.depot_rows.specs.db_records.declared.change.Change.{Change as AnyChange};
ghost use Rattle.disk_journal.specs.Scanned.{HasScanned};
ghost use Rattle.disk_journal.specs.Stands.{disk_of, generation_of_journal};
ghost use Rattle.journal_groups.specs.Groups.{IsGroup, groups_text};
ghost use Rattle.journal_groups.specs.Reader.{IsLeft};
ghost use Rattle.outside_api.specs.Link.{text_of};
ghost use Rattle.recovery.specs.Faults.{SaysNothing};
ghost use Rattle.recovery.specs.Looking.{IsCause};
ghost use Rattle.recovery.specs.declared.fault.OpenFault.TheVariants.{DiskFault};
ghost use Rattle.replica_chain.specs.Chronicle.{Chronicle, changes_of, generations_of, texts_of};
ghost use Rattle.replica_pull.specs.Prefix.{HasNoGroup};
ghost use Rattle.replica_chain.specs.Counting.{HasCounted, IsFound, IsNextGroupOf};
ghost use Rattle.replica_chain.specs.Ends.{HasTexts, IsLooked};

use depot_rows::paths::{Sequence, Text};
use depot_rows::records::Change;
use disk_journal::{Journal, Scanned};
use journal_groups::{GroupFault, GroupReader};
use outside_api::{Disk, Fetched};
use recovery::OpenFault;
use std::alloc::{AllocError, Global};

/// How many bytes of a journal are read at a time.
const PIECE: usize = 1_048_576;

/// How many bytes all generations may have together.
const MOST: u64 = 0x7FFF_FFFF_FFFF_FFFF;

/// How many groups there are in some generations, and how many bytes their texts have.
#[derive(Clone, Copy, Drop)]
pub(crate) struct Count {
    pub groups: u64,
    pub bytes: u64,
    ghost few: { 5 * groups ≤ bytes },
    ghost short: { bytes < 2 ^ 63 },
}

/// What was counted.
#[derive(Clone, Copy, Drop)]
pub(crate) struct Counts {
    /// The generations before the newest.
    pub before: Count,
    pub newest: Count,
    ghost short: { before.bytes + newest.bytes < 2 ^ 63 },
}

/// The groups and bytes of a generation that were read so far.
pub(crate) struct Counter {
    reader: GroupReader,
    groups: u64,
    bytes: u64,
    ghost so_far: { reader.at + Rattle.std.specs.Prelude.length reader.left ≡ bytes },
    ghost few: { 5 * groups ≤ reader.at },
    ghost short: { bytes < 2 ^ 63 },
}

impl Drop for Counter {
    fn drop(self) {
        let Counter {
            reader: _,
            groups: _,
            bytes: _,
        } = self;
    }
}

/// The next group of a text, or nothing where none is whole yet or can come any more.
fn next_group(
    alloc: Global,
    reader: &mut GroupReader,
) -> Result<Option<Sequence<Change>>, AllocError>
    ensures taken { IfOk result (IsNextGroupOf reader.old reader.new) }
    ensures kept { OnErr result (IsLeft reader.old reader.new) }
{
    match reader.next(alloc) {
        Ok(found) => Ok(found),
        Err(GroupFault::Memory) => Err(AllocError),
        Err(GroupFault::BadGroup(_)) => Ok(None),
        Err(GroupFault::Short(_)) => Ok(None),
    }
}

impl Counter {
    fn new(alloc: Global) -> Counter
        ensures counted { HasCounted [] result.reader result.groups }
        ensures none { HasNoGroup result.reader.number result.reader.left }
        ensures bytes { result.bytes ≡ 0 }
    {
        Counter {
            reader: GroupReader::new(Text::new(alloc), 0, 1),
            groups: 0,
            bytes: 0,
        }
    }

    /// Counts the groups that are whole now.
    fn count_groups(&mut self, alloc: Global) -> Result<(), AllocError>
        ensures counted { (text : List ℕ) → HasCounted text self.old.reader self.old.groups →
            OnOk result (HasCounted text self.new.reader self.new.groups) }
        ensures none { OnOk result (HasNoGroup self.new.reader.number self.new.reader.left) }
        ensures bytes { self.new.bytes ≡ self.old.bytes }
    {
        while let Some(changes) = next_group(alloc, &mut self.reader)? {
            drop(changes);
            self.groups += 1;
        }
        Ok(())
    }

    /// Takes the next bytes.
    fn take(&mut self, alloc: Global, piece: &[u8]) -> Result<(), AllocError>
        ensures counted { (text : List ℕ) → HasCounted text self.old.reader self.old.groups →
            OnOk result (HasCounted (text ++ piece.now) self.new.reader self.new.groups) }
        ensures none { OnOk result (HasNoGroup self.new.reader.number self.new.reader.left) }
        ensures bytes { OnOk result (self.new.bytes ≡ self.old.bytes + length piece.now) }
    {
        if piece.len() as u64 > MOST - self.bytes {
            return Err(AllocError);
        }
        self.reader.more(alloc, piece)?;
        self.bytes += piece.len() as u64;
        self.count_groups(alloc)?;
        Ok(())
    }
}

/// How many bytes of a generation stand at the front of a buffer, if any stand from a place on.
fn fetch_some<D: Disk>(
    journal: &mut Journal<D>,
    scanned: &mut Scanned,
    generation: u32,
    at: u64,
    buffer: &mut [u8],
) -> Result<Option<usize>, OpenFault>
    requires room { 0 < length buffer.old }
    ensures some { IfOk result (λ found. IfSome found (λ n. (0 < n) × (n ≤ length buffer.new))) }
    ensures told { (texts : List (List ℕ)) → HasTexts D.says journal.old texts →
        HasScanned D.says (disk_of journal.old) scanned.old →
        IfOk result (IsFound (text_of texts generation) at buffer.new) }
    ensures scanned { HasScanned D.says (disk_of journal.old) scanned.old →
        HasScanned D.says (disk_of journal.new) scanned.new }
    ensures only { IfErr result SaysNothing }
    ensures looked { IsLooked D.says journal.old journal.new }
    ensures cause { IsCause (D.says.faults (disk_of journal.old)) (D.says.faults (disk_of journal.new))
        (result ≡ Err DiskFault) }
{
    match journal.fetch_on(scanned, generation, at, buffer) {
        Ok(Fetched::Bytes(count)) => {
            if count == 0 {
                return Ok(None);
            }
            Ok(Some(count))
        }
        Ok(Fetched::End) => Ok(None),
        Ok(Fetched::Next) => Ok(None),
        Err(_) => Err(OpenFault::DiskFault),
    }
}

/// Counts the groups and bytes of a generation, through a buffer. As many bytes as all files together can't have are
/// answered as want of memory.
fn count_generation<D: Disk>(
    alloc: Global,
    journal: &mut Journal<D>,
    generation: u32,
    buffer: &mut [u8],
) -> Result<Count, OpenFault>
    requires room { 0 < length buffer.old }
    // Of a generation whose text is that of groups.
    ensures counted { (texts : List (List ℕ)) (groups : List (List AnyChange)) → HasTexts D.says journal.old texts →
        text_of texts generation ≡ groups_text 1 groups → AllByRecursion IsGroup groups →
        IfOk result (λ count. (count.groups ≡ length groups) × (count.bytes ≡ length (groups_text 1 groups))) }
    ensures only { IfErr result SaysNothing }
    ensures looked { IsLooked D.says journal.old journal.new }
    ensures cause { IsCause (D.says.faults (disk_of journal.old)) (D.says.faults (disk_of journal.new))
        (result ≡ Err DiskFault) }
{
    let mut scanned = Scanned::nothing();
    let mut counter = Counter::new(alloc);
    while let Some(count) = fetch_some(journal, &mut scanned, generation, counter.bytes, buffer)? {
        counter.take(alloc, &buffer[..count])?;
    }
    let count = Count {
        groups: counter.groups,
        bytes: counter.bytes,
    };
    drop(counter);
    Ok(count)
}

/// The one, with those of a generation behind it. As many bytes as all files together can't have are answered as want
/// of memory.
fn counted_on(before: Count, more: Count) -> Result<Count, AllocError>
    ensures { IfOk result (λ count. (count.groups ≡ before.groups + more.groups) ×
        (count.bytes ≡ before.bytes + more.bytes)) }
{
    if more.bytes > MOST - before.bytes {
        return Err(AllocError);
    }
    Ok(Count {
        groups: before.groups + more.groups,
        bytes: before.bytes + more.bytes,
    })
}

/// Counts the groups and bytes of all generations, through a buffer.
fn count_through<D: Disk>(
    alloc: Global,
    journal: &mut Journal<D>,
    buffer: &mut [u8],
) -> Result<Counts, OpenFault>
    requires room { 0 < length buffer.old }
    ensures counted { (c : Chronicle) → HasTexts D.says journal.old (texts_of c) →
        generation_of_journal journal.old ≡ length c.closed →
        AllByRecursion (AllByRecursion IsGroup) (generations_of c) →
        IfOk result (λ counts. (counts.before.bytes + counts.newest.bytes ≡ length (concat (texts_of c))) ×
        (counts.newest.bytes ≡ length (groups_text 1 c.newest))
        × (counts.newest.groups ≡ length c.newest) ×
        (counts.before.groups + counts.newest.groups + length c.closed ≡ length (changes_of c))) }
    ensures only { IfErr result SaysNothing }
    ensures looked { IsLooked D.says journal.old journal.new }
    ensures cause { IsCause (D.says.faults (disk_of journal.old)) (D.says.faults (disk_of journal.new))
        (result ≡ Err DiskFault) }
{
    let last = journal.generation();
    let mut before = Count {
        groups: 0,
        bytes: 0,
    };
    for generation in 0..last {
        let more = count_generation(alloc, journal, generation, buffer)?;
        before = counted_on(before, more)?;
    }
    let newest = count_generation(alloc, journal, last, buffer)?;
    counted_on(before, newest)?;
    Ok(Counts { before, newest })
}

/// Counts the groups and bytes of all generations. Of a generation whose file wasn't written as a journal's is, nothing
/// is said.
pub(crate) fn count_journal<D: Disk>(
    alloc: Global,
    journal: &mut Journal<D>,
) -> Result<Counts, OpenFault>
    ensures counted { (c : Chronicle) → HasTexts D.says journal.old (texts_of c) →
        generation_of_journal journal.old ≡ length c.closed →
        AllByRecursion (AllByRecursion IsGroup) (generations_of c) →
        IfOk result (λ counts. (counts.before.bytes + counts.newest.bytes ≡ length (concat (texts_of c))) ×
        (counts.newest.bytes ≡ length (groups_text 1 c.newest))
        × (counts.newest.groups ≡ length c.newest) ×
        (counts.before.groups + counts.newest.groups + length c.closed ≡ length (changes_of c))) }
    ensures only { IfErr result SaysNothing }
    ensures looked { IsLooked D.says journal.old journal.new }
    ensures cause { IsCause (D.says.faults (disk_of journal.old)) (D.says.faults (disk_of journal.new))
        (result ≡ Err DiskFault) }
{
    let mut buffer = vec![in alloc; 0u8; PIECE]?;
    let counts = count_through(alloc, journal, buffer.as_mut_slice());
    counts
}
