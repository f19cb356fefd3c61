//! The rows of a generation: those of its checkpoint, changed by the groups of its journal.

ghost use Rattle.std.specs.Prelude.{◌≡◌, ◌≢◌, ◌≤◌, ◌<◌, ◌+◌, ◌-◌, ◌*◌, ◌^◌, ◌++◌, [], ◌∷◌, ℕ, List, length, take, IfOk, OnOk, Err};
ghost use Rattle.std.specs.Result.{IfErr};
ghost use Rattle.outside_api.specs.Disk.{Files};
ghost use Rattle.depot_rows.specs.db_records.declared.change.Change.{Change};
ghost use Rattle.disk_journal.specs.Images.{Begins};
ghost use Rattle.journal_groups.specs.Causes.{BeginsWanted};
ghost use Rattle.journal_groups.specs.Groups.{group_text};
ghost use Rattle.journal_groups.specs.Committed.{HasGroups};
ghost use Rattle.depot_rows.specs.table_changes.Changed.{AllFitIn, changed_by, no_rows};
ghost use Rattle.depot_rows.specs.table_changes.Drafts.{rows_of_draft};
ghost use Rattle.recovery.specs.Damage.{IsCheckpointDamage, IsJournalDamage};
ghost use Rattle.recovery.specs.Faults.{IfDamaged, IsOfFile, SaysNothing, UnlessFault};
ghost use Rattle.recovery.specs.Holding.{joined};
ghost use Rattle.recovery.specs.Looking.{OnlyReads, IsCause};
ghost use Rattle.recovery.specs.Pieces.{text_left, KnowsEnd, IsFirst, HasCome, IsBadPlace, IsTextDamage};
ghost use Rattle.recovery.specs.Reading.{IsCheckpoint, HasCheckpoint, HasJournal, HasPut, HasTaken};
ghost use Rattle.recovery.specs.declared.fault.OpenFault.TheVariants.{DiskFault};

use crate::fault::OpenFault;
use crate::pieces::FileGroups;
use crate::puts::{put_above, put_waiting};
use depot_rows::changes::TablesDraft;
use depot_rows::paths::{Sequence, Text};
use depot_rows::records::Change;
use depot_rows::tables::Tables;
use outside_api::Disk;
use std::alloc::{AllocError, Global};

/// How many groups a journal has, and how many bytes.
#[derive(Clone, Copy, Drop)]
pub(crate) struct JournalEnd {
    pub groups: u64,
    pub length: u64,
}

/// A draft without rows.
fn empty_draft(alloc: Global) -> Result<TablesDraft, AllocError>
    ensures { IfOk result (λ draft. rows_of_draft draft ≡ no_rows) }
{
    let tables = Tables::empty(alloc)?;
    TablesDraft::of(alloc, &tables)
}

/// Makes changes in a draft one after another as far as they fit, and answers how many it made. The one error is want
/// of memory, after which nothing is said of the draft.
pub fn make_fitting(
    alloc: Global,
    draft: &mut TablesDraft,
    changes: &[Change],
) -> Result<usize, AllocError>
    ensures within { IfOk result (λ n. n ≤ length changes.now) }
    ensures fit { IfOk result (λ n. AllFitIn (rows_of_draft draft.old) (take n changes.now)) }
    ensures rows { IfOk result (λ n. rows_of_draft draft.new ≡
        changed_by (rows_of_draft draft.old) (take n changes.now)) }
    ensures next { IfOk result (λ n. n < length changes.now →
        AllFitIn (rows_of_draft draft.old) (take (n + 1) changes.now) → ⊥) }
{
    for (i, change) in changes.iter().enumerate() {
        if !draft.fits(change) {
            return Ok(i);
        }
        draft.change(alloc, change)?;
    }
    Ok(changes.len())
}

/// Makes changes, which end where what was read of groups does.
fn make_changes(
    alloc: Global,
    groups: &FileGroups,
    draft: &mut TablesDraft,
    changes: &[Change],
) -> Result<(), OpenFault>
    ensures fit { OnOk result (AllFitIn (rows_of_draft draft.old) changes.now) }
    ensures rows { OnOk result (rows_of_draft draft.new ≡ changed_by (rows_of_draft draft.old) changes.now) }
    ensures damaged { IfDamaged result (IsBadPlace (AllFitIn (rows_of_draft draft.old)) groups.now changes.now) }
    ensures only { AllFitIn (rows_of_draft draft.old) changes.now → IfErr result SaysNothing }
    ensures fault { IfErr result (IsOfFile groups.now.file) }
    ensures no_disk { result ≢ Err DiskFault }
{
    let fitting = make_fitting(alloc, draft, changes)?;
    if fitting < changes.len() {
        let (_, others) = changes.split_at(fitting);
        return Err(groups.damaged_before(alloc, others));
    }
    Ok(())
}

/// Makes the changes of a group, which end where what was read of groups does, and keeps their rows.
fn take_changes(
    alloc: Global,
    groups: &FileGroups,
    draft: &mut TablesDraft,
    changes: Sequence<Change>,
) -> Result<(), OpenFault>
    ensures fit { OnOk result (AllFitIn (rows_of_draft draft.old) changes) }
    ensures rows { OnOk result (rows_of_draft draft.new ≡ changed_by (rows_of_draft draft.old) changes) }
    ensures damaged { IfDamaged result (IsBadPlace (AllFitIn (rows_of_draft draft.old)) groups.now changes) }
    ensures only { AllFitIn (rows_of_draft draft.old) changes → IfErr result SaysNothing }
    ensures fault { IfErr result (IsOfFile groups.now.file) }
    ensures no_disk { result ≢ Err DiskFault }
{
    let mut left = changes.into_vec();
    left.reverse();
    while let Some(change) = left.pop() {
        if !draft.fits(&change) {
            if left.push(change).is_err() {
                return Err(OpenFault::Memory);
            }
            left.reverse();
            return Err(groups.damaged_before(alloc, &left));
        }
        draft.take(alloc, change)?;
    }
    Ok(())
}

/// Takes the next record of a checkpoint, of which so many bytes are to come, makes its put in a draft, and answers how
/// many bytes are behind it.
fn put_next<D: Disk>(
    alloc: Global,
    disk: &mut D,
    groups: &mut FileGroups,
    piece: &mut [u8],
    size: u64,
    draft: &mut TablesDraft,
    last: &mut Option<Change>,
) -> Result<u64, OpenFault>
    requires room { 0 < length piece.old }
    requires some { 0 < size }
    requires taken { (generation : ℕ) ×
        ((puts : List Change) × (HasTaken (D.says.seen disk.old) generation groups.old size puts × HasPut puts last.old (rows_of_draft draft.old))) }
    ensures put { (generation : ℕ) (puts : List Change) →
        HasTaken (D.says.seen disk.old) generation groups.old size puts →
        HasPut puts last.old (rows_of_draft draft.old) →
        IfOk result (λ behind. (put : Change) ×
        (HasTaken (D.says.seen disk.old) generation groups.new behind (puts ++ put ∷ []) × HasPut (puts ++ put ∷ []) last.new (rows_of_draft draft.new))) }
    ensures less { IfOk result (λ behind. behind < size) }
    ensures damaged { (generation : ℕ) (puts : List Change) →
        HasTaken (D.says.seen disk.old) generation groups.old size puts →
        HasPut puts last.old (rows_of_draft draft.old) → generation ≤ 4095 →
        (files : Files) → D.says.seen disk.old files →
        IfDamaged result (IsCheckpointDamage generation (files (2 + 2 * generation))) }
    ensures file { groups.new.file ≡ groups.old.file }
    ensures fault { IfErr result (IsOfFile groups.old.file) }
    ensures reads { OnlyReads D.says disk.old disk.new }
    ensures unfailed { UnlessFault result (D.says.faults disk.new ≡ D.says.faults disk.old) }
    ensures cause { IsCause (D.says.faults disk.old) (D.says.faults disk.new) (result ≡ Err DiskFault) }
{
    let place = groups.place();
    match groups.next_record(alloc, disk, piece, size)? {
        Ok((change, behind)) => {
            if !put_above(alloc, draft, last, change)? {
                return Err(groups.damaged(place));
            }
            Ok(behind)
        }
        Err(place) => Err(groups.damaged(place)),
    }
}

/// Makes the puts of a checkpoint, of which so many bytes of records are to come, in a draft without rows.
fn put_all<D: Disk>(
    alloc: Global,
    disk: &mut D,
    groups: &mut FileGroups,
    piece: &mut [u8],
    size: u64,
    draft: &mut TablesDraft,
) -> Result<(), OpenFault>
    requires room { 0 < length piece.old }
    requires taken { (generation : ℕ) × HasTaken (D.says.seen disk.old) generation groups.old size [] }
    requires none { rows_of_draft draft.old ≡ no_rows }
    ensures rows { (generation : ℕ) → HasTaken (D.says.seen disk.old) generation groups.old size [] →
        OnOk result (HasCheckpoint (D.says.seen disk.old) generation (rows_of_draft draft.new)) }
    ensures damaged { (generation : ℕ) → HasTaken (D.says.seen disk.old) generation groups.old size [] →
        generation ≤ 4095 →
        (files : Files) → D.says.seen disk.old files →
        IfDamaged result (IsCheckpointDamage generation (files (2 + 2 * generation))) }
    ensures fault { IfErr result (IsOfFile groups.old.file) }
    ensures reads { OnlyReads D.says disk.old disk.new }
    ensures unfailed { UnlessFault result (D.says.faults disk.new ≡ D.says.faults disk.old) }
    ensures cause { IsCause (D.says.faults disk.old) (D.says.faults disk.new) (result ≡ Err DiskFault) }
{
    let mut last = None;
    let mut left = size;
    while left > 0 {
        match put_next(alloc, disk, groups, piece, left, draft, &mut last) {
            Ok(behind) => left = behind,
            Err(fault) => {
                drop(last);
                return Err(fault);
            }
        }
    }
    put_waiting(alloc, draft, last)?;
    Ok(())
}

/// The next group of a journal. Where its text can't be read on, the first of the records before that place
/// that doesn't fit is told.
fn next_changes<D: Disk>(
    alloc: Global,
    disk: &mut D,
    groups: &mut FileGroups,
    piece: &mut [u8],
    draft: &mut TablesDraft,
) -> Result<Option<Sequence<Change>>, OpenFault>
    requires room { 0 < length piece.old }
    ensures text { (files : Files) → D.says.seen disk.old files → KnowsEnd groups.old files →
        IfOk result (λ found. KnowsEnd groups.new files ×
        IsFirst groups.old.reader.number (text_left groups.old files) (text_left groups.new files) found) }
    ensures come { IfOk result (HasCome groups.old groups.new) }
    ensures file { (groups.new.file ≡ groups.old.file) × (groups.new.front ≡ groups.old.front) }
    ensures draft { IfOk result (λ found. rows_of_draft draft.new ≡ rows_of_draft draft.old) }
    ensures only { (files : Files) → D.says.seen disk.old files → KnowsEnd groups.old files →
        groups.old.reader.number < 2 ^ 64 → BeginsWanted groups.old.reader.number (text_left groups.old files) →
        IfErr result SaysNothing }
    ensures damaged { (files : Files) → D.says.seen disk.old files → KnowsEnd groups.old files →
        IfDamaged result (λ place. (found : ℕ) ×
        ((place ≡ found - groups.old.front) × IsTextDamage (AllFitIn (rows_of_draft draft.old)) groups.old.reader.number groups.old.reader.at (text_left groups.old files) found)) }
    ensures fault { IfErr result (IsOfFile groups.old.file) }
    ensures reads { OnlyReads D.says disk.old disk.new }
    ensures unfailed { UnlessFault result (D.says.faults disk.new ≡ D.says.faults disk.old) }
    ensures cause { IsCause (D.says.faults disk.old) (D.says.faults disk.new) (result ≡ Err DiskFault) }
{
    match groups.next(alloc, disk, piece)? {
        Ok(found) => Ok(found),
        Err(place) => {
            make_changes(alloc, groups, draft, groups.records())?;
            Err(groups.damaged(place))
        }
    }
}

/// The rows of the checkpoint of a generation.
pub(crate) fn read_checkpoint<D: Disk>(
    alloc: Global,
    disk: &mut D,
    generation: u32,
    piece: &mut [u8],
) -> Result<TablesDraft, OpenFault>
    requires room { 0 < length piece.old }
    requires last { generation ≤ 4095 }
    ensures rows { IfOk result (λ draft. HasCheckpoint (D.says.seen disk.old) generation (rows_of_draft draft)) }
    ensures only { (files : Files) (puts : List Change) → D.says.seen disk.old files →
        Begins (group_text generation puts) (files (2 + 2 * generation)) → IsCheckpoint puts →
        IfErr result SaysNothing }
    ensures damaged { (files : Files) → D.says.seen disk.old files →
        IfDamaged result (IsCheckpointDamage generation (files (2 + 2 * generation))) }
    ensures fault { IfErr result (IsOfFile (2 + 2 * generation)) }
    ensures reads { OnlyReads D.says disk.old disk.new }
    ensures unfailed { UnlessFault result (D.says.faults disk.new ≡ D.says.faults disk.old) }
    ensures cause { IsCause (D.says.faults disk.old) (D.says.faults disk.new) (result ≡ Err DiskFault) }
{
    let mut groups = FileGroups::open(
        disk,
        2 + 2 * generation,
        Text::new(alloc),
        generation as u64,
    )?;
    let size = match groups.next_head(alloc, disk, piece)? {
        Ok(size) => size,
        Err(place) => return Err(groups.damaged(place)),
    };
    let mut draft = empty_draft(alloc)?;
    put_all(alloc, disk, &mut groups, piece, size, &mut draft)?;
    Ok(draft)
}

/// Makes the changes of the journal of a generation.
pub(crate) fn read_journal<D: Disk>(
    alloc: Global,
    disk: &mut D,
    generation: u32,
    piece: &mut [u8],
    draft: &mut TablesDraft,
) -> Result<JournalEnd, OpenFault>
    requires room { 0 < length piece.old }
    requires last { generation ≤ 4095 }
    ensures rows { IfOk result (λ end. HasJournal (D.says.seen disk.old) (1 + 2 * generation) end (rows_of_draft draft.old) (rows_of_draft draft.new)) }
    ensures only { (files : Files) (groups : List (List Change)) → D.says.seen disk.old files →
        HasGroups 1 (files (1 + 2 * generation)) groups → AllFitIn (rows_of_draft draft.old) (joined groups) →
        IfErr result SaysNothing }
    ensures damaged { (files : Files) → D.says.seen disk.old files →
        IfDamaged result (IsJournalDamage (rows_of_draft draft.old) (files (1 + 2 * generation))) }
    ensures fault { IfErr result (IsOfFile (1 + 2 * generation)) }
    ensures reads { OnlyReads D.says disk.old disk.new }
    ensures unfailed { UnlessFault result (D.says.faults disk.new ≡ D.says.faults disk.old) }
    ensures cause { IsCause (D.says.faults disk.old) (D.says.faults disk.new) (result ≡ Err DiskFault) }
{
    let mut groups = FileGroups::open(disk, 1 + 2 * generation, Text::new(alloc), 1)?;
    let mut count = 0u64;
    while let Some(changes) = next_changes(alloc, disk, &mut groups, piece, draft)? {
        take_changes(alloc, &groups, draft, changes)?;
        count += 1;
    }
    Ok(JournalEnd {
        groups: count,
        length: groups.place(),
    })
}
