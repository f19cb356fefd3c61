//! Taking whole groups, cut to a filter.

ghost use Rattle.std.specs.Prelude.{◌≡◌, ◌+◌, ◌-◌, ◌<◌, ◌≤◌, ◌^◌, List, length, take, IfOk, OnOk};
ghost use Rattle.std.specs.Result.{IfErr};
ghost use Rattle.depot_rows.specs.db_records.declared.change.Change.{Change};
ghost use Rattle.journal_groups.specs.Causes.{GoesOn};
ghost use Rattle.journal_groups.specs.Groups.{body_of};
ghost use Rattle.journal_groups.specs.Reader.{BeginsAt, HasRecords};
ghost use Rattle.recovery.specs.Pieces.{AreAllGood};
ghost use Rattle.depot_rows.specs.table_changes.Changed.{rows_of};
ghost use Rattle.depot_rows.specs.table_changes.Drafts.{rows_of_draft};
ghost use Rattle.replica_pull.specs.Feed.{Fit, changed_cut, HasMade, HasMadeOne, AreTaken, IsNextOf, IsBadFeed, IsBadPlace, IsFirstMisfit, IfBadFeed, IsOfFeed};

use crate::cut::cut_change;
use crate::fault::PullFault;
use depot_rows::changes::TablesDraft;
use depot_rows::model::Filter;
use depot_rows::paths::Sequence;
use depot_rows::records::Change;
use depot_rows::tables::Tables;
use journal_groups::{GroupFault, GroupReader};
use record_text::print_record;
use std::alloc::{AllocError, Global};

/// Makes a change if it fits, and answers whether it did.
pub(crate) fn make_one(
    alloc: Global,
    draft: &mut TablesDraft,
    change: &Change,
) -> Result<bool, AllocError>
    ensures made { IfOk result (HasMadeOne (rows_of_draft draft.old) (rows_of_draft draft.new) change.now) }
    ensures end { draft.new.archive_end ≡ draft.old.archive_end }
{
    if !draft.fits(change) {
        return Ok(false);
    }
    draft.change(alloc, change)?;
    Ok(true)
}

/// Makes a change, cut to the filter, if it fits, and answers whether it did.
fn make_change(
    alloc: Global,
    filter: &Filter,
    draft: &mut TablesDraft,
    change: &Change,
) -> Result<bool, AllocError>
    ensures { IfOk result (HasMade filter.now (rows_of_draft draft.old) (rows_of_draft draft.new) change.now) }
{
    match cut_change(alloc, filter, change)? {
        None => Ok(true),
        Some(cut) => {
            let made = make_one(alloc, draft, &cut)?;
            Ok(made)
        }
    }
}

/// Makes changes, cut to the filter, one after another as far as they fit, and answers how many it made.
fn make_fitting(
    alloc: Global,
    filter: &Filter,
    draft: &mut TablesDraft,
    changes: &[Change],
) -> Result<usize, AllocError>
    ensures within { IfOk result (λ n. n ≤ length changes.now) }
    ensures fit { IfOk result (λ n. Fit filter.now (rows_of_draft draft.old) (take n changes.now)) }
    ensures rows { IfOk result (λ n. rows_of_draft draft.new ≡
        changed_cut filter.now (rows_of_draft draft.old) (take n changes.now)) }
    ensures next { IfOk result (λ n. n < length changes.now →
        Fit filter.now (rows_of_draft draft.old) (take (n + 1) changes.now) → ⊥) }
{
    for (i, change) in changes.iter().enumerate() {
        let made = make_change(alloc, filter, draft, change)?;
        if !made {
            return Ok(i);
        }
    }
    Ok(changes.len())
}

/// The place where changes begin that end at a place. The one error is want of memory.
pub fn place_before(alloc: Global, end: u64, changes: &[Change]) -> Result<u64, AllocError>
    ensures { IfOk result (λ place. place ≡ end - length (body_of changes.now)) }
{
    let mut place = end;
    for change in changes {
        let text = print_record(alloc, change.op, &change.row)?;
        place = place.saturating_sub(text.len() as u64);
    }
    Ok(place)
}

/// Makes changes that end at a place of the feed, cut to the filter. The place of the first that doesn't
/// fit is told.
fn make_changes(
    alloc: Global,
    filter: &Filter,
    draft: &mut TablesDraft,
    changes: &[Change],
    end: u64,
) -> Result<(), PullFault>
    ensures fit { OnOk result (Fit filter.now (rows_of_draft draft.old) changes.now) }
    ensures rows { OnOk result (rows_of_draft draft.new ≡
        changed_cut filter.now (rows_of_draft draft.old) changes.now) }
    ensures bad { IfBadFeed result (IsFirstMisfit (Fit filter.now (rows_of_draft draft.old)) changes.now end) }
    ensures only { IfErr result IsOfFeed }
{
    let fitting = make_fitting(alloc, filter, draft, changes)?;
    if fitting < changes.len() {
        let (_, others) = changes.split_at(fitting);
        let place = place_before(alloc, end, others)?;
        return Err(PullFault::BadFeed(place));
    }
    Ok(())
}

/// Takes the next group, or nothing where it isn't whole yet. Where no group can come any more, the place
/// is told.
fn next_changes(
    alloc: Global,
    filter: &Filter,
    reader: &mut GroupReader,
    draft: &mut TablesDraft,
) -> Result<Option<Sequence<Change>>, PullFault>
    requires short { reader.old.at + length reader.old.left < 2 ^ 63 }
    ensures found { IfOk result (IsNextOf reader.old reader.new) }
    ensures draft { IfOk result (λ found. rows_of_draft draft.new ≡ rows_of_draft draft.old) }
    ensures bad { IfBadFeed result (IsBadPlace (Fit filter.now (rows_of_draft draft.old)) reader.old) }
    ensures only { IfErr result IsOfFeed }
{
    match reader.next(alloc) {
        Ok(Some(changes)) => Ok(Some(changes)),
        Ok(None) => Err(PullFault::BadFeed(reader.place() + 1)),
        Err(GroupFault::Memory) => Err(PullFault::Memory),
        Err(GroupFault::Short(_)) => Ok(None),
        Err(GroupFault::BadGroup(place)) => {
            make_changes(alloc, filter, draft, reader.records(), reader.reached())?;
            Err(PullFault::BadFeed(place))
        }
    }
}

/// Takes whole groups from the front and makes their changes, cut to the filter, until what is left may
/// still become a group. It answers how many there were.
fn take_groups(
    alloc: Global,
    filter: &Filter,
    reader: &mut GroupReader,
    draft: &mut TablesDraft,
) -> Result<u64, PullFault>
    requires short { reader.old.at + length reader.old.left < 2 ^ 63 }
    ensures taken { IfOk result (λ n. (groups : List (List Change)) ×
        ((n ≡ length groups) × AreTaken filter.now reader.old (rows_of_draft draft.old) groups reader.new (rows_of_draft draft.new))) }
    ensures waits { IfOk result (λ n. GoesOn reader.new.number reader.new.left) }
    ensures records { IfOk result (λ n. HasRecords reader.new.number reader.new.at reader.new.left reader.new.records reader.new.reached) }
    ensures bad { IfBadFeed result (IsBadFeed filter.now reader.old (rows_of_draft draft.old)) }
    ensures only { IfErr result IsOfFeed }
{
    let mut count = 0u64;
    while let Some(changes) = next_changes(alloc, filter, reader, draft)? {
        make_changes(alloc, filter, draft, changes.as_slice(), reader.reached())?;
        count += 1;
    }
    Ok(count)
}

/// Checks that the records that were read of a group that isn't whole yet fit tables, cut to the filter.
fn check_rest(
    alloc: Global,
    filter: &Filter,
    reader: &GroupReader,
    tables: &Tables,
) -> Result<(), PullFault>
    ensures fit { OnOk result (Fit filter.now (rows_of tables.now) reader.now.records) }
    ensures bad { IfBadFeed result (IsFirstMisfit (Fit filter.now (rows_of tables.now)) reader.now.records reader.now.reached) }
    ensures only { IfErr result IsOfFeed }
{
    let mut draft = TablesDraft::of(alloc, tables)?;
    make_changes(
        alloc,
        filter,
        &mut draft,
        reader.records(),
        reader.reached(),
    )?;
    Ok(())
}

/// What was taken of a feed.
#[derive(Drop)]
pub struct Taken {
    /// The tables after its changes.
    pub tables: Tables,
    /// How many groups there were.
    pub groups: u64,
}

/// Takes whole groups from the front of a feed and makes their changes in tables, cut to the filter. What
/// is left may still become a group, and those of its records that are there fit.
pub fn take_feed(
    alloc: Global,
    filter: &Filter,
    tables: &Tables,
    reader: &mut GroupReader,
) -> Result<Taken, PullFault>
    requires short { reader.old.at + length reader.old.left < 2 ^ 63 }
    ensures taken { IfOk result (λ taken. (groups : List (List Change)) ×
        ((taken.groups ≡ length groups) × AreTaken filter.now reader.old (rows_of tables.now) groups reader.new (rows_of taken.tables))) }
    ensures waits { IfOk result (λ taken. GoesOn reader.new.number reader.new.left) }
    ensures fit { IfOk result (λ taken. AreAllGood (Fit filter.now (rows_of taken.tables)) (BeginsAt reader.new.number reader.new.at reader.new.left)) }
    ensures bad { IfBadFeed result (IsBadFeed filter.now reader.old (rows_of tables.now)) }
    ensures only { IfErr result IsOfFeed }
{
    let mut draft = TablesDraft::of(alloc, tables)?;
    let groups = take_groups(alloc, filter, reader, &mut draft)?;
    let tables = draft.finish(alloc)?;
    let checked = check_rest(alloc, filter, reader, &tables);
    match checked {
        Ok(()) => Ok(Taken { tables, groups }),
        Err(fault) => {
            drop(tables);
            Err(fault)
        }
    }
}
