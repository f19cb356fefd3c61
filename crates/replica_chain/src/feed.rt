//! Reading the groups of a feed, and making their changes. Nothing is cut.

ghost use Rattle.std.specs.Prelude.{◌≡◌, ◌+◌, ◌<◌, ◌^◌, length, IfOk, OnOk};
ghost use Rattle.std.specs.Result.{IfErr};
ghost use Rattle.depot_rows.specs.table_changes.Changed.{AllFitIn, changed_by, rows_of};
ghost use Rattle.depot_rows.specs.table_changes.Drafts.{rows_of_draft};
ghost use Rattle.replica_pull.specs.Feed.{IsBadPlace, IsFirstMisfit, IsNextOf};
ghost use Rattle.replica_chain.specs.Feed.{IfBadFeed, IsOfFeed};

use crate::fault::NodeFault;
use depot_rows::changes::TablesDraft;
use depot_rows::paths::Sequence;
use depot_rows::records::Change;
use depot_rows::tables::Tables;
use journal_groups::{GroupFault, GroupReader};
use recovery::make_fitting;
use replica_pull::place_before;
use std::alloc::Global;

/// Makes changes that end at a place of the feed. The place of the first that doesn't fit is told.
fn make_changes(
    alloc: Global,
    draft: &mut TablesDraft,
    changes: &[Change],
    end: u64,
) -> Result<(), NodeFault>
    ensures fit { OnOk result (AllFitIn (rows_of_draft draft.old) changes.now) }
    ensures rows { OnOk result (rows_of_draft draft.new ≡ changed_by (rows_of_draft draft.old) changes.now) }
    ensures bad { IfBadFeed result (IsFirstMisfit (AllFitIn (rows_of_draft draft.old)) changes.now end) }
    ensures only { IfErr result IsOfFeed }
{
    let fitting = make_fitting(alloc, draft, changes)?;
    if fitting < changes.len() {
        let (_, others) = changes.split_at(fitting);
        let place = place_before(alloc, end, others)?;
        return Err(NodeFault::BadFeed(place));
    }
    Ok(())
}

/// The tables after changes that end at a place of the feed. The place of the first that doesn't fit is told.
pub(crate) fn tables_after(
    alloc: Global,
    tables: &Tables,
    changes: &[Change],
    end: u64,
) -> Result<Tables, NodeFault>
    ensures fit { OnOk result (AllFitIn (rows_of tables.now) changes.now) }
    ensures rows { IfOk result (λ made. rows_of made ≡ changed_by (rows_of tables.now) changes.now) }
    ensures bad { IfBadFeed result (IsFirstMisfit (AllFitIn (rows_of tables.now)) changes.now end) }
    ensures only { IfErr result IsOfFeed }
{
    let mut draft = TablesDraft::of(alloc, tables)?;
    make_changes(alloc, &mut draft, changes, end)?;
    let made = draft.finish(alloc)?;
    Ok(made)
}

/// Checks that the records that were read of a group that isn't whole yet fit the tables.
pub(crate) fn check_rest(
    alloc: Global,
    reader: &GroupReader,
    tables: &Tables,
) -> Result<(), NodeFault>
    ensures fit { OnOk result (AllFitIn (rows_of tables.now) reader.now.records) }
    ensures bad { IfBadFeed result (IsFirstMisfit (AllFitIn (rows_of tables.now)) reader.now.records reader.now.reached) }
    ensures only { IfErr result IsOfFeed }
{
    let made = tables_after(alloc, tables, reader.records(), reader.reached())?;
    drop(made);
    Ok(())
}

/// The next group, or nothing where it isn't whole yet. Where no group can come any more, the place is told.
pub(crate) fn next_changes(
    alloc: Global,
    reader: &mut GroupReader,
    tables: &Tables,
) -> Result<Option<Sequence<Change>>, NodeFault>
    requires short { reader.old.at + length reader.old.left < 2 ^ 63 }
    ensures found { IfOk result (IsNextOf reader.old reader.new) }
    ensures bad { IfBadFeed result (IsBadPlace (AllFitIn (rows_of tables.now)) reader.old) }
    ensures only { IfErr result IsOfFeed }
{
    match reader.next(alloc) {
        Ok(Some(changes)) => Ok(Some(changes)),
        Ok(None) => Err(NodeFault::BadFeed(reader.place() + 1)),
        Err(GroupFault::Memory) => Err(NodeFault::Memory),
        Err(GroupFault::Short(_)) => Ok(None),
        Err(GroupFault::BadGroup(place)) => {
            check_rest(alloc, reader, tables)?;
            Err(NodeFault::BadFeed(place))
        }
    }
}
