//! The revisions of a file that aren't integrated into another one yet (Command-Line Reference, "p4 integrate").

ghost use Rattle.std.specs.Prelude.{◌≡◌, List, IfOk, Some, filter, if◌then◌else◌, not};
ghost use Rattle.std.specs.List.{list_any};
ghost use Rattle.depot_rows.specs.table_changes.Changed.{rows_of};
ghost use Rattle.depot_rows.specs.depot_model.Deeds.{Deed};
ghost use Rattle.depot_rows.specs.depot_model.Steps.Integrating as model;
ghost use Rattle.integ_records.specs.Crediting.{is_within};
ghost use Rattle.integ_records.specs.Ends.{ends_of, last_in, widened as widened_by};
ghost use Rattle.integ_records.specs.Reading.{Reads};

use crate::crediting::{Span, credits_of, is_in};
use depot_rows::model::Caller;
use depot_rows::paths::{DepotPath, Wanted};
use depot_rows::tables::Tables;
use named_files::Asker;
use revision_reads::in_range;
use std::alloc::{AllocError, Global};

/// The ends of revisions with a further one behind them.
fn widened(ends: Option<Span>, rev: u32) -> Span
    ensures { result ≡ widened_by ends rev }
{
    match ends {
        Some(ends) => Span {
            first: ends.first,
            last: rev,
        },
        None => Span {
            first: rev,
            last: rev,
        },
    }
}

/// The ends of revisions with a further one behind them, unless it is one of some spans.
fn widened_outside(ends: Option<Span>, spans: &[Span], rev: u32) -> Option<Span>
    ensures { result ≡ (if not (list_any (is_within rev) spans.now) then Some (widened_by ends rev) else ends) }
{
    let credited = is_in(spans, rev);
    if credited {
        ends
    } else {
        Some(widened(ends, rev))
    }
}

/// The first and the last of the revisions that are in no span, None exactly where there are none. It takes no memory.
fn ends_outside(revs: &[u32], spans: &[Span]) -> Option<Span>
    ensures { result ≡ ends_of (filter (λ n. not (list_any (is_within n) spans.now)) revs.now) }
{
    let mut ends = None;
    for rev in revs {
        ends = widened_outside(ends, spans, *rev);
    }
    ends
}

/// The first and the last of the revisions of a source that are wanted and aren't integrated into its target yet, None
/// exactly where there are none. It reads the source's revisions and the target's integration records. The one error is
/// want of memory.
pub(crate) fn ends_wanted(
    alloc: Global,
    tables: &Tables,
    caller: &Caller,
    asker: &Asker,
    wanted: &Wanted,
    from: &DepotPath,
    to: &DepotPath,
) -> Result<Option<Span>, AllocError>
    ensures { IfOk result (λ ends. (d : List Deed) → Reads caller.now asker.now (rows_of tables.now) d →
        ends ≡ ends_of (model.uncredited d caller.now wanted.now from.now to.now)) }
{
    let spans = credits_of(alloc, tables, from, to)?;
    let revs = in_range(alloc, tables, caller, from, wanted)?;
    let known = spans.as_slice();
    let ends = ends_outside(&revs, known);
    Ok(ends)
}

/// The last of the revisions with these ends, 0 where there are none.
pub(crate) fn last_of(ends: Option<Span>) -> u32
    ensures { result ≡ last_in ends }
{
    match ends {
        Some(ends) => ends.last,
        None => 0,
    }
}
