//! The targets that `integrate` opens (Command-Line Reference, "p4 integrate").

ghost use Rattle.std.specs.Prelude.{◌≡◌, ◌∷◌, [], List, IfOk, Some, None, option_map};
ghost use Rattle.depot_rows.specs.db_records.declared.table.TableId.TheVariants as table_ids;
ghost use Rattle.depot_rows.specs.table_changes.Changed.{AllRows, rows_of};
ghost use Rattle.depot_rows.specs.depot_model.declared.refusal.Refusal.TheVariants as refusals;
ghost use Rattle.depot_rows.specs.depot_model.Deeds.{Deed};
ghost use Rattle.depot_rows.specs.depot_model.Revisions.{head};
ghost use Rattle.depot_rows.specs.depot_model.Rules.{IsSound};
ghost use Rattle.depot_rows.specs.depot_model.Step.{refuses};
ghost use Rattle.depot_rows.specs.depot_model.Steps.Integrating as model;
ghost use Rattle.depot_rows.specs.Deed.{action_of, how_of, opening_of as opening_of_deed, source_of};
ghost use Rattle.depot_rows.specs.Standing.{HasRows};
ghost use Rattle.depot_rows.specs.declared.deed.Deed.TheVariants as done_deeds;
ghost use Rattle.reply_rows.specs.Made.{IsMade, does as done_with};
ghost use Rattle.integ_records.specs.Ways.{by_ends, paid_step, way_in, way_step};

use crate::crediting::Span;
use depot_rows::model::{Caller, Row};
use depot_rows::paths::{DepotPath, Text};
use depot_rows::tables::Tables;
use depot_rows::{Action, Held, How, Opening, Owing, Source};
use opening_parts::{action_word, own_name, own_path, type_of};
use opening_reads::held;
use reply_rows::{RowBuilder, Step, all_integrated_row};
use revision_reads::{head_of, is_live_at, is_live_head, revision_of};
use std::alloc::{AllocError, Global};

/// What is done with a target.
#[derive(Clone, Copy)]
pub(crate) enum Way {
    /// Live revisions go into a live file.
    Integrate,
    /// Live revisions make a file.
    Branch,
    /// A deleted revision deletes a live file.
    Delete,
}

/// A source and its target, as a caller integrates them.
#[derive(Drop)]
pub(crate) struct Pair<'a> {
    pub(crate) caller: &'a Caller,
    /// The changelist that is named.
    pub(crate) change: Option<u32>,
    pub(crate) from: &'a DepotPath,
    pub(crate) to: &'a DepotPath,
}

/// What is done with a target, None exactly where both files are deleted.
fn way_of(source_live: bool, target_live: bool) -> Option<Way>
    ensures { result ≡ way_in source_live target_live }
{
    if source_live {
        if target_live {
            Some(Way::Integrate)
        } else {
            Some(Way::Branch)
        }
    } else if target_live {
        Some(Way::Delete)
    } else {
        None
    }
}

/// The type of a revision of a file.
fn type_at(alloc: Global, tables: &Tables, path: &DepotPath, rev: u32) -> Result<Text, AllocError>
    ensures { IfOk result (λ text. (d : List Deed) → HasRows (rows_of tables.now) d table_ids.Rev →
        text ≡ model.type_at d path.now rev) }
{
    let row = revision_of(alloc, tables, path, rev)?;
    let file_type = type_of(alloc, row)?;
    Ok(file_type)
}

/// The type with which a target is opened: its own, or that of the source's last revision where it isn't live. The one
/// error, here and below, is want of memory.
pub(crate) fn new_type(
    alloc: Global,
    tables: &Tables,
    from: &DepotPath,
    to: &DepotPath,
    last: u32,
) -> Result<Text, AllocError>
    ensures { IfOk result (λ text. (d : List Deed) → IsSound d → HasRows (rows_of tables.now) d table_ids.Rev →
        text ≡ model.new_type d from.now to.now last) }
{
    let live = is_live_head(alloc, tables, to)?;
    if live {
        let rev = head_of(alloc, tables, to)?;
        let own = type_at(alloc, tables, to, rev)?;
        return Ok(own);
    }
    let file_type = type_at(alloc, tables, from, last)?;
    Ok(file_type)
}

/// The opening of a target over its head.
fn opening_over(
    pair: &Pair<'_>,
    base: u32,
    action: Action,
    file_type: Text,
    source: Option<Source>,
) -> Result<Opening, AllocError>
    ensures over_head { IfOk result (λ opening. (d : List Deed) → base ≡ head d pair.now.to.now →
        opening_of_deed opening ≡ model.opening d pair.now.caller.now pair.now.change (action_of action) file_type pair.now.to.now (option_map source_of source)) }
    ensures of_target { IfOk result (λ opening. opening.path ≡ pair.now.to.now) }
{
    let client = own_name(&pair.caller.client)?;
    let path = own_path(pair.to)?;
    let change = pair.change.unwrap_or(0);
    Ok(Opening {
        client,
        path,
        base,
        action,
        file_type,
        change,
        source,
        moved: None,
    })
}

/// The resolve of a target.
fn owing(pair: &Pair<'_>, ends: Span) -> Result<Owing, AllocError>
    ensures { IfOk result (λ owing. owing ≡
        record { client = pair.now.caller.now.client; path = pair.now.to.now; from = pair.now.from.now; first = ends.first; last = ends.last }) }
{
    let client = own_name(&pair.caller.client)?;
    let path = own_path(pair.to)?;
    let from = own_path(pair.from)?;
    Ok(Owing {
        client,
        path,
        from,
        first: ends.first,
        last: ends.last,
    })
}

/// The row of a target that is opened.
fn integrate_row(
    alloc: Global,
    pair: &Pair<'_>,
    ends: Span,
    action: Action,
) -> Result<Row, AllocError>
    ensures { IfOk result (λ row. row ≡
        model.integrate_row pair.now.from.now pair.now.to.now ends.first ends.last (action_of action)) }
{
    let row = RowBuilder::new(alloc).path(b"depotFile", pair.to)?;
    let row = row.path(b"fromFile", pair.from)?;
    let row = row.number(b"startFromRev", u64::from(ends.first))?;
    let row = row.number(b"endFromRev", u64::from(ends.last))?;
    let row = row.text(b"action", action_word(action))?;
    Ok(row.row())
}

/// The step that opens a file whose head the client has from then on, and that owes a resolve.
fn opens_got(
    alloc: Global,
    opening: Opening,
    file: Held,
    base: u32,
    owing: Owing,
    row: Row,
) -> Result<Step, AllocError>
    ensures { IfOk result (λ step. step ≡
        done_with (done_deeds.Open opening ∷ done_deeds.Got file base ∷ done_deeds.Owe owing ∷ []) row) }
{
    let mut step = Step::opens(alloc, opening, row)?;
    step.deeds.got(file, base)?;
    step.deeds.owe(owing)?;
    Ok(step)
}

/// The step that opens a file with a resolve that is paid.
fn opens_paid(
    alloc: Global,
    opening: Opening,
    owing: Owing,
    file: Held,
    from: DepotPath,
    how: How,
    row: Row,
) -> Result<Step, AllocError>
    ensures { IfOk result (λ step. step ≡
        done_with (done_deeds.Open opening ∷ done_deeds.Owe owing ∷ done_deeds.Paid file from how ∷ []) row) }
{
    let mut step = Step::opens(alloc, opening, row)?;
    step.deeds.owe(owing)?;
    step.deeds.paid(file, from, how)?;
    Ok(step)
}

/// The step that opens a live target for live revisions.
fn integrate_live(
    alloc: Global,
    pair: &Pair<'_>,
    ends: Span,
    base: u32,
    file_type: Text,
) -> Result<Step, AllocError>
    ensures { IfOk result (λ step. (all : AllRows) (d e : List Deed) → base ≡ head d pair.now.to.now →
        IsMade all d e (way_step d pair.now.caller.now pair.now.change file_type pair.now.from.now pair.now.to.now ends Way.Integrate) step) }
{
    // the bytes of a path are one
    let _from = pair.from.as_bytes();
    let _to = pair.to.as_bytes();
    let owing = owing(pair, ends)?;
    let file = held(&pair.caller.client, pair.to)?;
    let row = integrate_row(alloc, pair, ends, Action::Integrate)?;
    let opening = opening_over(pair, base, Action::Integrate, file_type, None)?;
    opens_got(alloc, opening, file, base, owing, row)
}

/// The step that opens a target for an action, with a resolve that is paid.
fn integrate_paid(
    alloc: Global,
    pair: &Pair<'_>,
    ends: Span,
    base: u32,
    file_type: Text,
    action: Action,
    source: Option<Source>,
    how: How,
) -> Result<Step, AllocError>
    ensures { IfOk result (λ step. (all : AllRows) (d e : List Deed) → base ≡ head d pair.now.to.now →
        IsMade all d e (paid_step d pair.now.caller.now pair.now.change file_type pair.now.from.now pair.now.to.now ends (action_of action) (option_map source_of source) (how_of how)) step) }
{
    // the bytes of a path are one
    let _from = pair.from.as_bytes();
    let _to = pair.to.as_bytes();
    let owing = owing(pair, ends)?;
    let file = held(&pair.caller.client, pair.to)?;
    let from = own_path(pair.from)?;
    let row = integrate_row(alloc, pair, ends, action)?;
    let opening = opening_over(pair, base, action, file_type, source)?;
    opens_paid(alloc, opening, owing, file, from, how, row)
}

/// The step that opens a target in its way.
fn integrate_by(
    alloc: Global,
    pair: &Pair<'_>,
    ends: Span,
    base: u32,
    file_type: Text,
    way: Way,
) -> Result<Step, AllocError>
    ensures { IfOk result (λ step. (all : AllRows) (d e : List Deed) → base ≡ head d pair.now.to.now →
        IsMade all d e (way_step d pair.now.caller.now pair.now.change file_type pair.now.from.now pair.now.to.now ends way) step) }
{
    match way {
        Way::Integrate => integrate_live(alloc, pair, ends, base, file_type),
        Way::Branch => {
            let path = own_path(pair.from)?;
            let source = Some(Source {
                path,
                rev: ends.last,
            });
            let how = How::BranchFrom;
            integrate_paid(
                alloc,
                pair,
                ends,
                base,
                file_type,
                Action::Branch,
                source,
                how,
            )
        }
        Way::Delete => {
            let how = How::DeleteFrom;
            integrate_paid(
                alloc,
                pair,
                ends,
                base,
                file_type,
                Action::Delete,
                None,
                how,
            )
        }
    }
}

/// The refusal of a target into which nothing is left to integrate.
fn none_left(alloc: Global, path: &DepotPath) -> Result<Step, AllocError>
    ensures { IfOk result (λ step. (all : AllRows) (d e : List Deed) →
        IsMade all d e (refuses (refusals.AllIntegrated path.now)) step) }
{
    let row = all_integrated_row(alloc, path)?;
    Step::tells(alloc, row)
}

/// What is done with a target by what is left to integrate, from the table of revisions alone.
pub(crate) fn integrate_ends(
    alloc: Global,
    tables: &Tables,
    pair: &Pair<'_>,
    ends: Option<Span>,
    file_type: Text,
) -> Result<Step, AllocError>
    ensures { IfOk result (λ step. (d e : List Deed) → IsSound d → HasRows (rows_of tables.now) d table_ids.Rev →
        IsMade (rows_of tables.now) d e (by_ends d pair.now.caller.now pair.now.change file_type pair.now.from.now pair.now.to.now ends) step) }
{
    let Some(ends) = ends else {
        return none_left(alloc, pair.to);
    };
    let source_live = is_live_at(alloc, tables, pair.from, ends.last)?;
    let target_live = is_live_head(alloc, tables, pair.to)?;
    let base = head_of(alloc, tables, pair.to)?;
    match way_of(source_live, target_live) {
        Some(way) => integrate_by(alloc, pair, ends, base, file_type, way),
        None => none_left(alloc, pair.to),
    }
}
