//! The revision of a file that a file specification chooses.

ghost use Rattle.std.specs.Prelude.{◌≡◌, pos, int_le, List, nat_le, IfOk, if◌then◌else◌};
ghost use Rattle.std.specs.Option.{option_copied};
ghost use Rattle.depot_rows.specs.db_records.declared.table.TableId.TheVariants as table_ids;
ghost use Rattle.depot_rows.specs.table_changes.Changed.{AllRows, rows_of};
ghost use Rattle.depot_rows.specs.depot_model.Asking.{is_label as label_saved};
ghost use Rattle.depot_rows.specs.depot_model.Choice as model;
ghost use Rattle.depot_rows.specs.depot_model.Deeds.{Deed};
ghost use Rattle.depot_rows.specs.depot_model.Latest.{have, labelled};
ghost use Rattle.depot_rows.specs.depot_model.Revisions.{head, revisions, last_passing};
ghost use Rattle.depot_rows.specs.depot_model.Rules.{IsSound};
ghost use Rattle.depot_rows.specs.Standing.{HasRows, Stand};
ghost use Rattle.revision_reads.specs.Choice.{HaveRows, choice_of, end_tables, wanted_tables};
ghost use Rattle.revision_reads.specs.Probes.{is_made_by as made_test};

use crate::moments::last_by;
use crate::probe::{is_within, rev_key, rev_row};
use crate::revisions::{head_of, is_live_at};
use crate::search::last_within;
use depot_rows::model::Caller;
use depot_rows::paths::{DepotPath, Name, RevSpec, Wanted};
use depot_rows::records::{Record, TableId};
use depot_rows::tables::Tables;
use row_reads::{have_of, is_label, label_of};
use std::alloc::{AllocError, Global};

/// What a file specification chooses of a file (Command-Line Reference, "File specifications").
#[derive(Clone, Copy)]
pub enum Chosen {
    /// The file is passed over.
    PassedOver,
    /// The revision of that number, 0 for none.
    At(u32),
}

/// The choice of a revision that is there, or else none.
fn at_if(found: bool, rev: u32) -> Chosen
    ensures { choice_of result ≡ (if found then model.At rev else model.PassedOver) }
{
    if found {
        Chosen::At(rev)
    } else {
        Chosen::PassedOver
    }
}

/// The choice of a number: a file that has no such revision is passed over.
fn numbered(
    alloc: Global,
    tables: &Tables,
    path: &DepotPath,
    rev: u32,
) -> Result<Chosen, AllocError>
    ensures { IfOk result (λ chosen. (d : List Deed) → HasRows (rows_of tables.now) d table_ids.Rev →
        choice_of chosen ≡ (if nat_le rev (head d path.now) then model.At rev else model.PassedOver)) }
{
    if rev == 0 {
        return Ok(Chosen::At(rev));
    }
    let row = rev_row(alloc, tables, path, rev)?;
    let found = is_within(None, row);
    Ok(at_if(found, rev))
}

/// The newest revision of a file as of a change, 0 where there is none.
fn as_of_change(
    alloc: Global,
    tables: &Tables,
    path: &DepotPath,
    change: u32,
) -> Result<u32, AllocError>
    ensures { IfOk result (λ rev. (d : List Deed) → IsSound d → HasRows (rows_of tables.now) d table_ids.Rev →
        rev ≡ last_passing (model.made_by_most change) 1 (revisions d path.now)) }
{
    let rev = last_within(alloc, tables, path, Some(change))?;
    Ok(rev)
}

/// Whether a row is of a revision that the change made.
fn is_made_by(row: Option<&Record>, change: u32) -> bool
    ensures { result ≡ made_test change (option_copied row.entry) }
{
    match row {
        Some(Record::Rev(row)) => row.change == change,
        _ => false,
    }
}

/// The choice of the revision that a change made: a file of which it made none is passed over.
fn made_in(
    alloc: Global,
    tables: &Tables,
    path: &DepotPath,
    change: u32,
) -> Result<Chosen, AllocError>
    ensures { IfOk result (λ chosen. (d : List Deed) → IsSound d → HasRows (rows_of tables.now) d table_ids.Rev →
        choice_of chosen ≡ model.at_or_above_one (last_passing (model.made_by change) 1 (revisions d path.now))) }
{
    let rev = last_within(alloc, tables, path, Some(change))?;
    let row = rev_row(alloc, tables, path, rev)?;
    let made = is_made_by(row, change);
    Ok(at_if(made, rev))
}

/// The newest revision of a file as of a moment, 0 where there is none.
fn as_of_moment(
    alloc: Global,
    tables: &Tables,
    path: &DepotPath,
    latest: i64,
) -> Result<u32, AllocError>
    ensures { IfOk result (λ rev. (d : List Deed) → IsSound d → HasRows (rows_of tables.now) d table_ids.Rev →
        HasRows (rows_of tables.now) d table_ids.Change →
        rev ≡ last_passing (λ r. int_le (pos r.landing.moment) latest) 1 (revisions d path.now)) }
{
    let head = last_within(alloc, tables, path, None)?;
    let mut key = rev_key(alloc, path, 0)?;
    let revisions = tables.version(TableId::Rev);
    let changes = tables.version(TableId::Change);
    let rev = last_by(revisions, changes, &mut key, head, latest);
    Ok(rev)
}

/// The revision of a file that a label has, or else a client, 0 where it has none.
fn named(alloc: Global, tables: &Tables, name: &Name, path: &DepotPath) -> Result<u32, AllocError>
    ensures { IfOk result (λ rev. (d : List Deed) →
        HaveRows (rows_of tables.now) d (end_tables (RevSpec.Named name.now)) →
        rev ≡ (if label_saved d name.now then labelled d name.now path.now else have d name.now path.now)) }
{
    let labelled = is_label(alloc, tables, name)?;
    if labelled {
        let rev = label_of(alloc, tables, name, path)?;
        Ok(rev)
    } else {
        let rev = have_of(alloc, tables, name, path)?;
        Ok(rev)
    }
}

/// The choice of one revision.
fn chosen_by(
    alloc: Global,
    tables: &Tables,
    caller: &Caller,
    path: &DepotPath,
    end: &RevSpec,
) -> Result<Chosen, AllocError>
    ensures { IfOk result (λ chosen. (d : List Deed) → IsSound d →
        HaveRows (rows_of tables.now) d (end_tables end.now) →
        choice_of chosen ≡ model.chosen_by d caller.now path.now end.now) }
{
    match end {
        RevSpec::Number(rev) => {
            let chosen = numbered(alloc, tables, path, *rev)?;
            Ok(chosen)
        }
        RevSpec::Newest => {
            let rev = head_of(alloc, tables, path)?;
            Ok(Chosen::At(rev))
        }
        RevSpec::Have => {
            let rev = have_of(alloc, tables, &caller.client, path)?;
            Ok(Chosen::At(rev))
        }
        RevSpec::Zero => Ok(Chosen::At(0)),
        RevSpec::Change(change) => {
            let rev = as_of_change(alloc, tables, path, *change)?;
            Ok(Chosen::At(rev))
        }
        RevSpec::Only(change) => {
            let chosen = made_in(alloc, tables, path, *change)?;
            Ok(chosen)
        }
        RevSpec::Moment(latest) => {
            let rev = as_of_moment(alloc, tables, path, *latest)?;
            Ok(Chosen::At(rev))
        }
        RevSpec::Named(name) => {
            let rev = named(alloc, tables, name, path)?;
            Ok(Chosen::At(rev))
        }
    }
}

/// The revision of a file that a file specification chooses, of a range its second end (Command-Line Reference, "File
/// specifications"), from the tables alone that the end asks for. It reads no more revisions than the file has, and but
/// for a date no more than their number has binary digits, about twice.
pub fn chosen_of(
    alloc: Global,
    tables: &Tables,
    caller: &Caller,
    path: &DepotPath,
    wanted: &Wanted,
) -> Result<Chosen, AllocError>
    ensures { IfOk result (λ chosen. (d : List Deed) → IsSound d →
        HaveRows (rows_of tables.now) d (wanted_tables wanted.now) →
        choice_of chosen ≡ model.chosen d caller.now path.now wanted.now) }
{
    match wanted {
        Wanted::Head => {
            let rev = head_of(alloc, tables, path)?;
            Ok(Chosen::At(rev))
        }
        Wanted::One(end) => {
            let chosen = chosen_by(alloc, tables, caller, path, end)?;
            Ok(chosen)
        }
        Wanted::Range(_, end) => {
            let chosen = chosen_by(alloc, tables, caller, path, end)?;
            Ok(chosen)
        }
    }
}

/// Whether a file is there and isn't deleted at a choice, from the table of revisions alone.
pub fn is_live_choice(
    alloc: Global,
    tables: &Tables,
    path: &DepotPath,
    chosen: Chosen,
) -> Result<bool, AllocError>
    ensures { IfOk result (λ live. (d : List Deed) → HasRows (rows_of tables.now) d table_ids.Rev →
        live ≡ model.is_live_choice d path.now (choice_of chosen)) }
{
    match chosen {
        Chosen::PassedOver => Ok(false),
        Chosen::At(rev) => {
            let live = is_live_at(alloc, tables, path, rev)?;
            Ok(live)
        }
    }
}

/// Rows that stand for a depot are its rows in any tables.
pub fn standing_rows_are_those_of_all_tables()
    ensures { (rows : AllRows) (d : List Deed) (tables : List TableId) → Stand rows d → HaveRows rows d tables }
{}
