//! The revisions of a file for which a range asks.

ghost use Rattle.std.specs.Prelude.{◌≡◌, ◌++◌, ◌∷◌, [], ◌==◌, List, nat_le, int_le, pos, false, filter, if◌then◌else◌, IfOk, OnOk, option_map};
ghost use Rattle.std.specs.List.{range_with_len};
ghost use Rattle.std.specs.Option.{option_copied, option_map_or};
ghost use Rattle.depot_rows.specs.db_records.declared.table.TableId.TheVariants as table_ids;
ghost use Rattle.depot_rows.specs.table_changes.Changed.{rows_of};
ghost use Rattle.depot_rows.specs.depot_model.Deeds.{Deed};
ghost use Rattle.depot_rows.specs.depot_model.Range as model;
ghost use Rattle.depot_rows.specs.depot_model.Revisions.{head as head_in, revision};
ghost use Rattle.depot_rows.specs.depot_model.Rules.{IsSound};
ghost use Rattle.depot_rows.specs.Standing.{HasRows};
ghost use Rattle.revision_reads.specs.Choice.{HaveRows, choice_of, wanted_tables};
ghost use Rattle.revision_reads.specs.Range.{change_by, is_asked as asked_test, moment_by};

use crate::choice::{Chosen, chosen_of};
use crate::history::change_of;
use crate::revisions::{head_of, revision_of};
use depot_rows::model::Caller;
use depot_rows::paths::{DepotPath, RevSpec, Wanted};
use depot_rows::records::{ChangeRecord, RevRecord};
use depot_rows::tables::Tables;
use std::alloc::{AllocError, Global};

/// The change of the row of a revision.
fn change_in(row: Option<&RevRecord>) -> Option<u32>
    ensures { result ≡ option_map (λ r. r.change) (option_copied row.entry) }
{
    match row {
        Some(row) => Some(row.change),
        None => None,
    }
}

/// The change that made a revision of a file, if the file has that revision.
fn maker_of(
    alloc: Global,
    tables: &Tables,
    path: &DepotPath,
    rev: u32,
) -> Result<Option<u32>, AllocError>
    ensures { IfOk result (λ change. (d : List Deed) → HasRows (rows_of tables.now) d table_ids.Rev →
        change ≡ change_by (revision d path.now rev)) }
{
    let row = revision_of(alloc, tables, path, rev)?;
    Ok(change_in(row))
}

/// The moment of the row of a change.
fn moment_in(row: Option<&ChangeRecord>) -> Option<u64>
    ensures { result ≡ option_map (λ r. r.moment) (option_copied row.entry) }
{
    match row {
        Some(row) => Some(row.moment),
        None => None,
    }
}

/// The moment at which a revision of a file was made, in seconds since 1970, if the file has that revision.
fn moment_of(
    alloc: Global,
    tables: &Tables,
    path: &DepotPath,
    rev: u32,
) -> Result<Option<u64>, AllocError>
    ensures { IfOk result (λ moment. (d : List Deed) → IsSound d → HasRows (rows_of tables.now) d table_ids.Rev →
        HasRows (rows_of tables.now) d table_ids.Change →
        moment ≡ moment_by (revision d path.now rev)) }
{
    // the bytes of a path are one
    let _bytes = path.as_bytes();
    let change = maker_of(alloc, tables, path, rev)?;
    match change {
        None => Ok(None),
        Some(change) => {
            let row = change_of(tables, change);
            Ok(moment_in(row))
        }
    }
}

/// Whether a change is another one or later.
fn is_change_from(change: Option<u32>, first: u32) -> bool
    ensures { result ≡ option_map_or (λ n. nat_le first n) change false }
{
    match change {
        Some(change) => first <= change,
        None => false,
    }
}

/// Whether a change is another one.
fn is_change(change: Option<u32>, only: u32) -> bool
    ensures { result ≡ option_map_or (λ n. n == only) change false }
{
    match change {
        Some(change) => change == only,
        None => false,
    }
}

/// Whether a moment, in seconds since 1970, is another one or later.
fn moment_is_from(moment: u64, earliest: i64) -> bool
    ensures { result ≡ int_le earliest (pos moment) }
{
    match u64::try_from(earliest) {
        Ok(earliest) => earliest <= moment,
        Err(_) => true,
    }
}

/// Whether it is so, if there is one.
fn is_moment_from(moment: Option<u64>, earliest: i64) -> bool
    ensures { result ≡ option_map_or (λ n. int_le earliest (pos n)) moment false }
{
    match moment {
        Some(moment) => moment_is_from(moment, earliest),
        None => false,
    }
}

/// Whether a revision of a file is at or after the first end of a range.
fn is_from(
    alloc: Global,
    tables: &Tables,
    path: &DepotPath,
    end: &RevSpec,
    head: u32,
    rev: u32,
) -> Result<bool, AllocError>
    ensures { IfOk result (λ from. (d : List Deed) → IsSound d → HasRows (rows_of tables.now) d table_ids.Rev →
        HasRows (rows_of tables.now) d table_ids.Change →
        head ≡ head_in d path.now → from ≡ model.is_from d path.now end.now rev) }
{
    match end {
        RevSpec::Number(first) => Ok(*first <= rev),
        RevSpec::Newest => Ok(head <= rev),
        RevSpec::Change(first) => {
            let change = maker_of(alloc, tables, path, rev)?;
            let from = is_change_from(change, *first);
            Ok(from)
        }
        RevSpec::Moment(earliest) => {
            let moment = moment_of(alloc, tables, path, rev)?;
            let from = is_moment_from(moment, *earliest);
            Ok(from)
        }
        RevSpec::Have => Ok(true),
        RevSpec::Zero => Ok(true),
        RevSpec::Only(_) => Ok(true),
        RevSpec::Named(_) => Ok(true),
    }
}

/// Whether a revision of a file was made by a change.
fn is_made_by(
    alloc: Global,
    tables: &Tables,
    path: &DepotPath,
    only: u32,
    rev: u32,
) -> Result<bool, AllocError>
    ensures { IfOk result (λ made. (d : List Deed) → HasRows (rows_of tables.now) d table_ids.Rev →
        made ≡ option_map_or (λ r. r.landing.change == only) (revision d path.now rev) false) }
{
    let change = maker_of(alloc, tables, path, rev)?;
    let made = is_change(change, only);
    Ok(made)
}

/// Whether a revision of a file is one of those from the first end on.
fn is_begun(
    alloc: Global,
    tables: &Tables,
    path: &DepotPath,
    wanted: &Wanted,
    head: u32,
    rev: u32,
) -> Result<bool, AllocError>
    ensures { IfOk result (λ begun. (d : List Deed) → IsSound d → HasRows (rows_of tables.now) d table_ids.Rev →
        HasRows (rows_of tables.now) d table_ids.Change →
        head ≡ head_in d path.now → begun ≡ model.is_begun d path.now wanted.now rev) }
{
    match wanted {
        Wanted::Range(first, _) => {
            let from = is_from(alloc, tables, path, first, head, rev)?;
            Ok(from)
        }
        Wanted::One(RevSpec::Only(change)) => {
            let made = is_made_by(alloc, tables, path, *change, rev)?;
            Ok(made)
        }
        _ => Ok(true),
    }
}

/// Whether a number is at most the chosen one.
fn is_up_to(rev: u32, chosen: Chosen) -> bool
    ensures { result ≡ model.is_up_to rev (choice_of chosen) }
{
    match chosen {
        Chosen::PassedOver => false,
        Chosen::At(last) => rev <= last,
    }
}

/// Whether a range asks for a revision of a file.
fn is_asked(
    alloc: Global,
    tables: &Tables,
    path: &DepotPath,
    wanted: &Wanted,
    chosen: Chosen,
    head: u32,
    rev: u32,
) -> Result<bool, AllocError>
    ensures { IfOk result (λ asked. (d : List Deed) → IsSound d → HasRows (rows_of tables.now) d table_ids.Rev →
        HasRows (rows_of tables.now) d table_ids.Change →
        head ≡ head_in d path.now → asked ≡ asked_test d path.now wanted.now (choice_of chosen) rev) }
{
    if !is_up_to(rev, chosen) {
        return Ok(false);
    }
    let begun = is_begun(alloc, tables, path, wanted, head, rev)?;
    Ok(begun)
}

/// Adds a revision, if a range asks for it.
fn add_asked(
    alloc: Global,
    tables: &Tables,
    path: &DepotPath,
    wanted: &Wanted,
    chosen: Chosen,
    head: u32,
    numbers: &mut Vec<u32>,
    rev: u32,
) -> Result<(), AllocError>
    ensures { OnOk result ((d : List Deed) → IsSound d → HasRows (rows_of tables.now) d table_ids.Rev →
        HasRows (rows_of tables.now) d table_ids.Change →
        head ≡ head_in d path.now → numbers.new.items ≡ numbers.old.items ++ (if asked_test d path.now wanted.now (choice_of chosen) rev then rev ∷ [] else [])) }
{
    let asked = is_asked(alloc, tables, path, wanted, chosen, head, rev)?;
    if asked {
        numbers.push(rev)?;
    }
    Ok(())
}

/// The numbers of the revisions, of as many as the file has, for which a range asks.
fn asked_of(
    alloc: Global,
    tables: &Tables,
    path: &DepotPath,
    wanted: &Wanted,
    chosen: Chosen,
    head: u32,
) -> Result<Vec<u32>, AllocError>
    ensures { IfOk result (λ numbers. (d : List Deed) → IsSound d → HasRows (rows_of tables.now) d table_ids.Rev →
        HasRows (rows_of tables.now) d table_ids.Change →
        head ≡ head_in d path.now →
        numbers.items ≡ filter (asked_test d path.now wanted.now (choice_of chosen)) (range_with_len 1 head)) }
{
    let mut numbers = Vec::new(alloc);
    let mut rev = 0;
    while rev < head {
        rev += 1;
        add_asked(alloc, tables, path, wanted, chosen, head, &mut numbers, rev)?;
    }
    Ok(numbers)
}

/// The numbers of the revisions of a file for which a file specification asks, the first first (Command-Line Reference,
/// "File specifications", on revision ranges): up to the chosen one, and from the first end of a range on; of `@=`
/// those of that change alone. It reads the tables of revisions and changes and those that the choice asks for, and
/// looks up no more rows than two for each revision of the file.
pub fn in_range(
    alloc: Global,
    tables: &Tables,
    caller: &Caller,
    path: &DepotPath,
    wanted: &Wanted,
) -> Result<Vec<u32>, AllocError>
    ensures { IfOk result (λ numbers. (d : List Deed) → IsSound d → HasRows (rows_of tables.now) d table_ids.Rev →
        HasRows (rows_of tables.now) d table_ids.Change →
        HaveRows (rows_of tables.now) d (wanted_tables wanted.now) →
        numbers.items ≡ model.in_range d caller.now path.now wanted.now) }
{
    let chosen = chosen_of(alloc, tables, caller, path, wanted)?;
    let head = head_of(alloc, tables, path)?;
    let numbers = asked_of(alloc, tables, path, wanted, chosen, head)?;
    Ok(numbers)
}
