//! Files with the rows of their newest revisions, found in one walk.

ghost use Rattle.std.specs.Prelude.{◌≡◌, ◌++◌, ℕ, Bool, List, filter, map, true, IfOk, OnOk};
ghost use Rattle.std.specs.List.{All};
ghost use Rattle.std.specs.Option.{option_copied, option_to_list};
ghost use Rattle.depot_rows.specs.depot_model.Deeds.{Deed};
ghost use Rattle.depot_rows.specs.depot_model.Rules.{IsSound};
ghost use Rattle.depot_rows.specs.Standing.{HasRows};
ghost use Rattle.depot_rows.specs.table_changes.Changed.{rows_of};
ghost use Rattle.revision_reads.specs.Probes.{rev_of};
ghost use Rattle.named_files.specs.Asked.{is_placed};
ghost use Rattle.named_files.specs.Beginnings.{in_turn};
ghost use Rattle.named_files.specs.HeadRows.{IsHead, ended, heads_in_front, heads_in_turn, is_of_its_file as its_file_test};
ghost use Rattle.named_files.specs.Listed.{files_of, has_beginning, listed, listing_table};

use crate::asker::Asker;
use crate::beginning::beginnings_of;
use crate::choosing::{add_row, files_join, rows_list_files};
use crate::front::rows_in;
use crate::listing::Listing;
use crate::looked_up::{has_wildcard, looked_up};
use depot_rows::paths::{DepotPath, Pattern, Sequence, Text};
use depot_rows::records::{Record, RevRecord};
use depot_rows::tables::Tables;
use std::alloc::{AllocError, Global};

/// Files of a list, and rows of newest revisions, as the walk that found the files saw them.
#[derive(Drop)]
pub struct HeadedFiles<'t> {
    /// The files.
    pub paths: Sequence<DepotPath>,
    /// The rows, in the order of the files; none where the list isn't that of the submitted files, or the files were
    /// looked up.
    pub heads: Vec<&'t RevRecord>,
}

/// Whether a row is of a revision of the same file.
fn is_of_its_file(revision: &RevRecord, row: &Record) -> bool
    ensures { result ≡ its_file_test revision.now row.now }
{
    match row {
        Record::Rev(row) => revision.path.as_bytes() == row.path.as_bytes(),
        _ => false,
    }
}

/// Adds the row before one, where it is of a revision, and the two aren't of one file.
fn add_ended<'t>(
    heads: &mut Vec<&'t RevRecord>,
    before: Option<&'t Record>,
    row: &Record,
) -> Result<(), AllocError>
    ensures { OnOk result (map (λ r. r.now) heads.new.items ≡ map (λ r. r.now) heads.old.items ++
        ended (option_copied before.entry) row.now) }
{
    let Some(Record::Rev(before)) = before else {
        return Ok(());
    };
    if !is_of_its_file(before, row) {
        heads.push(before)?;
    }
    Ok(())
}

/// Adds the last row, where there is one, and it is of a revision.
fn add_last<'t>(heads: &mut Vec<&'t RevRecord>, last: Option<&'t Record>) -> Result<(), AllocError>
    ensures { OnOk result (map (λ r. r.now) heads.new.items ≡ map (λ r. r.now) heads.old.items ++
        option_to_list (rev_of (option_copied last.entry))) }
{
    if let Some(Record::Rev(last)) = last {
        heads.push(last)?;
    }
    Ok(())
}

/// Adds the files of a list whose printed paths begin with a text, and the last row of each of them. It walks over the
/// rows alone that stand among those of the list and whose paths begin so.
fn add_headed_below<'t>(
    alloc: Global,
    paths: &mut Sequence<DepotPath>,
    heads: &mut Vec<&'t RevRecord>,
    tables: &'t Tables,
    listing: &Listing,
    beginning: &Text,
) -> Result<(), AllocError>
    ensures paths { OnOk result (paths.new ≡ paths.old ++
        filter (has_beginning beginning.now) (listed listing.now (rows_of tables.now (listing_table listing.now)))) }
    ensures heads { OnOk result (map (λ r. r.now) heads.new.items ≡ map (λ r. r.now) heads.old.items ++
        heads_in_front listing.now (rows_of tables.now (listing_table listing.now)) beginning.now) }
{
    let mut before = None;
    for row in rows_in(alloc, tables, listing, beginning)? {
        add_row(alloc, paths, listing, row)?;
        add_ended(heads, before, row)?;
        before = Some(row);
    }
    add_last(heads, before)?;
    Ok(())
}

/// The files of a list whose printed paths begin with one of some texts, those of each text in turn, and their last
/// rows.
fn headed_below<'t>(
    alloc: Global,
    tables: &'t Tables,
    listing: &Listing,
    beginnings: &[Text],
) -> Result<HeadedFiles<'t>, AllocError>
    ensures paths { IfOk result (λ found. found.paths ≡
        in_turn beginnings.now (listed listing.now (rows_of tables.now (listing_table listing.now)))) }
    ensures heads { IfOk result (λ found. map (λ r. r.now) found.heads.items ≡
        heads_in_turn listing.now (rows_of tables.now (listing_table listing.now)) beginnings.now) }
{
    let mut paths = Sequence::new(alloc);
    let mut heads = Vec::new(alloc);
    let mut rest = beginnings;
    while let [beginning, after @ ..] = rest {
        add_headed_below(alloc, &mut paths, &mut heads, tables, listing, beginning)?;
        rest = after;
    }
    Ok(HeadedFiles { paths, heads })
}

/// The last row of each file, of those that begin with one of some texts, is that of its newest revision.
fn last_rows_are_heads(tables: &Tables, listing: &Listing)
    ensures { (beginnings : List (List ℕ)) →
        All (IsHead (rows_of tables.now (listing_table listing.now)))
        (heads_in_turn listing.now (rows_of tables.now (listing_table listing.now)) beginnings) }
{
    let version = tables.version(listing.table());
    // the rows of a version are of its table, their keys rising
    let _table = version.table();
}

/// The files that [`candidates`](crate::candidates) gives, and where it walks, the rows of their newest revisions, in
/// the same walk. The one error is want of memory.
pub(crate) fn headed_candidates<'t>(
    alloc: Global,
    tables: &'t Tables,
    asker: &Asker,
    listing: &Listing,
    pattern: &Pattern,
) -> Result<HeadedFiles<'t>, AllocError>
    ensures depot { IfOk result (λ found. (d : List Deed) → IsSound d →
        HasRows (rows_of tables.now) d (listing_table listing.now) → (test : List ℕ → Bool) →
        ((path : List ℕ) → test path ≡ true → is_placed asker.now pattern.now path ≡ true) →
        filter test found.paths ≡ filter test (files_of listing.now d)) }
    ensures heads { IfOk result (λ found. All (IsHead (rows_of tables.now (listing_table listing.now))) (map (λ r. r.now) found.heads.items)) }
{
    rows_list_files(tables, listing);
    files_join(tables, listing);
    last_rows_are_heads(tables, listing);
    if !has_wildcard(pattern) {
        let paths = looked_up(alloc, tables, asker, listing, pattern)?;
        let heads = Vec::new(alloc);
        return Ok(HeadedFiles { paths, heads });
    }
    let beginnings = beginnings_of(alloc, asker, pattern)?;
    let found = headed_below(alloc, tables, listing, beginnings.as_slice())?;
    Ok(found)
}
