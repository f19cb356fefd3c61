//! The files that any client has opened, as arguments name them.

ghost use Rattle.std.specs.Prelude.{◌≡◌, ◌++◌, ℕ, List, IfOk, OnOk, filter, flat_map, true};
ghost use Rattle.std.specs.Option.{option_copied};
ghost use Rattle.depot_rows.specs.depot_path.Path.{is_path};
ghost use Rattle.depot_rows.specs.db_records.declared.table.TableId.TheVariants as table_ids;
ghost use Rattle.depot_rows.specs.table_changes.Changed.{rows_of};
ghost use Rattle.depot_rows.specs.depot_model.Arguments.{is_in};
ghost use Rattle.depot_rows.specs.depot_model.Deeds.{Deed};
ghost use Rattle.depot_rows.specs.depot_model.Rules.{IsSound};
ghost use Rattle.depot_rows.specs.Standing.{HasRows};
ghost use Rattle.named_files.specs.Anywhere.{has_opening, is_last as last_test, new_text, next_last, opened_anywhere, paths_in_front, paths_in_turn};
ghost use Rattle.named_files.specs.Beginnings.{AreApart, has_one};
ghost use Rattle.named_files.specs.Listed.{listing_table, path_in_text};

use crate::asker::Asker;
use crate::beginning::beginnings_of;
use crate::front::rows_in;
use crate::listing::{Listing, add_path};
use crate::looked_up::{FileList, has_wildcard, listed_among, spelled_files};
use depot_rows::model::{Caller, FileArgument};
use depot_rows::paths::{DepotPath, Name, Sequence, Text};
use depot_rows::records::{Record, TableId};
use depot_rows::tables::Tables;
use file_openings::{openings_of, rows_are_openings};
use file_steps::{FileSet, not_open};
use reply_rows::Step;
use row_ranges::rows_in as rows_in_range;
use std::alloc::{AllocError, Global};

/// The files that any client has opened, of which the arguments of a caller name some.
#[derive(Drop)]
pub struct OpenedAnywhere<'a> {
    pub caller: &'a Caller,
    pub asker: &'a Asker,
}

/// Whether a text is that of the row before.
fn is_last(last: Option<&Text>, text: &Text) -> bool
    ensures { result ≡ last_test (option_copied last.entry) text.now }
{
    match last {
        Some(last) => last.as_bytes() == text.as_bytes(),
        None => false,
    }
}

/// Adds the path of a row, unless it is that of the row before, and gives its text.
fn add_new<'a>(
    alloc: Global,
    paths: &mut Sequence<DepotPath>,
    last: Option<&'a Text>,
    row: &'a Record,
) -> Result<Option<&'a Text>, AllocError>
    ensures paths { OnOk result (paths.new ≡ paths.old ++
        flat_map path_in_text (new_text (option_copied last.entry) row.now)) }
    ensures last { IfOk result (λ next. option_copied next ≡ next_last (option_copied last.entry) row.now) }
{
    let Record::Working(row) = row else {
        return Ok(last);
    };
    if !is_last(last, &row.path) {
        add_path(alloc, paths, &row.path)?;
    }
    Ok(Some(&row.path))
}

/// Adds the files of the rows whose printed paths begin with a text, each once.
fn add_opened_below(
    alloc: Global,
    paths: &mut Sequence<DepotPath>,
    tables: &Tables,
    listing: &Listing,
    beginning: &Text,
) -> Result<(), AllocError>
    ensures { OnOk result (paths.new ≡ paths.old ++
        paths_in_front listing.now (rows_of tables.now (listing_table listing.now)) beginning.now) }
{
    let mut last = None;
    for row in rows_in(alloc, tables, listing, beginning)? {
        last = add_new(alloc, paths, last, row)?;
    }
    Ok(())
}

/// The files of the rows whose printed paths begin with one of some texts, those of each text in turn.
fn opened_below(
    alloc: Global,
    tables: &Tables,
    listing: &Listing,
    beginnings: &[Text],
) -> Result<Sequence<DepotPath>, AllocError>
    ensures { IfOk result (λ paths. paths ≡
        paths_in_turn listing.now (rows_of tables.now (listing_table listing.now)) beginnings.now) }
{
    let mut paths = Sequence::new(alloc);
    let mut rest = beginnings;
    while let [beginning, after @ ..] = rest {
        add_opened_below(alloc, &mut paths, tables, listing, beginning)?;
        rest = after;
    }
    Ok(paths)
}

/// Where the texts are apart, the rows of a sound depot tell so the files that any client has opened, in the order of
/// their paths.
fn rows_tell_files(tables: &Tables)
    ensures { (d : List Deed) (client : List ℕ) (beginnings : List (List ℕ)) → IsSound d →
        HasRows (rows_of tables.now) d table_ids.Working → AreApart beginnings →
        paths_in_turn (Listing.OpenedBy client) (rows_of tables.now table_ids.Working) beginnings ≡
        filter (has_one beginnings) (opened_anywhere d) }
{
    let version = tables.version(TableId::Working);
    // the rows of a version are of its table, their keys rising
    let _table = version.table();
}

/// Those among the files, in the order of their paths, whose printed paths begin with one of some texts that are apart.
fn anywhere_below(
    alloc: Global,
    tables: &Tables,
    client: &Name,
    beginnings: &[Text],
) -> Result<Sequence<DepotPath>, AllocError>
    ensures { IfOk result (λ paths. (d : List Deed) → IsSound d → HasRows (rows_of tables.now) d table_ids.Working →
        AreApart beginnings.now → paths ≡ filter (has_one beginnings.now) (opened_anywhere d)) }
{
    rows_tell_files(tables);
    // the openings of all clients stand among those of each
    let listing = Listing::opened_by(client)?;
    let paths = opened_below(alloc, tables, &listing, beginnings)?;
    Ok(paths)
}

impl<'a> FileList for OpenedAnywhere<'a> {
    ghost use Rattle.depot_rows.specs.db_records.declared.table.TableId.TheVariants as table_ids;
    ghost use Rattle.named_files.specs.Anywhere.{has_opening};

    ghost lists = { λ set rows file. has_opening (rows table_ids.Working) file };

    fn has(&self, alloc: Global, tables: &Tables, file: &DepotPath) -> Result<bool, AllocError> {
        let range = openings_of(alloc, file)?;
        let mut rows = rows_in_range(alloc, tables, &range)?;
        let row = rows.next();
        let found = row.is_some();
        Ok(found)
    }
}

/// The rows of a depot tell so whether any client has a file opened.
fn rows_tell_opened(tables: &Tables)
    ensures { (d : List Deed) (path : List ℕ) → is_path path ≡ true → HasRows (rows_of tables.now) d table_ids.Working →
        has_opening (rows_of tables.now table_ids.Working) path ≡ is_in (opened_anywhere d) path }
{
    rows_are_openings(tables);
}

impl<'a> FileSet for OpenedAnywhere<'a> {
    ghost use Rattle.std.specs.Prelude.{◌∷◌, [], true};
    ghost use Rattle.depot_rows.specs.depot_model.Arguments.{names as names_file};
    ghost use Rattle.depot_rows.specs.depot_model.Refusals.{refusal_row};
    ghost use Rattle.depot_rows.specs.depot_model.declared.refusal.Refusal.TheVariants as refusals;
    ghost use Rattle.named_files.specs.declared.listing.Listing.TheVariants.{OpenedBy};
    ghost use Rattle.named_files.specs.Anywhere.{opened_anywhere};
    ghost use Rattle.named_files.specs.Sets.{Reads};

    ghost reads = { λ set rows d. Reads set.caller.now set.asker.now (OpenedBy set.caller.now.client) rows d };

    ghost files = { λ set d. opened_anywhere d };

    ghost names = { λ set d argument path. names_file true d set.caller.now argument.spec path };

    ghost rows_without = { λ set argument. refusal_row (refusals.NotOpen argument.text) ∷ [] };

    fn candidates(
        &self,
        alloc: Global,
        tables: &Tables,
        argument: &FileArgument,
    ) -> Result<Sequence<DepotPath>, AllocError> {
        let pattern = &argument.spec.pattern;
        if !has_wildcard(pattern) {
            rows_tell_opened(tables);
            let files = spelled_files(alloc, self.asker, pattern)?;
            let found = listed_among(alloc, tables, self, files)?;
            return Ok(found);
        }
        let beginnings = beginnings_of(alloc, self.asker, pattern)?;
        let paths = anywhere_below(alloc, tables, &self.caller.client, beginnings.as_slice())?;
        Ok(paths)
    }

    fn is_named(
        &self,
        alloc: Global,
        _tables: &Tables,
        argument: &FileArgument,
        path: &DepotPath,
    ) -> Result<bool, AllocError> {
        let named = self.asker.names(alloc, &argument.spec.pattern, path)?;
        Ok(named)
    }

    fn missing(&self, alloc: Global, argument: &FileArgument) -> Result<Step, AllocError> {
        let step = not_open(alloc, argument)?;
        Ok(step)
    }
}
