//! The files of a list, as arguments name them where the client shows them.

ghost use Rattle.std.specs.Prelude.{◌≡◌, List, false, filter, map, IfOk};
ghost use Rattle.std.specs.List.{All};
ghost use Rattle.depot_rows.specs.db_records.declared.table.TableId.TheVariants as table_ids;
ghost use Rattle.depot_rows.specs.table_changes.Changed.{rows_of};
ghost use Rattle.depot_rows.specs.depot_model.Arguments.{names as names_file};
ghost use Rattle.depot_rows.specs.depot_model.Deeds.{Deed};
ghost use Rattle.depot_rows.specs.depot_model.Rules.{IsSound};
ghost use Rattle.depot_rows.specs.Standing.{HasRows};
ghost use Rattle.revision_reads.specs.Choice.{HaveRows, wanted_tables};
ghost use Rattle.named_files.specs.Asked.{is_shown as shown_test, is_shown_at as shown_at_test};
ghost use Rattle.named_files.specs.HeadRows.{IsHead};
ghost use Rattle.named_files.specs.Listed.{files_of, listing_table};
ghost use Rattle.named_files.specs.Sets.{ShownReads, rows_without as without};

use crate::asker::Asker;
use crate::choosing::candidates;
use crate::head_rows::{HeadedFiles, headed_candidates};
use crate::listed_files::missing_of;
use crate::listing::Listing;
use depot_rows::model::{Caller, FileArgument};
use depot_rows::paths::{DepotPath, Pattern, Sequence, Wanted};
use depot_rows::protections::Level;
use depot_rows::tables::Tables;
use file_steps::FileSet;
use reply_rows::Step;
use revision_reads::shown_by;
use row_reads::in_client_syntax;
use std::alloc::{AllocError, Global};

/// The files of a list of which the arguments of a caller name some: one in client syntax those that the client shows
/// there at the revisions for which it asks.
#[derive(Drop)]
pub struct ShownFiles<'a> {
    pub caller: &'a Caller,
    pub asker: &'a Asker,
    pub listing: &'a Listing,
}

/// Whether a pattern fits a file, or in client syntax the place where the view shows it at a choice.
fn is_shown_at(
    alloc: Global,
    tables: &Tables,
    caller: &Caller,
    asker: &Asker,
    pattern: &Pattern,
    wanted: &Wanted,
    path: &DepotPath,
) -> Result<bool, AllocError>
    ensures { IfOk result (λ shown. (d : List Deed) → IsSound d → HasRows (rows_of tables.now) d table_ids.Rev →
        HaveRows (rows_of tables.now) d (wanted_tables wanted.now) →
        shown ≡ shown_at_test d caller.now asker.now pattern.now wanted.now path.now) }
{
    if !in_client_syntax(&asker.client, pattern) {
        return Ok(pattern.matches(path));
    }
    match shown_by(alloc, tables, caller, &asker.view, path, wanted)? {
        Some(place) => Ok(pattern.matches(&place)),
        None => Ok(false),
    }
}

/// Whether a pattern names so a file that the asker may list.
pub(crate) fn is_shown(
    alloc: Global,
    tables: &Tables,
    caller: &Caller,
    asker: &Asker,
    pattern: &Pattern,
    wanted: &Wanted,
    path: &DepotPath,
) -> Result<bool, AllocError>
    ensures { IfOk result (λ shown. (d : List Deed) → IsSound d → HasRows (rows_of tables.now) d table_ids.Rev →
        HaveRows (rows_of tables.now) d (wanted_tables wanted.now) →
        shown ≡ shown_test d caller.now asker.now pattern.now wanted.now path.now) }
{
    if !asker.may(path, Level(1)) {
        return Ok(false);
    }
    let shown = is_shown_at(alloc, tables, caller, asker, pattern, wanted, path)?;
    Ok(shown)
}

impl<'a> ShownFiles<'a> {
    /// Among the files, in their order, at least those that an argument names, and the rows of their newest revisions:
    /// the walk that finds the files passes these rows. The one error is want of memory.
    pub fn headed<'t>(
        &self,
        alloc: Global,
        tables: &'t Tables,
        argument: &FileArgument,
    ) -> Result<HeadedFiles<'t>, AllocError>
        ensures paths { IfOk result (λ found. (d : List Deed) →
            ShownReads self.now.caller.now self.now.asker.now self.now.listing.now (rows_of tables.now) d →
            filter (names_file false d self.now.caller.now argument.now.spec) found.paths
            ≡ filter (names_file false d self.now.caller.now argument.now.spec) (files_of self.now.listing.now d)) }
        ensures heads { IfOk result (λ found. All (IsHead (rows_of tables.now (listing_table self.now.listing.now))) (map (λ r. r.now) found.heads.items)) }
    {
        let pattern = &argument.spec.pattern;
        let found = headed_candidates(alloc, tables, self.asker, self.listing, pattern)?;
        Ok(found)
    }
}

impl<'a> FileSet for ShownFiles<'a> {
    ghost reads = { λ set rows d. ShownReads set.caller.now set.asker.now set.listing.now rows d };

    ghost files = { λ set d. files_of set.listing.now d };

    ghost names = { λ set d argument path. names_file false d set.caller.now argument.spec path };

    ghost rows_without = { λ set argument. without set.listing.now argument };

    fn candidates(
        &self,
        alloc: Global,
        tables: &Tables,
        argument: &FileArgument,
    ) -> Result<Sequence<DepotPath>, AllocError> {
        let pattern = &argument.spec.pattern;
        let found = candidates(alloc, tables, self.asker, self.listing, pattern)?;
        Ok(found)
    }

    fn is_named(
        &self,
        alloc: Global,
        tables: &Tables,
        argument: &FileArgument,
        path: &DepotPath,
    ) -> Result<bool, AllocError> {
        let pattern = &argument.spec.pattern;
        let wanted = &argument.spec.wanted;
        let named = is_shown(
            alloc,
            tables,
            self.caller,
            self.asker,
            pattern,
            wanted,
            path,
        )?;
        Ok(named)
    }

    fn missing(&self, alloc: Global, argument: &FileArgument) -> Result<Step, AllocError> {
        let step = missing_of(alloc, self.listing, argument)?;
        Ok(step)
    }
}
