//! The revision of a file that is chosen, by what was seen as the files were found, or by a search.

ghost use Rattle.std.specs.Prelude.{◌≡◌, ◌&&◌, ℕ, not, bytes_eq, codes, List, Some, false, true, filter, option_map, IfOk, Ok};
ghost use Rattle.std.specs.Option.{option_copied};
ghost use Rattle.depot_rows.specs.depot_path.Path.{path_of, printed};
ghost use Rattle.depot_rows.specs.db_records.declared.key.Key.TheVariants as keys;
ghost use Rattle.depot_rows.specs.db_records.declared.record.Record.{Record as Row};
ghost use Rattle.depot_rows.specs.db_records.declared.rows.RevRecord.{RevRecord as Revised};
ghost use Rattle.depot_rows.specs.db_records.declared.table.TableId.TheVariants as table_ids;
ghost use Rattle.depot_rows.specs.table_changes.Changed.{rows_of};
ghost use Rattle.depot_rows.specs.depot_model.Arguments.{names as names_file};
ghost use Rattle.depot_rows.specs.depot_model.Choice.{chosen as chosen_in};
ghost use Rattle.depot_rows.specs.depot_model.Deeds.{Deed};
ghost use Rattle.depot_rows.specs.depot_model.Revisions.{is_live_at as live_at};
ghost use Rattle.depot_rows.specs.depot_model.Rules.{IsSound};
ghost use Rattle.depot_rows.specs.depot_model.Steps.Listing.{numbered};
ghost use Rattle.depot_rows.specs.Standing.{HasRows, row_in};
ghost use Rattle.named_files.specs.Listed.{files_of};
ghost use Rattle.named_files.specs.Sets.{ShownReads};
ghost use Rattle.revision_reads.specs.Choice.{HaveRows, wanted_tables};
ghost use Rattle.revision_reads.specs.History.{numbered_record, seen};
ghost use Rattle.newest_revisions.specs.Seen.{AreHeads, IsNewest};
ghost use Rattle.newest_revisions.specs.Newest.{HasRow, IsAt, asks_for_none as asks_none, is_submitted as submitted_test};

use crate::seen::SeenRows;
use depot_rows::model::{Caller, FileArgument};
use depot_rows::paths::{DepotPath, Sequence, Wanted};
use depot_rows::records::RevRecord;
use depot_rows::tables::Tables;
use file_steps::FileSet;
use named_files::{HeadedFiles, Listing, ShownFiles};
use revision_reads::{Chosen, chosen_of, revision_of, stored_choice};
use std::alloc::{AllocError, Global};

/// A revision of a file, 0 for none, and its row, if the file has it.
#[derive(Clone, Copy)]
pub struct Revision<'t> {
    pub rev: u32,
    pub row: Option<&'t RevRecord>,
}

impl<'t> Revision<'t> {
    /// Whether the file has the revision, and isn't deleted there.
    pub fn is_live(self) -> bool
        ensures { (d : List Deed) (path : List ℕ) → HasRow d path self.entry → result ≡ live_at d path self.entry.rev }
    {
        match self.row {
            Some(row) => is_live(row),
            None => false,
        }
    }
}

/// Whether no revision is asked for.
pub fn asks_for_none(wanted: &Wanted) -> bool
    ensures { result ≡ asks_none wanted.now }
{
    match wanted {
        Wanted::Head => true,
        Wanted::One(_) => false,
        Wanted::Range(_, _) => false,
    }
}

/// Whether a list is that of the submitted files.
fn is_submitted(listing: &Listing) -> bool
    ensures { result ≡ submitted_test listing.now }
{
    match listing {
        Listing::Submitted => true,
        Listing::Had { .. } => false,
        Listing::OpenedBy { .. } => false,
    }
}

/// Whether an argument asks for the newest revisions of submitted files.
fn asks_heads(argument: &FileArgument, listing: &Listing) -> bool
    ensures { result ≡ (asks_none argument.now.spec.wanted && submitted_test listing.now) }
{
    asks_for_none(&argument.spec.wanted) && is_submitted(listing)
}

/// Whether a revision isn't deleted.
pub fn is_live(row: &RevRecord) -> bool
    ensures { result ≡ (not (bytes_eq row.now.action (codes "delete")) &&
        not (bytes_eq row.now.action (codes "move/delete"))) }
{
    let action = row.action.as_bytes();
    !(action == b"delete".as_slice()) && !(action == b"move/delete".as_slice())
}

/// The revision that a file specification chooses of a file, by a search, None exactly where it passes the file over.
fn searched<'t>(
    alloc: Global,
    tables: &'t Tables,
    caller: &Caller,
    path: &DepotPath,
    wanted: &Wanted,
) -> Result<Option<Revision<'t>>, AllocError>
    ensures { IfOk result (λ found. (d : List Deed) → IsSound d → HasRows (rows_of tables.now) d table_ids.Rev →
        HaveRows (rows_of tables.now) d (wanted_tables wanted.now) →
        IsAt d path.now (chosen_in d caller.now path.now wanted.now) found) }
{
    let chosen = chosen_of(alloc, tables, caller, path, wanted)?;
    match chosen {
        Chosen::PassedOver => Ok(None),
        Chosen::At(rev) => {
            let row = revision_of(alloc, tables, path, rev)?;
            Ok(Some(Revision { rev, row }))
        }
    }
}

impl<'t> SeenRows<'t> {
    /// Among the files of a set, in their order, at least those that an argument names. Where it asks for the newest
    /// revisions of submitted files, the walk that finds these passes the rows of the revisions too, and these are
    /// kept. The one error, here and below, is want of memory.
    pub fn find(
        &mut self,
        alloc: Global,
        tables: &'t Tables,
        set: &ShownFiles<'_>,
        argument: &FileArgument,
    ) -> Result<Sequence<DepotPath>, AllocError>
        ensures paths { IfOk result (λ paths. (d : List Deed) →
            ShownReads set.now.caller.now set.now.asker.now set.now.listing.now (rows_of tables.now) d →
            filter (names_file false d set.now.caller.now argument.now.spec) paths ≡
            filter (names_file false d set.now.caller.now argument.now.spec) (files_of set.now.listing.now d)) }
        ensures heads { IfOk result (λ _. AreHeads (rows_of tables.now table_ids.Rev) self.old →
            AreHeads (rows_of tables.now table_ids.Rev) self.new) }
    {
        let sees = asks_heads(argument, set.listing);
        if !sees {
            let candidates = set.candidates(alloc, tables, argument)?;
            return Ok(candidates);
        }
        let found = set.headed(alloc, tables, argument)?;
        let HeadedFiles { paths, heads } = found;
        self.see(heads);
        Ok(paths)
    }

    /// The row of the newest revision of a file, where none is asked for, and it was seen behind those of the files
    /// before.
    fn seen_row(
        &mut self,
        alloc: Global,
        path: &DepotPath,
        wanted: &Wanted,
    ) -> Result<Option<&'t RevRecord>, AllocError>
        ensures heads { IfOk result (λ _. (rows : List Row) → AreHeads rows self.old → AreHeads rows self.new) }
        ensures asked { IfOk result (λ row. (r : Revised) → option_copied row ≡ Some r → asks_none wanted.now ≡ true) }
        ensures row { IfOk result (λ row. (r : Revised) → option_copied row ≡ Some r → (rows : List Row) →
            AreHeads rows self.old → IsNewest rows path.now r) }
    {
        if !asks_for_none(wanted) {
            return Ok(None);
        }
        let text = path.print(alloc)?;
        let row = self.go_to(&text);
        drop(text);
        Ok(row)
    }

    /// The revision that a file specification chooses of a file, and its row, None exactly where it passes the file
    /// over. Where it asks for none, that is the newest one: what was seen behind those of the files before, or else it
    /// is searched.
    pub fn choice(
        &mut self,
        alloc: Global,
        tables: &'t Tables,
        caller: &Caller,
        path: &DepotPath,
        wanted: &Wanted,
    ) -> Result<Option<Revision<'t>>, AllocError>
        ensures heads { IfOk result (λ _. (rows : List Row) → AreHeads rows self.old → AreHeads rows self.new) }
        ensures choice { IfOk result (λ found. (d : List Deed) → AreHeads (rows_of tables.now table_ids.Rev) self.old →
            IsSound d → HasRows (rows_of tables.now) d table_ids.Rev →
            HaveRows (rows_of tables.now) d (wanted_tables wanted.now) →
            IsAt d path.now (chosen_in d caller.now path.now wanted.now) found) }
    {
        // the bytes of a path are one
        let _bytes = path.as_bytes();
        let row = self.seen_row(alloc, path, wanted)?;
        match row {
            Some(row) => Ok(Some(Revision {
                rev: row.rev,
                row: Some(row),
            })),
            None => {
                let found = searched(alloc, tables, caller, path, wanted)?;
                Ok(found)
            }
        }
    }

    /// The row of the revision that a file specification chooses of a file, with the place of its content, None exactly
    /// where it passes the file over or chooses none. Where it asks for none, that is the row of the newest one: what
    /// was seen behind those of the files before, or else it is searched.
    pub fn chosen(
        &mut self,
        alloc: Global,
        tables: &'t Tables,
        caller: &Caller,
        path: &DepotPath,
        wanted: &Wanted,
    ) -> Result<Option<&'t RevRecord>, AllocError>
        ensures heads { IfOk result (λ _. (rows : List Row) → AreHeads rows self.old → AreHeads rows self.new) }
        ensures row { IfOk result (λ row. (d : List Deed) → AreHeads (rows_of tables.now table_ids.Rev) self.old →
            IsSound d → HasRows (rows_of tables.now) d table_ids.Rev →
            HaveRows (rows_of tables.now) d (wanted_tables wanted.now) →
            option_map seen (option_copied row) ≡
            option_map numbered_record (numbered d path.now (chosen_in d caller.now path.now wanted.now))) }
        ensures stored { IfOk result (λ row. AreHeads (rows_of tables.now table_ids.Rev) self.old → (r : Revised) →
            option_copied row ≡ Some r →
            row_in (rows_of tables.now) (keys.Rev (printed path.now) r.rev) ≡ Some (Row.Rev r)) }
        ensures read_again { IfOk result (λ _. path_of (printed path.now) ≡ Ok path.now) }
    {
        // the bytes of a path are one
        let _bytes = path.as_bytes();
        let row = self.seen_row(alloc, path, wanted)?;
        match row {
            Some(row) => Ok(Some(row)),
            None => {
                let row = stored_choice(alloc, tables, caller, path, wanted)?;
                Ok(row)
            }
        }
    }
}
