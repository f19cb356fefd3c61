//! The revision of a file that is chosen, and what a client has of it, by what was seen as the files were found, and
//! from the place of the file before.

ghost use Rattle.std.specs.Prelude.{◌≡◌, List, false, filter, IfOk, Ok};
ghost use Rattle.std.specs.Option.{option_copied};
ghost use Rattle.depot_rows.specs.depot_path.Path.{path_of, printed};
ghost use Rattle.depot_rows.specs.db_records.declared.key.Key.TheVariants as keys;
ghost use Rattle.depot_rows.specs.db_records.declared.table.TableId.TheVariants as table_ids;
ghost use Rattle.depot_rows.specs.table_changes.Changed.{AllRows, rows_of};
ghost use Rattle.depot_rows.specs.depot_model.Arguments.{names as names_file};
ghost use Rattle.depot_rows.specs.depot_model.Choice.{chosen};
ghost use Rattle.depot_rows.specs.depot_model.Deeds.{Deed};
ghost use Rattle.depot_rows.specs.depot_model.Latest.{have};
ghost use Rattle.depot_rows.specs.depot_model.Rules.{IsSound};
ghost use Rattle.depot_rows.specs.Standing.{HasRows};
ghost use Rattle.row_reads.specs.Found.{have_in};
ghost use Rattle.named_files.specs.Listed.{files_of};
ghost use Rattle.named_files.specs.Sets.{ShownReads};
ghost use Rattle.newest_revisions.specs.Newest.{IsAt};
ghost use Rattle.revision_reads.specs.Choice.{HaveRows, wanted_tables};
ghost use Rattle.have_sync.specs.Newest.{AreOf};

use crate::place::Place;
use depot_rows::model::{Caller, FileArgument};
use depot_rows::paths::{DepotPath, Name, Sequence, Text, Wanted};
use depot_rows::records::{Key, Record, TableId};
use depot_rows::tables::Tables;
use named_files::ShownFiles;
use newest_revisions::{Revision, SeenRows};
use std::alloc::{AllocError, Global};

/// The places of the files before, in the rows of newest revisions that were seen and in the table of have lists.
#[derive(Drop)]
pub(crate) struct Places<'a> {
    heads: SeenRows<'a>,
    haves: Place<'a>,
}

/// The places before all rows, where no newest revision was seen yet.
pub(crate) fn places_of(alloc: Global, tables: &Tables) -> Places<'_>
    ensures { AreOf (rows_of tables.now) result }
{
    let heads = SeenRows::none(alloc);
    let lists = tables.version(TableId::Have);
    let haves = Place::before(lists);
    Places { heads, haves }
}

impl<'a> Places<'a> {
    /// Among the files of a set, in their order, at least those that an argument names, as [`SeenRows::find`] finds
    /// them.
    pub(crate) fn find(
        &mut self,
        alloc: Global,
        tables: &'a Tables,
        set: &ShownFiles<'_>,
        argument: &FileArgument,
    ) -> Result<Sequence<DepotPath>, AllocError>
        ensures paths { IfOk result (λ paths. (d : List Deed) →
            ShownReads set.now.caller.now set.now.asker.now set.now.listing.now (rows_of tables.now) d →
            filter (names_file false d set.now.caller.now argument.now.spec) paths ≡
            filter (names_file false d set.now.caller.now argument.now.spec) (files_of set.now.listing.now d)) }
        ensures places { IfOk result (λ _. AreOf (rows_of tables.now) self.old → AreOf (rows_of tables.now) self.new) }
    {
        let paths = self.heads.find(alloc, tables, set, argument)?;
        Ok(paths)
    }

    /// The revision that a file specification chooses of a file, and its row, as [`SeenRows::choice`] finds it.
    pub(crate) fn choice(
        &mut self,
        alloc: Global,
        tables: &'a Tables,
        caller: &Caller,
        path: &DepotPath,
        wanted: &Wanted,
    ) -> Result<Option<Revision<'a>>, AllocError>
        ensures places { IfOk result (λ _. (rows : AllRows) → AreOf rows self.old → AreOf rows self.new) }
        ensures choice { IfOk result (λ found. (d : List Deed) → AreOf (rows_of tables.now) self.old → IsSound d →
            HasRows (rows_of tables.now) d table_ids.Rev →
            HaveRows (rows_of tables.now) d (wanted_tables wanted.now) →
            IsAt d path.now (chosen d caller.now path.now wanted.now) found) }
    {
        let found = self.heads.choice(alloc, tables, caller, path, wanted)?;
        Ok(found)
    }

    /// The revision of a file that a client has, 0 where it has none. Where the files come in path order, its have list
    /// is passed in one walk.
    pub(crate) fn have(
        &mut self,
        alloc: Global,
        tables: &Tables,
        client: &Name,
        path: &DepotPath,
    ) -> Result<u32, AllocError>
        ensures places { IfOk result (λ _. (rows : AllRows) → AreOf rows self.old → AreOf rows self.new) }
        ensures have { IfOk result (λ rev. (d : List Deed) → AreOf (rows_of tables.now) self.old →
            HasRows (rows_of tables.now) d table_ids.Have → rev ≡ have d client.now path.now) }
    {
        let key = have_key(alloc, client, path)?;
        let row = self.haves.get(&key);
        drop(key);
        let rev = have_rev(row);
        Ok(rev)
    }
}

/// The key of a file in a have list.
fn have_key(alloc: Global, client: &Name, path: &DepotPath) -> Result<Key, AllocError>
    ensures key { IfOk result (λ key. key ≡ keys.Have client.now (printed path.now)) }
    ensures read_again { path_of (printed path.now) ≡ Ok path.now }
{
    let path = path.print(alloc)?;
    let client = Text::from_bytes(alloc, client.as_bytes())?;
    Ok(Key::Have { client, path })
}

/// The revision in a row of a have list, 0 where there is none.
fn have_rev(row: Option<&Record>) -> u32
    ensures { result ≡ have_in (option_copied row.entry) }
{
    match row {
        Some(Record::Have(have)) => have.rev,
        _ => 0,
    }
}
