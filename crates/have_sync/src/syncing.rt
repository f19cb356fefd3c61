//! `sync` (Command-Line Reference, "p4 sync").

ghost use Rattle.std.specs.Prelude.{◌≡◌, ◌<◌, List, IfOk, is_some};
ghost use Rattle.std.specs.Option.{option_copied};
ghost use Rattle.depot_rows.specs.db_records.declared.table.TableId.TheVariants as table_ids;
ghost use Rattle.depot_rows.specs.table_changes.Changed.{AllRows, rows_of};
ghost use Rattle.depot_rows.specs.depot_model.Choice as choices;
ghost use Rattle.depot_rows.specs.depot_model.Choice.{chosen, shown as shown_in};
ghost use Rattle.depot_rows.specs.depot_model.Deeds.{Deed, Opening};
ghost use Rattle.depot_rows.specs.depot_model.Rules.{IsSound};
ghost use Rattle.depot_rows.specs.depot_model.Step.{Step as ModelStep};
ghost use Rattle.depot_rows.specs.depot_model.Steps.Syncing as model;
ghost use Rattle.depot_rows.specs.Standing.{HasRows};
ghost use Rattle.named_files.specs.Asked.{IsAsker};
ghost use Rattle.newest_revisions.specs.Newest.{HasRow};
ghost use Rattle.reply_rows.specs.Made.{IsMade};
ghost use Rattle.have_sync.specs.Newest.{AreOf};
ghost use Rattle.have_sync.specs.Syncing.{Reads, get_step, owe_step, reaches as reaches_in};

use crate::newest::{Places, places_of};
use crate::rows::{changed_row, shown_row};
use deed_list::Deeds;
use depot_rows::Owing;
use depot_rows::model::{Caller, FileArgument};
use depot_rows::paths::{DepotPath, Name, Sequence};
use depot_rows::protections::Level;
use depot_rows::records::ResolveRecord;
use depot_rows::tables::Tables;
use file_openings::opening_of;
use file_steps::{WalkAct, named_among, walk_over_all, within_files};
use named_files::{Asker, Listing, ShownFiles};
use newest_revisions::Revision;
use opening_reads::{held, owed_of};
use reply_rows::{Step, denied_row};
use revision_reads::shown_by;
use std::alloc::{AllocError, Global};

/// What `sync` does with a file.
#[derive(Drop)]
struct Syncing<'a> {
    caller: &'a Caller,
    asker: &'a Asker,
    again: bool,
    places: Places<'a>,
}

/// What becomes of the revision in the have list, 0 for none; None where nothing is to be done.
fn sync_word(again: bool, had: u32, wanted: u32) -> Option<&'static [u8]>
    ensures { option_copied result ≡ model.sync_word again had wanted }
{
    if had == 0 {
        if wanted == 0 { None } else { Some(b"added") }
    } else if wanted == 0 {
        Some(b"deleted")
    } else if had == wanted {
        if again { Some(b"refreshed") } else { None }
    } else {
        Some(b"updated")
    }
}

/// The step of a file whose revision in the have list becomes another one, or is fetched again.
fn get(
    alloc: Global,
    caller: &Caller,
    asker: &Asker,
    path: &DepotPath,
    had: u32,
    wanted: Revision<'_>,
    word: &[u8],
) -> Result<Step, AllocError>
    ensures { IfOk result (λ step. (all : AllRows) (d e : List Deed) → IsAsker d caller.now asker.now →
        HasRow d path.now wanted.entry →
        IsMade all d e (get_step d caller.now path.now had wanted.entry.rev word.now) step) }
{
    // the bytes of a path are one
    let _bytes = path.as_bytes();
    let stays = had == wanted.rev;
    if stays {
        let told = changed_row(alloc, asker, path, had, wanted, word)?;
        let again = Step::tells(alloc, told)?;
        return Ok(again);
    }
    let file = held(&caller.client, path)?;
    let row = changed_row(alloc, asker, path, had, wanted, word)?;
    let step = Step::gets(alloc, file, wanted.rev, row)?;
    Ok(step)
}

/// What is done with a file that the client hasn't opened, and is to have at a revision, 0 for none.
fn sync_have(
    alloc: Global,
    tables: &Tables,
    caller: &Caller,
    asker: &Asker,
    again: bool,
    places: &mut Places<'_>,
    path: &DepotPath,
    wanted: Revision<'_>,
) -> Result<Step, AllocError>
    ensures places { IfOk result (λ _. (rows : AllRows) → AreOf rows places.old → AreOf rows places.new) }
    ensures step { IfOk result (λ step. (d e : List Deed) → Reads caller.now asker.now (rows_of tables.now) d →
        AreOf (rows_of tables.now) places.old → HasRow d path.now wanted.entry →
        IsMade (rows_of tables.now) d e (model.sync_have again d caller.now path.now wanted.entry.rev) step) }
{
    let had = places.have(alloc, tables, &caller.client, path)?;
    let said = sync_word(again, had, wanted.rev);
    match said {
        Some(word) => {
            let step = get(alloc, caller, asker, path, had, wanted, word)?;
            Ok(step)
        }
        None => {
            let step = Step::new(alloc);
            Ok(step)
        }
    }
}

/// Whether a row is of a resolve up to a revision or more.
fn reaches(row: Option<&ResolveRecord>, rev: u32) -> bool
    ensures { result ≡ reaches_in (option_copied row.entry) rev }
{
    match row {
        Some(row) => rev <= row.last,
        None => false,
    }
}

/// The resolve of a file from itself.
fn owing(client: &Name, path: &DepotPath, first: u32, last: u32) -> Result<Owing, AllocError>
    ensures { IfOk result (λ owing. owing ≡
        record { client = client.now; path = path.now; from = path.now; first = first; last = last }) }
{
    let client = client.clone()?;
    let from = path.clone()?;
    let path = path.clone()?;
    Ok(Owing {
        client,
        path,
        from,
        first,
        last,
    })
}

/// The step of an opened file that gets a resolve.
fn owe(
    alloc: Global,
    caller: &Caller,
    asker: &Asker,
    path: &DepotPath,
    base: u32,
    found: Revision<'_>,
) -> Result<Step, AllocError>
    requires { base < found.rev }
    ensures { IfOk result (λ step. (all : AllRows) (d e : List Deed) → IsAsker d caller.now asker.now →
        HasRow d path.now found.entry →
        IsMade all d e (owe_step d caller.now path.now base found.entry.rev) step) }
{
    // the bytes of a path are one
    let _bytes = path.as_bytes();
    let owing = owing(&caller.client, path, base + 1, found.rev)?;
    let row = shown_row(alloc, asker, path, found, b"owed")?;
    let step = Step::owes(alloc, owing, row)?;
    Ok(step)
}

/// What is done with a file that the client has opened from a revision.
fn sync_opened(
    alloc: Global,
    tables: &Tables,
    caller: &Caller,
    asker: &Asker,
    path: &DepotPath,
    base: u32,
    found: Revision<'_>,
) -> Result<Step, AllocError>
    ensures { IfOk result (λ step. (d e : List Deed) (o : Opening) → Reads caller.now asker.now (rows_of tables.now) d →
        HasRow d path.now found.entry → o.base ≡ base →
        IsMade (rows_of tables.now) d e (model.sync_opened d caller.now o path.now found.entry.rev) step) }
{
    let current = found.rev <= base;
    if current {
        let nothing = Step::new(alloc);
        return Ok(nothing);
    }
    let row = owed_of(alloc, tables, &caller.client, path, path)?;
    let owed = reaches(row, found.rev);
    if owed {
        let waits = Step::new(alloc);
        Ok(waits)
    } else {
        let step = owe(alloc, caller, asker, path, base, found)?;
        Ok(step)
    }
}

/// Whether the client's view shows a file at the choice of the argument.
fn is_shown(
    alloc: Global,
    tables: &Tables,
    caller: &Caller,
    asker: &Asker,
    argument: &FileArgument,
    path: &DepotPath,
) -> Result<bool, AllocError>
    ensures { IfOk result (λ shown. (d : List Deed) → Reads caller.now asker.now (rows_of tables.now) d →
        shown ≡ is_some (shown_in d caller.now argument.now.spec.wanted path.now)) }
{
    let wanted = &argument.spec.wanted;
    let place = shown_by(alloc, tables, caller, &asker.view, path, wanted)?;
    let shown = place.is_some();
    drop(place);
    Ok(shown)
}

/// The revision that the client is to have where one is chosen: that one, or none where the file is deleted there or
/// isn't shown.
fn wanted_of<'t>(
    alloc: Global,
    tables: &Tables,
    caller: &Caller,
    asker: &Asker,
    argument: &FileArgument,
    path: &DepotPath,
    found: Revision<'t>,
) -> Result<Revision<'t>, AllocError>
    ensures rev { IfOk result (λ wanted. (d : List Deed) → Reads caller.now asker.now (rows_of tables.now) d →
        HasRow d path.now found.entry →
        wanted.rev ≡ model.wanted_rev d caller.now argument.now path.now found.entry.rev) }
    ensures row { IfOk result (λ wanted. (d : List Deed) → HasRow d path.now found.entry → HasRow d path.now wanted) }
{
    let none = Revision { rev: 0, row: None };
    let live = found.is_live();
    if !live {
        return Ok(none);
    }
    let shown = is_shown(alloc, tables, caller, asker, argument, path)?;
    if shown { Ok(found) } else { Ok(none) }
}

/// What is done with a file where a revision is chosen, 0 for none.
fn sync_at(
    alloc: Global,
    tables: &Tables,
    caller: &Caller,
    asker: &Asker,
    again: bool,
    places: &mut Places<'_>,
    argument: &FileArgument,
    path: &DepotPath,
    found: Revision<'_>,
) -> Result<Step, AllocError>
    ensures places { IfOk result (λ _. (rows : AllRows) → AreOf rows places.old → AreOf rows places.new) }
    ensures step { IfOk result (λ step. (d e : List Deed) → Reads caller.now asker.now (rows_of tables.now) d →
        AreOf (rows_of tables.now) places.old → HasRow d path.now found.entry →
        IsMade (rows_of tables.now) d e (model.sync_to again d caller.now argument.now path.now (choices.At found.entry.rev)) step) }
{
    let row = opening_of(alloc, tables, &caller.client, path)?;
    match row {
        Some(row) => {
            let step = sync_opened(alloc, tables, caller, asker, path, row.base, found)?;
            Ok(step)
        }
        None => {
            let wanted = wanted_of(alloc, tables, caller, asker, argument, path, found)?;
            let step = sync_have(alloc, tables, caller, asker, again, places, path, wanted)?;
            Ok(step)
        }
    }
}

/// What is done with a file by the choice of the argument.
fn sync_to<'a>(
    alloc: Global,
    tables: &'a Tables,
    caller: &Caller,
    asker: &Asker,
    again: bool,
    places: &mut Places<'a>,
    argument: &FileArgument,
    path: &DepotPath,
) -> Result<Step, AllocError>
    ensures places { IfOk result (λ _. (rows : AllRows) → AreOf rows places.old → AreOf rows places.new) }
    ensures step { IfOk result (λ step. (d e : List Deed) → Reads caller.now asker.now (rows_of tables.now) d →
        AreOf (rows_of tables.now) places.old →
        IsMade (rows_of tables.now) d e
        (model.sync_to again d caller.now argument.now path.now (chosen d caller.now path.now argument.now.spec.wanted)) step) }
{
    let choice = places.choice(alloc, tables, caller, path, &argument.spec.wanted)?;
    match choice {
        Some(found) => {
            let step = sync_at(
                alloc, tables, caller, asker, again, places, argument, path, found,
            )?;
            Ok(step)
        }
        None => {
            let step = Step::new(alloc);
            Ok(step)
        }
    }
}

impl<'a> WalkAct<'a, ShownFiles<'a>> for Syncing<'a> {
    ghost use Rattle.depot_rows.specs.depot_model.Steps.Syncing.{sync_file as step_of_file};
    ghost use Rattle.have_sync.specs.Newest.{AreOf};
    ghost use Rattle.have_sync.specs.Syncing.{Reads};

    ghost stands = { λ syncing set argument rows d e. Reads syncing.caller.now syncing.asker.now rows d × AreOf rows syncing.places };

    ghost acts = { λ syncing d argument path. step_of_file syncing.again d syncing.caller.now argument path };

    fn find(
        &mut self,
        alloc: Global,
        tables: &'a Tables,
        set: &ShownFiles<'a>,
        argument: &FileArgument,
    ) -> Result<Sequence<DepotPath>, AllocError> {
        let candidates = self.places.find(alloc, tables, set, argument)?;
        let named = named_among(alloc, tables, set, argument, candidates)?;
        Ok(named)
    }

    fn act(
        &mut self,
        alloc: Global,
        tables: &'a Tables,
        argument: &FileArgument,
        path: &DepotPath,
    ) -> Result<Step, AllocError> {
        let may = self.asker.may(path, Level(2));
        if may {
            let step = sync_to(
                alloc,
                tables,
                self.caller,
                self.asker,
                self.again,
                &mut self.places,
                argument,
                path,
            )?;
            Ok(step)
        } else {
            let row = denied_row(alloc, path, Level(2))?;
            let step = Step::tells(alloc, row)?;
            Ok(step)
        }
    }
}

/// The step, or its rows alone where it only shows.
fn shown_alone(alloc: Global, shows: bool, step: Step) -> Step
    ensures { (all : AllRows) (d e : List Deed) (m : ModelStep) → IsMade all d e m step →
        IsMade all d e (model.shows_alone shows m) result }
{
    if !shows {
        return step;
    }
    let Step {
        deeds,
        rows,
        stores,
        reads,
    } = step;
    drop(deeds);
    Step {
        deeds: Deeds::new(alloc),
        rows,
        stores,
        reads,
    }
}

/// `sync [-f] [-n] [FILE...]`: the client is to have the files at the revisions that the arguments choose, and files
/// that it has opened get a resolve that is owed; with `-n` it is shown alone. It reads the tables of forms, have
/// lists, labels, resolves, opened files, changes and revisions, and of each file that is named its rows alone: where
/// no revision is asked for, the walk over the rows of revisions that finds the files gives their newest ones too, and
/// the have list is passed beside it. The one error is want of memory.
pub fn sync(
    alloc: Global,
    tables: &Tables,
    caller: &Caller,
    asker: &Asker,
    again: bool,
    shows: bool,
    arguments: &[FileArgument],
) -> Result<Step, AllocError>
    ensures { IfOk result (λ step. (d : List Deed) → IsSound d → IsAsker d caller.now asker.now →
        HasRows (rows_of tables.now) d table_ids.Domain →
        HasRows (rows_of tables.now) d table_ids.Have → HasRows (rows_of tables.now) d table_ids.Label →
        HasRows (rows_of tables.now) d table_ids.Resolve →
        HasRows (rows_of tables.now) d table_ids.Working → HasRows (rows_of tables.now) d table_ids.Change →
        HasRows (rows_of tables.now) d table_ids.Rev →
        IsMade (rows_of tables.now) d d (model.sync d caller.now again shows arguments.now) step) }
{
    let listing = Listing::Submitted;
    let files = ShownFiles {
        caller,
        asker,
        listing: &listing,
    };
    let mut syncing = Syncing {
        caller,
        asker,
        again,
        places: places_of(alloc, tables),
    };
    let done = walk_over_all(alloc, tables, &files, &mut syncing, arguments);
    drop(syncing);
    drop(listing);
    let whole = done?;
    let told = shown_alone(alloc, shows, whole);
    let step = within_files(alloc, told)?;
    Ok(step)
}
