//! `where` (Command-Line Reference, "p4 where").

ghost use Rattle.std.specs.Prelude.{◌≡◌, ◌∷◌, ◌++◌, [], List, filter, true, if◌then◌else◌, IfOk, OnOk, Some};
ghost use Rattle.std.specs.List.{list_all};
ghost use Rattle.depot_rows.specs.depot_model.Deeds.{Deed};
ghost use Rattle.depot_rows.specs.depot_model.Steps.Placing as model;
ghost use Rattle.depot_rows.specs.depot_model.WellFormed.{spells_path};
ghost use Rattle.reply_rows.specs.Made.{IsMade};
ghost use Rattle.depot_rows.specs.table_changes.Changed.{rows_of};
ghost use Rattle.named_files.specs.Asked.{IsAsker};
ghost use Rattle.have_sync.specs.Placing.{is_told as told_test, spelled_files as files_spelled};

use depot_rows::model::{Caller, FileArgument, Row};
use depot_rows::paths::{ClientPath, DepotPath, Sequence};
use depot_rows::protections::Level;
use depot_rows::tables::Tables;
use file_steps::{FileAct, FileFinder, in_path_order, over_found};
use named_files::{Asker, spelled_path};
use reply_rows::{RowBuilder, Step, not_in_view_row};
use row_reads::in_client_syntax;
use std::alloc::{AllocError, Global};

/// The files that `where` tells.
#[derive(Drop)]
struct ToldFiles<'a> {
    caller: &'a Caller,
    asker: &'a Asker,
}

/// What `where` shows of a file.
#[derive(Drop)]
struct Placing<'a> {
    caller: &'a Caller,
    asker: &'a Asker,
}

/// The row of a file and its place.
fn place_row(alloc: Global, path: &DepotPath, place: &ClientPath) -> Result<Row, AllocError>
    ensures { IfOk result (λ row. row ≡ model.place_row path.now place.now) }
{
    let row = RowBuilder::new(alloc).path(b"depotFile", path)?;
    let row = row.path(b"clientFile", place)?;
    Ok(row.row())
}

/// Whether the asker may list a file, and the view puts it somewhere.
fn is_told(alloc: Global, asker: &Asker, path: &DepotPath) -> Result<bool, AllocError>
    ensures { IfOk result (λ told. told ≡ told_test asker.now path.now) }
{
    if !asker.may(path, Level(1)) {
        return Ok(false);
    }
    let place = asker.place(alloc, path)?;
    Ok(place.is_some())
}

/// Adds such a file.
fn add_told(
    alloc: Global,
    asker: &Asker,
    told: &mut Sequence<DepotPath>,
    path: DepotPath,
) -> Result<(), AllocError>
    ensures { OnOk result (told.new ≡ told.old ++ (if told_test asker.now path then path ∷ [] else [])) }
{
    let is = is_told(alloc, asker, &path)?;
    if is {
        told.push(path)?;
    }
    Ok(())
}

/// Such files among some.
fn told_among(
    alloc: Global,
    asker: &Asker,
    files: Sequence<DepotPath>,
) -> Result<Sequence<DepotPath>, AllocError>
    ensures { IfOk result (λ told. told ≡ filter (told_test asker.now) files) }
{
    let mut told = Sequence::new(alloc);
    for path in files.into_vec() {
        add_told(alloc, asker, &mut told, path)?;
    }
    Ok(told)
}

/// The files of a path that an argument spells: itself, or in client syntax those that the view puts there.
fn spelled_files(
    alloc: Global,
    asker: &Asker,
    argument: &FileArgument,
    path: DepotPath,
) -> Result<Sequence<DepotPath>, AllocError>
    ensures { IfOk result (λ files. files ≡ files_spelled asker.now argument.now path) }
{
    if in_client_syntax(&asker.client, &argument.spec.pattern) {
        let found = asker.view.to_depot(alloc, &path)?;
        let files = in_path_order(alloc, found)?;
        Ok(files)
    } else {
        let mut files = Sequence::new(alloc);
        files.push(path)?;
        Ok(files)
    }
}

impl<'a> FileFinder for ToldFiles<'a> {
    ghost use Rattle.std.specs.Prelude.{◌∷◌, []};
    ghost use Rattle.depot_rows.specs.depot_model.Refusals.{refusal_row};
    ghost use Rattle.depot_rows.specs.depot_model.Steps.Placing.{told};
    ghost use Rattle.depot_rows.specs.depot_model.declared.refusal.Refusal.TheVariants as refusals;
    ghost use Rattle.named_files.specs.Asked.{IsAsker};

    ghost reads = { λ finder rows d. IsAsker d finder.caller.now finder.asker.now };

    ghost found = { λ finder d argument. told d finder.caller.now argument };

    ghost rows_without = { λ finder argument. refusal_row (refusals.NotInView argument.text) ∷ [] };

    fn find(
        &self,
        alloc: Global,
        _tables: &Tables,
        argument: &FileArgument,
    ) -> Result<Sequence<DepotPath>, AllocError> {
        let spelled = spelled_path(alloc, argument)?;
        match spelled {
            Some(path) => {
                let files = spelled_files(alloc, self.asker, argument, path)?;
                let told = told_among(alloc, self.asker, files)?;
                Ok(told)
            }
            None => Ok(Sequence::new(alloc)),
        }
    }

    fn missing(&self, alloc: Global, argument: &FileArgument) -> Result<Step, AllocError> {
        let row = not_in_view_row(alloc, argument.text.as_bytes())?;
        let step = Step::tells(alloc, row)?;
        Ok(step)
    }
}

impl<'a> FileAct for Placing<'a> {
    ghost use Rattle.depot_rows.specs.depot_model.Steps.Placing.{tell_place};
    ghost use Rattle.named_files.specs.Asked.{IsAsker};

    ghost reads = { λ placing rows d. IsAsker d placing.caller.now placing.asker.now };

    ghost acts = { λ placing d argument path. tell_place d placing.caller.now path };

    ghost is_later = { λ placing d e. Unit {0} };

    fn act(
        &self,
        alloc: Global,
        _tables: &Tables,
        _argument: &FileArgument,
        path: &DepotPath,
    ) -> Result<Step, AllocError> {
        let place = self.asker.place(alloc, path)?;
        match place {
            Some(place) => {
                let row = place_row(alloc, path, &place)?;
                let step = Step::tells(alloc, row)?;
                Ok(step)
            }
            None => {
                let step = Step::new(alloc);
                Ok(step)
            }
        }
    }

    ghost first = { λ placing d. tt };

    ghost next = { λ placing d e argument path later. tt };
}

/// `where PATH...`: where the client's view puts files, each argument being a path, by the asker's rights and view
/// alone. The one error is want of memory.
pub fn where_is(
    alloc: Global,
    tables: &Tables,
    caller: &Caller,
    asker: &Asker,
    arguments: &[FileArgument],
) -> Result<Step, AllocError>
    ensures { IfOk result (λ step. (d : List Deed) → list_all spells_path arguments.now ≡ true →
        IsAsker d caller.now asker.now →
        IsMade (rows_of tables.now) d d (model.where_is d caller.now arguments.now) step) }
{
    let files = ToldFiles { caller, asker };
    let placing = Placing { caller, asker };
    let step = over_found(alloc, tables, &files, &placing, arguments)?;
    Ok(step)
}
