//! `resolve` (Command-Line Reference, "p4 resolve").

ghost use Rattle.std.specs.Prelude.{◌≡◌, List, IfOk, true};
ghost use Rattle.std.specs.List.{list_all};
ghost use Rattle.depot_rows.specs.db_records.declared.table.TableId.TheVariants as table_ids;
ghost use Rattle.depot_rows.specs.table_changes.Changed.{rows_of};
ghost use Rattle.depot_rows.specs.depot_model.Deeds.{Deed};
ghost use Rattle.depot_rows.specs.depot_model.Rules.{IsSound};
ghost use Rattle.depot_rows.specs.depot_model.Steps.Resolving as model;
ghost use Rattle.depot_rows.specs.depot_model.WellFormed.{asks_head};
ghost use Rattle.depot_rows.specs.Standing.{HasRows};
ghost use Rattle.named_files.specs.Asked.{IsAsker};
ghost use Rattle.reply_rows.specs.Made.{IsMade};
ghost use Rattle.integ_records.specs.Turns.{Reads};

use crate::turns::turns;
use depot_rows::model::{Caller, FileArgument, Taking};
use depot_rows::paths::DepotPath;
use depot_rows::protections::Level;
use depot_rows::tables::Tables;
use file_openings::opening_of;
use file_steps::{FileAct, over_all, within_files};
use named_files::{Asker, HeadFiles, Listing};
use opening_parts::right_refusal;
use opening_reads::{opening_in, owed_resolves};
use reply_rows::Step;
use std::alloc::{AllocError, Global};

/// What `resolve` does with a file.
#[derive(Drop)]
struct Resolving<'a> {
    caller: &'a Caller,
    asker: &'a Asker,
    taking: Taking,
}

impl<'a> FileAct for Resolving<'a> {
    ghost use Rattle.depot_rows.specs.depot_model.Steps.Resolving.{resolve_file as step_of_file};
    ghost use Rattle.integ_records.specs.Turns.{Reads};

    ghost reads = { λ resolving rows d. Reads resolving.caller.now resolving.asker.now rows d };

    ghost acts = { λ resolving d argument path. step_of_file resolving.taking d resolving.caller.now path };

    ghost is_later = { λ resolving d e. Unit {0} };

    fn act(
        &self,
        alloc: Global,
        tables: &Tables,
        _argument: &FileArgument,
        path: &DepotPath,
    ) -> Result<Step, AllocError> {
        if let Some(row) = right_refusal(alloc, self.asker, path, Level(3))? {
            return Step::tells(alloc, row);
        }
        let client = &self.caller.client;
        let Some(working) = opening_of(alloc, tables, client, path)? else {
            return Ok(Step::new(alloc));
        };
        let owings = owed_resolves(alloc, tables, client, path)?;
        let opening = opening_in(alloc, client, path, working)?;
        turns(alloc, tables, self.taking, opening, owings.as_slice())
    }

    ghost first = { λ resolving d. tt };

    ghost next = { λ resolving d e argument path later. tt };
}

/// `resolve -at [FILE...]`, `resolve -ay [FILE...]`: pays the resolves that the client owes for files that it has
/// opened, where it takes theirs or yours, from the tables of forms, resolves, opened files and revisions alone. The
/// one error is want of memory.
pub fn resolve(
    alloc: Global,
    tables: &Tables,
    caller: &Caller,
    asker: &Asker,
    taking: Taking,
    arguments: &[FileArgument],
) -> Result<Step, AllocError>
    ensures { IfOk result (λ step. (d : List Deed) → list_all asks_head arguments.now ≡ true → IsSound d →
        IsAsker d caller.now asker.now →
        HasRows (rows_of tables.now) d table_ids.Domain → HasRows (rows_of tables.now) d table_ids.Resolve →
        HasRows (rows_of tables.now) d table_ids.Working → HasRows (rows_of tables.now) d table_ids.Rev →
        IsMade (rows_of tables.now) d d (model.resolve d caller.now taking arguments.now) step) }
{
    let listing = Listing::opened_by(&caller.client)?;
    let files = HeadFiles {
        caller,
        asker,
        listing: &listing,
    };
    let act = Resolving {
        caller,
        asker,
        taking,
    };
    let done = over_all(alloc, tables, &files, &act, arguments)?;
    within_files(alloc, done)
}
