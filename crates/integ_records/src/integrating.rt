//! `integrate` (Command-Line Reference, "p4 integrate").

ghost use Rattle.std.specs.Prelude.{List, IfOk};
ghost use Rattle.depot_rows.specs.db_records.declared.table.TableId.TheVariants as table_ids;
ghost use Rattle.depot_rows.specs.table_changes.Changed.{AllRows, rows_of};
ghost use Rattle.depot_rows.specs.depot_path.Path.{printed};
ghost use Rattle.depot_rows.specs.depot_model.declared.refusal.Refusal.TheVariants as refusals;
ghost use Rattle.depot_rows.specs.depot_model.Deeds.{Deed};
ghost use Rattle.depot_rows.specs.depot_model.Rules.{IsSound};
ghost use Rattle.depot_rows.specs.depot_model.Step.{refuses};
ghost use Rattle.depot_rows.specs.depot_model.Steps.Integrating as model;
ghost use Rattle.depot_rows.specs.Standing.{HasRows};
ghost use Rattle.named_files.specs.Asked.{IsAsker};
ghost use Rattle.reply_rows.specs.Made.{IsMade};
ghost use Rattle.integ_records.specs.Integrates.{integrates_closed};
ghost use Rattle.integ_records.specs.Reading.{Reads, ReadsOwn};

use crate::opened_targets::{Pair, integrate_ends, new_type};
use crate::uncredited::{ends_wanted, last_of};
use command_parts::named_change_refusal;
use depot_rows::model::{Caller, FileArgument, PatternArgument};
use depot_rows::paths::{DepotPath, Text, Wanted, print_bytes};
use depot_rows::protections::Level;
use depot_rows::tables::Tables;
use file_steps::{TurnAct, in_turn, named_by, no_file, within_files};
use named_files::{Asker, Listing, ShownFiles};
use opening_parts::{exclusive_refusal, right_refusal, unseen_row};
use opening_reads::OwnOpenings;
use reply_rows::{Step, already_open_row, not_in_view_row};
use revision_reads::{Chosen, chosen_of, shown_in_view, target_at, target_text};
use std::alloc::{AllocError, Global};

/// What `integrate` does with its files, and what the client has opened so far.
#[derive(Drop)]
struct Integrating<'a> {
    caller: &'a Caller,
    asker: &'a Asker,
    change: Option<u32>,
    from: &'a FileArgument,
    to: &'a PatternArgument,
    own: OwnOpenings,
}

/// The refusal of a target whose text no file has.
fn no_target(alloc: Global, text: &Text) -> Result<Step, AllocError>
    ensures { IfOk result (λ step. (all : AllRows) (d e : List Deed) →
        IsMade all d e (refuses (refusals.NotInView (printed text.now))) step) }
{
    let told = print_bytes(alloc, text.as_bytes())?;
    let row = not_in_view_row(alloc, told.as_bytes())?;
    Step::tells(alloc, row)
}

impl<'a> Integrating<'a> {
    /// What is done with a target that the client hasn't opened.
    fn integrate_closed(
        &self,
        alloc: Global,
        tables: &Tables,
        from: &DepotPath,
        to: &DepotPath,
    ) -> Result<Step, AllocError>
        ensures { IfOk result (λ step. (d e : List Deed) →
            Reads self.now.caller.now self.now.asker.now (rows_of tables.now) d →
            IsMade (rows_of tables.now) d e (integrates_closed d self.now.caller.now self.now.change self.now.from.now.spec.wanted from.now to.now) step) }
    {
        let caller = self.caller;
        let ends = ends_wanted(
            alloc,
            tables,
            caller,
            self.asker,
            &self.from.spec.wanted,
            from,
            to,
        )?;
        let last = last_of(ends);
        let file_type = new_type(alloc, tables, from, to, last)?;
        if let Some(row) = exclusive_refusal(alloc, tables, to, &caller.client, &file_type)? {
            return Step::tells(alloc, row);
        }
        let pair = Pair {
            caller,
            change: self.change,
            from,
            to,
        };
        integrate_ends(alloc, tables, &pair, ends, file_type)
    }

    /// What is done with a target.
    fn integrate_to(
        &self,
        alloc: Global,
        tables: &Tables,
        from: &DepotPath,
        to: &DepotPath,
    ) -> Result<Step, AllocError>
        ensures { IfOk result (λ step. (d e : List Deed) →
            ReadsOwn self.now.caller.now self.now.asker.now self.now.own (rows_of tables.now) d e →
            IsMade (rows_of tables.now) d e (model.integrate_to d e self.now.caller.now self.now.change self.now.from.now.spec.wanted from.now to.now) step) }
    {
        if let Some(row) = right_refusal(alloc, self.asker, to, Level(3))? {
            return Step::tells(alloc, row);
        }
        let caller = self.caller;
        let view = &self.asker.view;
        let place = shown_in_view(alloc, tables, caller, view, to, &Wanted::Head)?;
        if place.is_none() {
            let row = unseen_row(alloc, to)?;
            return Step::tells(alloc, row);
        }
        if self.own.is_opened(alloc, tables, &caller.client, to)? {
            let row = already_open_row(alloc, to)?;
            return Step::tells(alloc, row);
        }
        self.integrate_closed(alloc, tables, from, to)
    }

    /// What is done with a source of which a revision is chosen.
    fn integrate_chosen(
        &self,
        alloc: Global,
        tables: &Tables,
        path: &DepotPath,
    ) -> Result<Step, AllocError>
        ensures { IfOk result (λ step. (d e : List Deed) →
            ReadsOwn self.now.caller.now self.now.asker.now self.now.own (rows_of tables.now) d e →
            IsMade (rows_of tables.now) d e (model.integrate_chosen d e self.now.caller.now self.now.change self.now.from.now self.now.to.now path.now) step) }
    {
        let view = &self.asker.view;
        let text = target_text(alloc, tables, self.caller, view, self.from, self.to, path)?;
        match target_at(alloc, tables, self.caller, view, self.to, &text)? {
            Some(target) => self.integrate_to(alloc, tables, path, &target),
            None => no_target(alloc, &text),
        }
    }

    /// What is done with a source.
    fn integrate_file(
        &self,
        alloc: Global,
        tables: &Tables,
        path: &DepotPath,
    ) -> Result<Step, AllocError>
        ensures { IfOk result (λ step. (d e : List Deed) →
            ReadsOwn self.now.caller.now self.now.asker.now self.now.own (rows_of tables.now) d e →
            IsMade (rows_of tables.now) d e (model.integrate_file d self.now.caller.now self.now.change self.now.from.now self.now.to.now e path.now) step) }
    {
        if let Some(row) = right_refusal(alloc, self.asker, path, Level(2))? {
            return Step::tells(alloc, row);
        }
        match chosen_of(alloc, tables, self.caller, path, &self.from.spec.wanted)? {
            Chosen::PassedOver => Ok(Step::new(alloc)),
            Chosen::At(_) => self.integrate_chosen(alloc, tables, path),
        }
    }
}

impl<'a> TurnAct for Integrating<'a> {
    ghost use Rattle.depot_rows.specs.depot_model.Steps.Integrating.{integrate_file};
    ghost use Rattle.integ_records.specs.Reading.{ReadsOwn};

    ghost stands = { λ act rows d e. ReadsOwn act.caller.now act.asker.now act.own rows d e };

    ghost acts = { λ act d e path. integrate_file d act.caller.now act.change act.from.now act.to.now e path };

    fn act(
        &mut self,
        alloc: Global,
        tables: &Tables,
        path: &DepotPath,
    ) -> Result<Step, AllocError> {
        let step = self.integrate_file(alloc, tables, path)?;
        self.own.note(step.deeds.as_slice())?;
        Ok(step)
    }
}

/// `integrate [-c CHANGE] FROM TO`: opens the target of each submitted file that FROM names for the revisions that
/// aren't integrated into it yet, with the resolve that it owes. It reads the tables of forms, have lists, labels,
/// integration records, opened files, changes and revisions, and of each source and target its rows alone. The one
/// error is want of memory.
pub fn integrate(
    alloc: Global,
    tables: &Tables,
    caller: &Caller,
    asker: &Asker,
    change: Option<u32>,
    from: &FileArgument,
    to: &PatternArgument,
) -> Result<Step, AllocError>
    ensures { IfOk result (λ step. (d : List Deed) → IsSound d → IsAsker d caller.now asker.now →
        HasRows (rows_of tables.now) d table_ids.Domain →
        HasRows (rows_of tables.now) d table_ids.Have → HasRows (rows_of tables.now) d table_ids.Label →
        HasRows (rows_of tables.now) d table_ids.Integed →
        HasRows (rows_of tables.now) d table_ids.Working → HasRows (rows_of tables.now) d table_ids.Change →
        HasRows (rows_of tables.now) d table_ids.Rev →
        IsMade (rows_of tables.now) d d (model.integrate d caller.now change from.now to.now) step) }
{
    if let Some(row) = named_change_refusal(alloc, tables, caller, change)? {
        return Step::tells(alloc, row);
    }
    let listing = Listing::Submitted;
    let files = ShownFiles {
        caller,
        asker,
        listing: &listing,
    };
    let paths = named_by(alloc, tables, &files, from)?;
    if paths.is_empty() {
        return no_file(alloc, from);
    }
    let mut integrating = Integrating {
        caller,
        asker,
        change,
        from,
        to,
        own: OwnOpenings::new(alloc),
    };
    let done = in_turn(alloc, tables, &mut integrating, paths.as_slice())?;
    within_files(alloc, done)
}
