//! `move` (Command-Line Reference, "p4 move", "p4 rename").

ghost use Rattle.std.specs.Prelude.{◌≡◌, ◌++◌, true, false, List, IfOk, OnOk, Some, option_map};
ghost use Rattle.depot_rows.specs.db_records.declared.table.TableId.TheVariants as table_ids;
ghost use Rattle.depot_rows.specs.table_changes.Changed.{AllRows, rows_of};
ghost use Rattle.depot_rows.specs.depot_model.Arguments.{opened_by};
ghost use Rattle.depot_rows.specs.depot_model.Deeds.{Deed as ModelDeed};
ghost use Rattle.depot_rows.specs.depot_model.Opened.{partner};
ghost use Rattle.depot_rows.specs.depot_model.Refusals.{refusal_row};
ghost use Rattle.depot_rows.specs.depot_model.Revisions.{head};
ghost use Rattle.depot_rows.specs.depot_model.Rules.{IsSound};
ghost use Rattle.depot_rows.specs.depot_model.Steps.Moving as model;
ghost use Rattle.depot_rows.specs.depot_model.WellFormed.{asks_head};
ghost use Rattle.depot_rows.specs.Deed.{action_of, opening_of as opening_of_deed};
ghost use Rattle.depot_rows.specs.Effects.{Follow};
ghost use Rattle.depot_rows.specs.Standing.{HasRows};
ghost use Rattle.named_files.specs.Asked.{IsAsker};
ghost use Rattle.reply_rows.specs.Made.{IsMade, does};
ghost use Rattle.opening_reads.specs.OwnOpenings.{IsOwn};
ghost use Rattle.opened_files.specs.Moves.{ReadsOwn, at_target, is_add, is_move_add, is_move_delete, moved_row, moves_nowhere, move_step};
ghost use Rattle.opened_files.specs.Moves.{added_at as opening_added, edited_at as opening_edited, left_behind as opening_left, renamed as opening_renamed};

use crate::adding::new_refusal;
use crate::partners::is_end;
use command_parts::named_change_refusal;
use deed_list::Deeds;
use depot_rows::model::{Caller, FileArgument, PatternArgument, Row};
use depot_rows::paths::{DepotPath, Text, Wanted, print_bytes};
use depot_rows::protections::Level;
use depot_rows::tables::Tables;
use depot_rows::{Action, Opening, Source};
use file_steps::{TurnAct, in_turn, named_by, not_open, within_files};
use named_files::{Asker, HeadFiles, Listing};
use opening_parts::{action_word, own_path, right_refusal, unseen_row};
use opening_reads::{OwnOpenings, held, own_opening};
use reply_rows::{RowBuilder, Step, not_in_view_row, not_movable_row};
use revision_reads::{head_of, shown_in_view, target_at as file_of_target, target_text};
use std::alloc::{AllocError, Global};

/// What `move` is asked, and what the client has opened by then.
#[derive(Drop)]
struct Moving<'a> {
    caller: &'a Caller,
    asker: &'a Asker,
    change: Option<u32>,
    from: &'a FileArgument,
    to: &'a PatternArgument,
    own: OwnOpenings,
}

/// Whether an opened file may be moved: one that is added, was moved already, or is edited over a revision.
fn is_movable(opening: &Opening) -> bool
    ensures { result ≡ model.is_movable (opening_of_deed opening.now) }
{
    match opening.action {
        Action::Add => true,
        Action::MoveAdd => true,
        Action::Edit => opening.base != 0,
        Action::Delete => false,
        Action::Branch => false,
        Action::Integrate => false,
        Action::MoveDelete => false,
    }
}

/// Whether a file is added.
fn is_added(opening: &Opening) -> bool
    ensures { result ≡ is_add (action_of opening.now.action) }
{
    matches!(opening.action, Action::Add)
}

/// Whether a file was moved here.
fn is_moved(opening: &Opening) -> bool
    ensures { result ≡ is_move_add (action_of opening.now.action) }
{
    matches!(opening.action, Action::MoveAdd)
}

/// Whether a file was moved away from here.
fn is_left(opening: &Opening) -> bool
    ensures { result ≡ is_move_delete (action_of opening.now.action) }
{
    matches!(opening.action, Action::MoveDelete)
}

/// The row that refuses an opened file that may not be moved.
fn movable_refusal(alloc: Global, opening: &Opening) -> Result<Option<Row>, AllocError>
    ensures { IfOk result (λ row. row ≡ option_map refusal_row (model.movable_refusal (opening_of_deed opening.now))) }
{
    if is_movable(opening) {
        return Ok(None);
    }
    let row = not_movable_row(alloc, &opening.path)?;
    Ok(Some(row))
}

/// The opening of a target, with the same type, and the change that is named or the same.
fn opening_at(
    opening: &Opening,
    base: u32,
    change: Option<u32>,
    target: &DepotPath,
) -> Result<Opening, AllocError>
    ensures { IfOk result (λ at. at ≡ at_target opening.now base change target.now) }
{
    let path = own_path(target)?;
    let mut at = own_opening(opening)?;
    at.path = path;
    at.base = base;
    at.change = change.unwrap_or(opening.change);
    Ok(at)
}

/// The opening of a file that is added.
fn added_at(
    opening: &Opening,
    base: u32,
    change: Option<u32>,
    target: &DepotPath,
) -> Result<Opening, AllocError>
    ensures { IfOk result (λ at. at ≡ opening_added opening.now base change target.now) }
{
    let mut at = opening_at(opening, base, change, target)?;
    at.source = None;
    at.moved = None;
    Ok(at)
}

/// The revision of an opened file.
fn source_of(opening: &Opening) -> Result<Source, AllocError>
    ensures { IfOk result (λ source. source ≡ record { path = opening.now.path; rev = opening.now.base }) }
{
    let path = own_path(&opening.path)?;
    Ok(Source {
        path,
        rev: opening.base,
    })
}

/// The opening of the target of a file that is edited.
fn edited_at(
    opening: &Opening,
    base: u32,
    change: Option<u32>,
    target: &DepotPath,
) -> Result<Opening, AllocError>
    ensures { IfOk result (λ at. at ≡ opening_edited opening.now base change target.now) }
{
    let source = source_of(opening)?;
    let moved = own_path(&opening.path)?;
    let mut at = opening_at(opening, base, change, target)?;
    at.action = Action::MoveAdd;
    at.source = Some(source);
    at.moved = Some(moved);
    Ok(at)
}

/// The opening of a file that is edited and moved away.
fn left_behind(
    opening: &Opening,
    change: Option<u32>,
    target: &DepotPath,
) -> Result<Opening, AllocError>
    ensures { IfOk result (λ left. left ≡ opening_left opening.now change target.now) }
{
    let moved = own_path(target)?;
    let mut left = own_opening(opening)?;
    left.action = Action::MoveDelete;
    left.change = change.unwrap_or(opening.change);
    left.source = None;
    left.moved = Some(moved);
    Ok(left)
}

/// The opening of the other end of a move, which names the new path.
fn renamed(other: &Opening, change: Option<u32>, target: &DepotPath) -> Result<Opening, AllocError>
    ensures { IfOk result (λ end. end ≡ opening_renamed other.now change target.now) }
{
    let moved = own_path(target)?;
    let mut end = own_opening(other)?;
    end.change = change.unwrap_or(other.change);
    end.moved = Some(moved);
    Ok(end)
}

/// The opening of the other end of a move, where the client has it opened and it names the file back.
fn other_end(
    alloc: Global,
    tables: &Tables,
    own: &OwnOpenings,
    opening: &Opening,
) -> Result<Option<Opening>, AllocError>
    ensures { IfOk result (λ other. (d e : List ModelDeed) → IsSound d →
        HasRows (rows_of tables.now) d table_ids.Working → IsOwn own.now opening.now.client d e →
        option_map opening_of_deed other ≡ partner e (opening_of_deed opening.now)) }
{
    let Some(path) = &opening.moved else {
        return Ok(None);
    };
    let Some(other) = own.opening(alloc, tables, &opening.client, path)? else {
        return Ok(None);
    };
    if is_end(&other.moved, &opening.path) {
        return Ok(Some(other));
    }
    Ok(None)
}

/// The deeds for a file that is added.
fn deeds_added(
    alloc: Global,
    opening: &Opening,
    base: u32,
    change: Option<u32>,
    target: &DepotPath,
) -> Result<Deeds, AllocError>
    ensures { IfOk result (λ deeds. (e : List ModelDeed) → base ≡ head e target.now →
        Follow e deeds (model.move_added e change (opening_of_deed opening.now) target.now)) }
{
    // the bytes of a path are one
    let _target = target.as_bytes();
    let _path = opening.path.as_bytes();
    let at = added_at(opening, base, change, target)?;
    let file = held(&opening.client, &opening.path)?;
    let mut deeds = Deeds::new(alloc);
    deeds.open(at)?;
    deeds.shut(file)?;
    Ok(deeds)
}

/// The deeds for a file that is edited: it is deleted there, and added here with its base as the source.
fn deeds_edited(
    alloc: Global,
    opening: &Opening,
    base: u32,
    change: Option<u32>,
    target: &DepotPath,
) -> Result<Deeds, AllocError>
    ensures { IfOk result (λ deeds. (e : List ModelDeed) → base ≡ head e target.now →
        Follow e deeds (model.move_edited e change (opening_of_deed opening.now) target.now)) }
{
    // the bytes of a path are one
    let _target = target.as_bytes();
    let _path = opening.path.as_bytes();
    let left = left_behind(opening, change, target)?;
    let at = edited_at(opening, base, change, target)?;
    let mut deeds = Deeds::new(alloc);
    deeds.open(left)?;
    deeds.open(at)?;
    Ok(deeds)
}

/// Adds the deed of the other end of a move, where the file was moved away from there.
fn add_renamed(
    deeds: &mut Deeds,
    other: &Opening,
    change: Option<u32>,
    target: &DepotPath,
) -> Result<(), AllocError>
    ensures { OnOk result ((e done : List ModelDeed) → Follow e deeds.old done →
        Follow e deeds.new (done ++ model.renamed change target.now (Some (opening_of_deed other.now)))) }
{
    // the bytes of a path are one
    let _path = other.path.as_bytes();
    if is_left(other) {
        let end = renamed(other, change, target)?;
        deeds.open(end)?;
        return Ok(());
    }
    Ok(())
}

/// The deeds for a file that was moved: the file that it was moved from names the new path.
fn deeds_again(
    alloc: Global,
    tables: &Tables,
    own: &OwnOpenings,
    opening: &Opening,
    base: u32,
    change: Option<u32>,
    target: &DepotPath,
) -> Result<Deeds, AllocError>
    ensures { IfOk result (λ deeds. (d e : List ModelDeed) → IsSound d →
        HasRows (rows_of tables.now) d table_ids.Working → IsOwn own.now opening.now.client d e →
        base ≡ head e target.now → Follow e deeds (model.move_again e change (opening_of_deed opening.now) target.now)) }
{
    // the bytes of a path are one
    let _target = target.as_bytes();
    let _path = opening.path.as_bytes();
    let file = held(&opening.client, &opening.path)?;
    let at = opening_at(opening, base, change, target)?;
    let mut deeds = Deeds::new(alloc);
    deeds.shut(file)?;
    deeds.open(at)?;
    if let Some(other) = other_end(alloc, tables, own, opening)? {
        add_renamed(&mut deeds, &other, change, target)?;
        return Ok(deeds);
    }
    Ok(deeds)
}

/// The deeds that move a file.
fn move_deeds(
    alloc: Global,
    tables: &Tables,
    own: &OwnOpenings,
    opening: &Opening,
    base: u32,
    change: Option<u32>,
    target: &DepotPath,
) -> Result<Deeds, AllocError>
    ensures { IfOk result (λ deeds. (d e : List ModelDeed) → IsSound d →
        HasRows (rows_of tables.now) d table_ids.Working → IsOwn own.now opening.now.client d e →
        base ≡ head e target.now → Follow e deeds (model.move_deeds e change (opening_of_deed opening.now) target.now)) }
{
    if is_added(opening) {
        let deeds = deeds_added(alloc, opening, base, change, target)?;
        return Ok(deeds);
    }
    if is_moved(opening) {
        let deeds = deeds_again(alloc, tables, own, opening, base, change, target)?;
        return Ok(deeds);
    }
    let deeds = deeds_edited(alloc, opening, base, change, target)?;
    Ok(deeds)
}

/// The action of the target.
fn target_action(opening: &Opening) -> Action
    ensures { action_of result ≡ model.target_action (opening_of_deed opening.now) }
{
    match opening.action {
        Action::Add => Action::Add,
        _ => Action::MoveAdd,
    }
}

/// The row of a file that is moved.
fn move_row(
    alloc: Global,
    opening: &Opening,
    base: u32,
    target: &DepotPath,
) -> Result<Row, AllocError>
    ensures { IfOk result (λ row. row ≡ moved_row (opening_of_deed opening.now) base target.now) }
{
    let row = RowBuilder::new(alloc).path(b"depotFile", target)?;
    let row = row.path(b"fromFile", &opening.path)?;
    let row = row.number(b"workRev", u64::from(base))?;
    let row = row.text(b"action", action_word(target_action(opening)))?;
    Ok(row.row())
}

/// The step of deeds and a row.
fn step_of(alloc: Global, deeds: Deeds, row: Row) -> Result<Step, AllocError>
    ensures { IfOk result (λ step. step ≡ does deeds row) }
{
    let mut step = Step::tells(alloc, row)?;
    step.deeds.append(deeds)?;
    Ok(step)
}

/// The step that moves a file.
fn move_there(
    alloc: Global,
    tables: &Tables,
    own: &OwnOpenings,
    opening: &Opening,
    change: Option<u32>,
    target: &DepotPath,
) -> Result<Step, AllocError>
    ensures { IfOk result (λ step. (d e : List ModelDeed) → IsSound d →
        HasRows (rows_of tables.now) d table_ids.Working → HasRows (rows_of tables.now) d table_ids.Rev →
        IsOwn own.now opening.now.client d e →
        IsMade (rows_of tables.now) d e (move_step e change (opening_of_deed opening.now) target.now) step) }
{
    let base = head_of(alloc, tables, target)?;
    let row = move_row(alloc, opening, base, target)?;
    let deeds = move_deeds(alloc, tables, own, opening, base, change, target)?;
    step_of(alloc, deeds, row)
}

/// The step of a file whose target is no path, or that no file has.
fn no_target(alloc: Global, opening: &Opening, text: &Text) -> Result<Step, AllocError>
    ensures { IfOk result (λ step. (all : AllRows) (d e : List ModelDeed) →
        IsMade all d e (moves_nowhere (opening_of_deed opening.now) text.now) step) }
{
    if let Some(row) = movable_refusal(alloc, opening)? {
        return Step::tells(alloc, row);
    }
    let printed = print_bytes(alloc, text.as_bytes())?;
    let row = not_in_view_row(alloc, printed.as_bytes())?;
    Step::tells(alloc, row)
}

impl<'a> Moving<'a> {
    /// What is done with an opened file that has a target.
    fn move_to(
        &self,
        alloc: Global,
        tables: &Tables,
        opening: &Opening,
        target: &DepotPath,
    ) -> Result<Step, AllocError>
        ensures { IfOk result (λ step. (d e : List ModelDeed) →
            ReadsOwn self.now.caller.now self.now.asker.now self.now.from.now self.now.own (rows_of tables.now) d e →
            opening.now.client ≡ self.now.caller.now.client →
            IsMade (rows_of tables.now) d e (model.move_to e self.now.caller.now self.now.change (opening_of_deed opening.now) target.now) step) }
    {
        if let Some(row) = right_refusal(alloc, self.asker, target, Level(3))? {
            return Step::tells(alloc, row);
        }
        if let Some(row) = movable_refusal(alloc, opening)? {
            return Step::tells(alloc, row);
        }
        let caller = self.caller;
        let view = &self.asker.view;
        let place = shown_in_view(alloc, tables, caller, view, target, &Wanted::Head)?;
        if place.is_none() {
            let row = unseen_row(alloc, target)?;
            return Step::tells(alloc, row);
        }
        let client = &caller.client;
        let open = self.own.is_opened(alloc, tables, client, target)?;
        if let Some(row) = new_refusal(alloc, tables, target, client, &opening.file_type, open)? {
            return Step::tells(alloc, row);
        }
        move_there(alloc, tables, &self.own, opening, self.change, target)
    }

    /// What is done with an opened file.
    fn move_opening(
        &self,
        alloc: Global,
        tables: &Tables,
        opening: &Opening,
    ) -> Result<Step, AllocError>
        ensures { IfOk result (λ step. (d e : List ModelDeed) →
            ReadsOwn self.now.caller.now self.now.asker.now self.now.from.now self.now.own (rows_of tables.now) d e →
            opening.now.client ≡ self.now.caller.now.client →
            IsMade (rows_of tables.now) d e (model.move_opening e self.now.caller.now self.now.change self.now.from.now self.now.to.now (opening_of_deed opening.now)) step) }
    {
        let path = &opening.path;
        if let Some(row) = right_refusal(alloc, self.asker, path, Level(3))? {
            return Step::tells(alloc, row);
        }
        let view = &self.asker.view;
        let text = target_text(alloc, tables, self.caller, view, self.from, self.to, path)?;
        match file_of_target(alloc, tables, self.caller, view, self.to, &text)? {
            Some(target) => self.move_to(alloc, tables, opening, &target),
            None => no_target(alloc, opening, &text),
        }
    }

    /// What is done with a file, if the client still has it opened.
    fn move_file(
        &self,
        alloc: Global,
        tables: &Tables,
        path: &DepotPath,
    ) -> Result<Step, AllocError>
        ensures { IfOk result (λ step. (d e : List ModelDeed) →
            ReadsOwn self.now.caller.now self.now.asker.now self.now.from.now self.now.own (rows_of tables.now) d e →
            IsMade (rows_of tables.now) d e (model.move_file self.now.caller.now self.now.change self.now.from.now self.now.to.now e path.now) step) }
    {
        match self.own.opening(alloc, tables, &self.caller.client, path)? {
            Some(opening) => self.move_opening(alloc, tables, &opening),
            None => Ok(Step::new(alloc)),
        }
    }
}

impl<'a> TurnAct for Moving<'a> {
    ghost use Rattle.depot_rows.specs.depot_model.Steps.Moving.{move_file};
    ghost use Rattle.opened_files.specs.Moves.{ReadsOwn};

    ghost stands = { λ act rows d e. ReadsOwn act.caller.now act.asker.now act.from.now act.own rows d e };

    ghost acts = { λ act d e path. move_file act.caller.now act.change act.from.now act.to.now e path };

    fn act(
        &mut self,
        alloc: Global,
        tables: &Tables,
        path: &DepotPath,
    ) -> Result<Step, AllocError> {
        let step = self.move_file(alloc, tables, path)?;
        self.own.note(step.deeds.as_slice())?;
        Ok(step)
    }
}

/// `move [-c CHANGE] FROM TO`: files that the client has opened are opened elsewhere, from the tables of forms, opened
/// files, changes and revisions alone. The one error is want of memory.
pub fn move_files(
    alloc: Global,
    tables: &Tables,
    caller: &Caller,
    asker: &Asker,
    change: Option<u32>,
    from: &FileArgument,
    to: &PatternArgument,
) -> Result<Step, AllocError>
    ensures { IfOk result (λ step. (d : List ModelDeed) → asks_head from.now ≡ true → IsSound d →
        IsAsker d caller.now asker.now →
        HasRows (rows_of tables.now) d table_ids.Domain → HasRows (rows_of tables.now) d table_ids.Change →
        HasRows (rows_of tables.now) d table_ids.Working → HasRows (rows_of tables.now) d table_ids.Rev →
        IsMade (rows_of tables.now) d d (model.move d caller.now change from.now to.now) step) }
{
    if let Some(row) = named_change_refusal(alloc, tables, caller, change)? {
        return Step::tells(alloc, row);
    }
    let listing = Listing::opened_by(&caller.client)?;
    let files = HeadFiles {
        caller,
        asker,
        listing: &listing,
    };
    let paths = named_by(alloc, tables, &files, from)?;
    if paths.is_empty() {
        return not_open(alloc, from);
    }
    let mut moving = Moving {
        caller,
        asker,
        change,
        from,
        to,
        own: OwnOpenings::new(alloc),
    };
    let done = in_turn(alloc, tables, &mut moving, paths.as_slice())?;
    within_files(alloc, done)
}
