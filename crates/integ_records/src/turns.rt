//! The owed resolves of a file one after another (Command-Line Reference, "p4 resolve").

ghost use Rattle.std.specs.Prelude.{◌≡◌, List, IfOk, OnOk, [], ◌∷◌, Some, map, true};
ghost use Rattle.depot_rows.specs.depot_path.Bytes.{same};
ghost use Rattle.depot_rows.specs.db_records.declared.table.TableId.TheVariants as table_ids;
ghost use Rattle.depot_rows.specs.table_changes.Changed.{rows_of};
ghost use Rattle.depot_rows.specs.depot_model.declared.command.Taking.TheVariants as takings;
ghost use Rattle.depot_rows.specs.depot_model.Deeds as deeds_of;
ghost use Rattle.depot_rows.specs.depot_model.Deeds.{Deed};
ghost use Rattle.depot_rows.specs.depot_model.Latest.{when};
ghost use Rattle.depot_rows.specs.depot_model.Revisions.{is_live_at as live_at};
ghost use Rattle.depot_rows.specs.depot_model.Rows.{how_word};
ghost use Rattle.depot_rows.specs.depot_model.Step.{Step as ModelStep, both};
ghost use Rattle.depot_rows.specs.depot_model.Steps.Resolving as model;
ghost use Rattle.depot_rows.specs.Deed.{how_of as how_of_code, opening_of as opening_of_deed, owing_of};
ghost use Rattle.depot_rows.specs.Standing.{HasRows};
ghost use Rattle.reply_rows.specs.Made.{IsMade, does as does_so};
ghost use Rattle.integ_records.specs.Turns.{Adds, IsTurned, left, left_other, left_own, turns as turns_said};

use crate::based::{rebase, source_of};
use deed_list::Deeds;
use depot_rows::model::{Row, Taking};
use depot_rows::tables::Tables;
use depot_rows::{How, Opening, Owing, Source};
use opening_parts::own_path;
use opening_reads::{held, own_opening};
use reply_rows::{RowBuilder, Step};
use revision_reads::is_live_at;
use std::alloc::{AllocError, Global};

/// How a resolve is paid.
fn how_of(taking: Taking) -> How
    ensures { how_of_code result ≡ model.how_of taking }
{
    match taking {
        Taking::Theirs => How::CopyFrom,
        Taking::Yours => How::Ignored,
    }
}

/// The word of it.
fn word_of(taking: Taking) -> &'static [u8]
    ensures { result.now ≡ how_word (model.how_of taking) }
{
    match taking {
        Taking::Theirs => b"copy from",
        Taking::Yours => b"ignored",
    }
}

/// The row of a resolve that is paid.
fn resolve_row(alloc: Global, taking: Taking, owing: &Owing) -> Result<Row, AllocError>
    ensures { IfOk result (λ row. row ≡ model.resolve_row (owing_of owing.now) (model.how_of taking)) }
{
    let row = RowBuilder::new(alloc).path(b"toFile", &owing.path)?;
    let row = row.path(b"fromFile", &owing.from)?;
    let row = row.number(b"startFromRev", u64::from(owing.first))?;
    let row = row.number(b"endFromRev", u64::from(owing.last))?;
    let row = row.text(b"how", word_of(taking))?;
    Ok(row.row())
}

/// A resolve is paid. The one error, here and below, is want of memory.
fn pay(deeds: &mut Deeds, taking: Taking, owing: &Owing) -> Result<(), AllocError>
    ensures { OnOk result (Adds deeds.old deeds.new (model.paid taking (owing_of owing.now) ∷ [])) }
{
    // the bytes of a path are one
    let _path = owing.path.as_bytes();
    let _from = owing.from.as_bytes();
    let file = held(&owing.client, &owing.path)?;
    let from = own_path(&owing.from)?;
    deeds.paid(file, from, how_of(taking))?;
    Ok(())
}

/// The client has a revision of the file, or none where the number is 0.
fn get(deeds: &mut Deeds, owing: &Owing, rev: u32) -> Result<(), AllocError>
    ensures { OnOk result (Adds deeds.old deeds.new (deeds_of.Got (model.held_of (owing_of owing.now)) rev ∷ [])) }
{
    // the bytes of a path are one
    let _path = owing.path.as_bytes();
    let file = held(&owing.client, &owing.path)?;
    deeds.got(file, rev)?;
    Ok(())
}

/// The client has the file opened no more.
fn shut(deeds: &mut Deeds, owing: &Owing) -> Result<(), AllocError>
    ensures { OnOk result (Adds deeds.old deeds.new (deeds_of.Shut (model.held_of (owing_of owing.now)) ∷ [])) }
{
    // the bytes of a path are one
    let _path = owing.path.as_bytes();
    let file = held(&owing.client, &owing.path)?;
    deeds.shut(file)?;
    Ok(())
}

/// The client opens the file anew.
fn open_anew(deeds: &mut Deeds, opening: &Opening) -> Result<(), AllocError>
    ensures { OnOk result (Adds deeds.old deeds.new (deeds_of.Open (opening_of_deed opening.now) ∷ [])) }
{
    // the bytes of a path are one
    let _path = opening.path.as_bytes();
    let copy = own_opening(opening)?;
    deeds.open(copy)?;
    Ok(())
}

/// The last revision of a resolve from the file itself becomes that which the client has and the base of the opening.
fn take_last(
    deeds: &mut Deeds,
    opening: &mut Opening,
    owing: &Owing,
    source: Option<Source>,
) -> Result<(), AllocError>
    ensures opening { OnOk result (opening.new ≡ record opening.old { base = owing.now.last; source = source }) }
    ensures deeds { OnOk result (Adds deeds.old deeds.new
        (deeds_of.Got (model.held_of (owing_of owing.now)) owing.now.last ∷ deeds_of.Open (opening_of_deed (record opening.old { base = owing.now.last; source = source })) ∷ [])) }
{
    rebase(opening, owing.last, source);
    get(deeds, owing, owing.last)?;
    open_anew(deeds, opening)?;
    Ok(())
}

/// Of a resolve from the file itself theirs is taken: a deleted revision ends the opening. Gives whether the file stays
/// opened.
fn take_their_last(
    alloc: Global,
    tables: &Tables,
    deeds: &mut Deeds,
    opening: &mut Opening,
    owing: &Owing,
) -> Result<bool, AllocError>
    ensures { IfOk result (λ stays. (d : List Deed) → HasRows (rows_of tables.now) d table_ids.Rev →
        IsTurned deeds.old deeds.new (model.own_deeds d takings.Theirs (opening_of_deed opening.old) (owing_of owing.now))
        (left_own (live_at d owing.now.path owing.now.last) takings.Theirs (opening_of_deed opening.old) (owing_of owing.now)) stays (opening_of_deed opening.new)) }
{
    let live = is_live_at(alloc, tables, &owing.path, owing.last)?;
    if live {
        let source = source_of(owing)?;
        take_last(deeds, opening, owing, Some(source))?;
        Ok(true)
    } else {
        get(deeds, owing, 0)?;
        shut(deeds, owing)?;
        Ok(false)
    }
}

/// What a resolve from the file itself does. Gives whether the file stays opened.
fn take_own(
    alloc: Global,
    tables: &Tables,
    taking: Taking,
    deeds: &mut Deeds,
    opening: &mut Opening,
    owing: &Owing,
) -> Result<bool, AllocError>
    ensures { IfOk result (λ stays. (d : List Deed) → HasRows (rows_of tables.now) d table_ids.Rev →
        IsTurned deeds.old deeds.new (model.own_deeds d taking (opening_of_deed opening.old) (owing_of owing.now))
        (left_own (live_at d owing.now.path owing.now.last) taking (opening_of_deed opening.old) (owing_of owing.now)) stays (opening_of_deed opening.new)) }
{
    match taking {
        Taking::Theirs => {
            let stays = take_their_last(alloc, tables, deeds, opening, owing)?;
            Ok(stays)
        }
        Taking::Yours => {
            take_last(deeds, opening, owing, None)?;
            Ok(true)
        }
    }
}

/// What a resolve from another file does: where theirs is taken, the content becomes that of its last revision.
fn take_other(
    taking: Taking,
    deeds: &mut Deeds,
    opening: &mut Opening,
    owing: &Owing,
) -> Result<(), AllocError>
    ensures { OnOk result (IsTurned deeds.old deeds.new (model.other_deeds taking (opening_of_deed opening.old) (owing_of owing.now))
        (Some (left_other taking (opening_of_deed opening.old) (owing_of owing.now))) true (opening_of_deed opening.new)) }
{
    match taking {
        Taking::Theirs => {
            let source = source_of(owing)?;
            let base = opening.base;
            rebase(opening, base, Some(source));
            open_anew(deeds, opening)?;
            Ok(())
        }
        Taking::Yours => Ok(()),
    }
}

/// Whether a resolve is from the file itself.
fn is_own(owing: &Owing) -> bool
    ensures { result ≡ same owing.now.from owing.now.path }
{
    owing.from.as_bytes() == owing.path.as_bytes()
}

/// The deeds of a resolve. Gives whether the file stays opened.
fn add_deeds(
    alloc: Global,
    tables: &Tables,
    taking: Taking,
    deeds: &mut Deeds,
    opening: &mut Opening,
    owing: &Owing,
) -> Result<bool, AllocError>
    ensures { IfOk result (λ stays. (d : List Deed) → HasRows (rows_of tables.now) d table_ids.Rev →
        IsTurned deeds.old deeds.new (model.resolve_one d taking (opening_of_deed opening.old) (owing_of owing.now)).deeds
        (left d taking (opening_of_deed opening.old) (owing_of owing.now)) stays (opening_of_deed opening.new)) }
{
    pay(deeds, taking, owing)?;
    let own = is_own(owing);
    if own {
        let stays = take_own(alloc, tables, taking, deeds, opening, owing)?;
        Ok(stays)
    } else {
        take_other(taking, deeds, opening, owing)?;
        Ok(true)
    }
}

/// The step of deeds and a row.
fn does(alloc: Global, deeds: Deeds, row: Row) -> Result<Step, AllocError>
    ensures { IfOk result (λ step. step ≡ does_so deeds row) }
{
    let mut step = Step::tells(alloc, row)?;
    step.deeds.append(deeds)?;
    Ok(step)
}

/// Does further what a resolve does. Gives whether the file stays opened.
fn add_turn(
    alloc: Global,
    tables: &Tables,
    taking: Taking,
    step: &mut Step,
    opening: &mut Opening,
    owing: &Owing,
) -> Result<bool, AllocError>
    ensures step { IfOk result (λ _. (d e : List Deed) (m : ModelStep) → HasRows (rows_of tables.now) d table_ids.Rev →
        IsMade (rows_of tables.now) d e m step.old →
        IsMade (rows_of tables.now) d e (both m (model.resolve_one d taking (opening_of_deed opening.old) (owing_of owing.now))) step.new) }
    ensures left { IfOk result (λ stays. (d : List Deed) → HasRows (rows_of tables.now) d table_ids.Rev →
        left d taking (opening_of_deed opening.old) (owing_of owing.now) ≡ when stays (opening_of_deed opening.new)) }
{
    let mut deeds = Deeds::new(alloc);
    let stays = add_deeds(alloc, tables, taking, &mut deeds, opening, owing)?;
    let row = resolve_row(alloc, taking, owing)?;
    let more = does(alloc, deeds, row)?;
    step.add(more)?;
    Ok(stays)
}

/// What the owed resolves of a file do, each over the opening that those before it left, until the file is shut.
pub(crate) fn turns(
    alloc: Global,
    tables: &Tables,
    taking: Taking,
    opening: Opening,
    owings: &[Owing],
) -> Result<Step, AllocError>
    ensures { IfOk result (λ step. (d e : List Deed) → HasRows (rows_of tables.now) d table_ids.Rev →
        IsMade (rows_of tables.now) d e (turns_said d taking (Some (opening_of_deed opening)) (map owing_of owings.now)) step) }
{
    let mut step = Step::new(alloc);
    let mut opening = opening;
    let mut rest = owings;
    while let [owing, later @ ..] = rest {
        let stays = add_turn(alloc, tables, taking, &mut step, &mut opening, owing)?;
        if !stays {
            return Ok(step);
        }
        rest = later;
    }
    Ok(step)
}
