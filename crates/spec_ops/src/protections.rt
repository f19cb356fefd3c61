//! `protect` (Command-Line Reference, "p4 protect").

ghost use Rattle.std.specs.Prelude.{◌≡◌, List, map, IfOk};
ghost use Rattle.std.specs.List.{join_with_byte};
ghost use Rattle.depot_rows.specs.db_records.declared.table.TableId.TheVariants as table_ids;
ghost use Rattle.depot_rows.specs.table_changes.Changed.{AllRows, rows_of};
ghost use Rattle.depot_rows.specs.depot_model.Deeds.{Deed};
ghost use Rattle.depot_rows.specs.depot_model.Rules.{IsSound};
ghost use Rattle.depot_rows.specs.depot_model.Steps.Protections as model;
ghost use Rattle.depot_rows.specs.Standing.{HasRows};
ghost use Rattle.reply_rows.specs.Made.{IsMade};

use command_parts::unread;
use depot_rows::forms::{Form, Shape, line_place};
use depot_rows::model::Limit;
use depot_rows::paths::{Sequence, Text};
use depot_rows::protections::{LineFault, Protects, line_words};
use depot_rows::tables::Tables;
use reply_rows::{RowBuilder, Step, bad_form_row, limit_row, push_numbered, row_of};
use row_reads::protection_lines;
use std::alloc::{AllocError, Global};

/// `protect -o`, from the table of protections alone.
pub fn protect_show(alloc: Global, tables: &Tables) -> Result<Step, AllocError>
    ensures { IfOk result (λ step. (d : List Deed) → IsSound d → HasRows (rows_of tables.now) d table_ids.Protect →
        IsMade (rows_of tables.now) d d (model.protect_show d) step) }
{
    let lines = protection_lines(alloc, tables)?;
    let mut fields = Sequence::new(alloc);
    push_numbered(alloc, &mut fields, b"Protections", lines.as_slice())?;
    Step::tells(alloc, row_of(fields))
}

/// Words with one space between.
fn joined(alloc: Global, words: &[Text]) -> Result<Text, AllocError>
    ensures { IfOk result (λ text. text ≡ join_with_byte 0x20 words.now) }
{
    let [first, rest @ ..] = words else {
        return Ok(Text::new(alloc));
    };
    let mut text = Text::from_bytes(alloc, first.as_bytes())?;
    let mut rest = rest;
    while let [word, later @ ..] = rest {
        text.append(b" ")?;
        text.append(word.as_bytes())?;
        rest = later;
    }
    Ok(text)
}

/// Lines as they are kept: their words with one space between, without comments.
fn kept_lines(alloc: Global, lines: &[Text]) -> Result<Sequence<Text>, AllocError>
    ensures { IfOk result (λ kept. kept ≡ map model.kept_line lines.now) }
{
    let mut kept = Sequence::new(alloc);
    for line in lines {
        let words = line_words(alloc, line.as_bytes())?;
        kept.push(joined(alloc, words.as_slice())?)?;
    }
    Ok(kept)
}

/// The step of a form that could be read, with these lines.
fn save(alloc: Global, input: &[u8], lines: &[Text]) -> Result<Step, AllocError>
    ensures { IfOk result (λ step. (all : AllRows) (d : List Deed) →
        IsMade all d d (model.saved input.now lines.now) step) }
{
    if let Err(fault) = Protects::from_lines(alloc, lines) {
        return match fault.what {
            LineFault::Memory => Err(AllocError),
            _ => {
                let line = line_place(input, "Protections", fault.line.saturating_sub(1));
                let row = bad_form_row(alloc, line)?;
                Step::tells(alloc, row)
            }
        };
    }
    if lines.len() > 1000 {
        let row = limit_row(alloc, Limit::Protections)?;
        return Step::tells(alloc, row);
    }
    let kept = kept_lines(alloc, lines)?;
    let row = RowBuilder::new(alloc).text(b"action", b"saved")?;
    let mut step = Step::tells(alloc, row.row())?;
    step.deeds.guard(kept)?;
    Ok(step)
}

/// `protect -i`: the protections have the lines of the form that the input spells, in place of those that they had. It
/// is refused first where it can't be read, then by its first bad line, and that it has more than 1,000 lines.
pub fn protect_save(alloc: Global, input: &[u8]) -> Result<Step, AllocError>
    ensures { IfOk result (λ step. (all : AllRows) (d : List Deed) →
        IsMade all d d (model.protect_save input.now) step) }
{
    match Form::read(alloc, input, Shape::Protect) {
        Ok(form) => save(alloc, input, form.lines("Protections")),
        Err(fault) => unread(alloc, fault),
    }
}
