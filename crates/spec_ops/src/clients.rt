//! `client` (Command-Line Reference, "p4 client").

ghost use Rattle.std.specs.Prelude.{List, IfOk};
ghost use Rattle.depot_rows.specs.db_records.declared.table.TableId.TheVariants as table_ids;
ghost use Rattle.depot_rows.specs.table_changes.Changed.{AllRows, rows_of};
ghost use Rattle.depot_rows.specs.depot_model.Deeds.{Deed};
ghost use Rattle.depot_rows.specs.depot_model.Rules.{IsSound};
ghost use Rattle.depot_rows.specs.depot_model.Steps.Clients as model;
ghost use Rattle.depot_rows.specs.Standing.{HasRows};
ghost use Rattle.reply_rows.specs.Made.{IsMade};

use crate::saving::{keep_form, shown_row};
use command_parts::{named, unread};
use depot_rows::SpecKind;
use depot_rows::forms::{Form, Shape, line_place};
use depot_rows::model::Limit;
use depot_rows::paths::{Name, is_name};
use depot_rows::tables::Tables;
use depot_rows::views::{View, ViewCause};
use reply_rows::{Step, bad_form_row, limit_row};
use row_reads::form_value;
use std::alloc::{AllocError, Global};

/// `client -o [NAME]`, from the table of forms alone.
pub fn client_show(alloc: Global, tables: &Tables, name: &Name) -> Result<Step, AllocError>
    ensures { IfOk result (λ step. (d : List Deed) → IsSound d → HasRows (rows_of tables.now) d table_ids.Domain →
        IsMade (rows_of tables.now) d d (model.client_show d name.now) step) }
{
    let row = shown_row(alloc, tables, SpecKind::Client, b"Client", name.as_bytes())?;
    Step::tells(alloc, row)
}

/// The step of a form that could be read.
fn save(alloc: Global, input: &[u8], form: Form) -> Result<Step, AllocError>
    ensures { IfOk result (λ step. (all : AllRows) (d : List Deed) → IsMade all d d (model.saved input.now form) step) }
{
    let name = form_value(&form, "Client");
    if !is_name(name) {
        let row = bad_form_row(alloc, 0)?;
        return Step::tells(alloc, row);
    }
    let lines = form.lines("View");
    if lines.len() > 200 {
        let row = limit_row(alloc, Limit::View)?;
        return Step::tells(alloc, row);
    }
    let name = named(alloc, name)?;
    match View::from_lines(alloc, &name, lines) {
        Ok(_) => keep_form(alloc, SpecKind::Client, "Client", form),
        Err(fault) => match fault.what {
            ViewCause::Memory => Err(AllocError),
            _ => {
                let line = line_place(input, "View", fault.line.saturating_sub(1));
                let row = bad_form_row(alloc, line)?;
                Step::tells(alloc, row)
            }
        },
    }
}

/// `client -i`: the form that the input spells is saved. It is refused first where it can't be read, then that its name
/// is none, that its view has more than 200 lines, and the first bad line of its view.
pub fn client_save(alloc: Global, input: &[u8]) -> Result<Step, AllocError>
    ensures { IfOk result (λ step. (all : AllRows) (d : List Deed) →
        IsMade all d d (model.client_save input.now) step) }
{
    match Form::read(alloc, input, Shape::Client) {
        Ok(form) => save(alloc, input, form),
        Err(fault) => unread(alloc, fault),
    }
}
