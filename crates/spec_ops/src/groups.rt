//! `group` (Command-Line Reference, "p4 group").

ghost use Rattle.std.specs.Prelude.{◌≡◌, true, List, IfOk};
ghost use Rattle.std.specs.List.{list_all};
ghost use Rattle.depot_rows.specs.depot_path.Name.{is_name as name_test};
ghost use Rattle.depot_rows.specs.db_records.declared.table.TableId.TheVariants as table_ids;
ghost use Rattle.depot_rows.specs.table_changes.Changed.{AllRows, rows_of};
ghost use Rattle.depot_rows.specs.depot_model.Deeds.{Deed};
ghost use Rattle.depot_rows.specs.depot_model.Steps.Groups as model;
ghost use Rattle.depot_rows.specs.Standing.{HasRows};
ghost use Rattle.reply_rows.specs.Made.{IsMade};

use crate::saving::saved_row;
use command_parts::{named, unread};
use depot_rows::forms::{Form, Shape, line_place};
use depot_rows::model::Limit;
use depot_rows::paths::{Name, Sequence, Text, is_name};
use depot_rows::tables::Tables;
use reply_rows::{Step, bad_form_row, limit_row, push_numbered, row_of, text_field};
use row_reads::{form_value, users_of};
use std::alloc::{AllocError, Global};

/// `group -o NAME`, from the table of groups alone.
pub fn group_show(alloc: Global, tables: &Tables, name: &Name) -> Result<Step, AllocError>
    ensures { IfOk result (λ step. (d : List Deed) → HasRows (rows_of tables.now) d table_ids.Group →
        IsMade (rows_of tables.now) d d (model.group_show d name.now) step) }
{
    let users = users_of(alloc, tables, name)?;
    let mut fields = Sequence::new(alloc);
    fields.push(text_field(alloc, b"Group", name.as_bytes())?)?;
    push_numbered(alloc, &mut fields, b"Users", users.as_slice())?;
    Step::tells(alloc, row_of(fields))
}

/// Whether all lines are names.
fn are_names(lines: &[Text]) -> bool
    ensures { result ≡ list_all name_test lines.now }
{
    lines.iter().all(|line| is_name(line.as_bytes()))
}

/// The names that lines are.
fn names_of(alloc: Global, lines: &[Text]) -> Result<Sequence<Name>, AllocError>
    requires { list_all name_test lines.now ≡ true }
    ensures { IfOk result (λ names. names ≡ lines.now) }
{
    let mut names = Sequence::new(alloc);
    let mut rest = lines;
    while let [line, later @ ..] = rest {
        names.push(named(alloc, line.as_bytes())?)?;
        rest = later;
    }
    Ok(names)
}

/// The step of a form that could be read.
fn save(alloc: Global, input: &[u8], form: &Form) -> Result<Step, AllocError>
    ensures { IfOk result (λ step. (all : AllRows) (d : List Deed) →
        IsMade all d d (model.saved input.now form.now) step) }
{
    let group = form_value(form, "Group");
    if !is_name(group) {
        let row = bad_form_row(alloc, 0)?;
        return Step::tells(alloc, row);
    }
    let subgroups = form.lines("Subgroups");
    if subgroups.len() > 0 {
        let row = bad_form_row(alloc, line_place(input, "Subgroups", 0))?;
        return Step::tells(alloc, row);
    }
    let users = form.lines("Users");
    if !are_names(users) {
        let row = bad_form_row(alloc, 0)?;
        return Step::tells(alloc, row);
    }
    if users.len() > 10_000 {
        let row = limit_row(alloc, Limit::Users)?;
        return Step::tells(alloc, row);
    }
    let name = named(alloc, group)?;
    let users = names_of(alloc, users)?;
    let row = saved_row(alloc, b"Group", group)?;
    let mut step = Step::tells(alloc, row)?;
    step.deeds.group(name, users)?;
    Ok(step)
}

/// `group -i`: the group has the users of the form that the input spells. It is refused first where it can't be read,
/// then that its name is none, that it has subgroups, that one of its users is no name, and that it has more than
/// 10,000 of them.
pub fn group_save(alloc: Global, input: &[u8]) -> Result<Step, AllocError>
    ensures { IfOk result (λ step. (all : AllRows) (d : List Deed) → IsMade all d d (model.group_save input.now) step) }
{
    match Form::read(alloc, input, Shape::Group) {
        Ok(form) => save(alloc, input, &form),
        Err(fault) => unread(alloc, fault),
    }
}
