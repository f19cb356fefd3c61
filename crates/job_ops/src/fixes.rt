//! `fixes` (Command-Line Reference, "p4 fixes").

ghost use Rattle.std.specs.Prelude.{◌≡◌, List, IfOk};
ghost use Rattle.depot_rows.specs.db_records.declared.table.TableId.TheVariants as table_ids;
ghost use Rattle.depot_rows.specs.depot_model.Deeds.{Deed};
ghost use Rattle.depot_rows.specs.depot_model.Rules.{IsSound};
ghost use Rattle.depot_rows.specs.depot_model.Steps.Jobs as steps;
ghost use Rattle.depot_rows.specs.Standing.{HasRows};
ghost use Rattle.reply_rows.specs.Made.{IsMade};
ghost use Rattle.depot_rows.specs.table_changes.Changed.{rows_of};

use depot_rows::forms::Form;
use depot_rows::model::Row;
use depot_rows::paths::{Sequence, Text};
use depot_rows::tables::Tables;
use job_fixes::fixes_asked;
use reply_rows::{Step, push_values, row_of};
use std::alloc::{AllocError, Global};

/// The row of a fix.
fn fix_row(alloc: Global, form: &Form) -> Result<Row, AllocError>
    ensures { IfOk result (λ row. row ≡ steps.fix_row form.now) }
{
    let mut fields = Sequence::new(alloc);
    push_values(alloc, &mut fields, b"Job", form.lines("Job"))?;
    push_values(alloc, &mut fields, b"Change", form.lines("Change"))?;
    push_values(alloc, &mut fields, b"User", form.lines("User"))?;
    Ok(row_of(fields))
}

/// `fixes [-c N] [-j JOB]`, from the table of forms alone. It reads the fixes by the change, or without one those of
/// the job, or all.
pub fn fix_list(
    alloc: Global,
    tables: &Tables,
    change: Option<u32>,
    job: &Option<Text>,
) -> Result<Step, AllocError>
    ensures { IfOk result (λ step. (d : List Deed) → IsSound d → HasRows (rows_of tables.now) d table_ids.Domain →
        IsMade (rows_of tables.now) d d (steps.fixes d change job.now) step) }
{
    let fixes = fixes_asked(alloc, tables, change, job)?;
    let forms = fixes.as_slice();
    let mut rows = Sequence::new(alloc);
    for form in forms {
        rows.push(fix_row(alloc, form)?)?;
    }
    Ok(Step {
        rows,
        ..Step::new(alloc)
    })
}
