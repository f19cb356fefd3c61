//! Views of clients.

ghost use Rattle.std.specs.Prelude.{◌≡◌, List, [], IfOk, Some, None, if◌then◌else◌};
ghost use Rattle.std.specs.Option.{option_copied};
ghost use Rattle.depot_rows.specs.db_records.declared.table.TableId.TheVariants as table_ids;
ghost use Rattle.depot_rows.specs.table_changes.Changed.{rows_of};
ghost use Rattle.depot_rows.specs.depot_model.Asking.{view, is_client};
ghost use Rattle.depot_rows.specs.depot_model.Deeds.{Deed};
ghost use Rattle.depot_rows.specs.depot_model.Rules.{IsSound};
ghost use Rattle.depot_rows.specs.Standing.{HasRows};
ghost use Rattle.row_reads.specs.Views.{view_in_form as view_of_form, view_in as view_of_text, view_in_row as view_of_row};

use crate::saved::form_key;
use depot_rows::forms::{Form, FormFaultKind, Shape};
use depot_rows::paths::Name;
use depot_rows::records::{Record, TableId};
use depot_rows::tables::Tables;
use depot_rows::views::{View, ViewCause};
use std::alloc::{AllocError, Global};

/// The view without lines.
fn empty(alloc: Global, client: &Name) -> Result<View, AllocError>
    ensures { IfOk result (λ view. view ≡ []) }
{
    match View::from_lines(alloc, client, &[]) {
        Ok(view) => Ok(view),
        Err(_) => Err(AllocError),
    }
}

/// The view in a client's form.
fn view_in_form(alloc: Global, client: &Name, form: &Form) -> Result<View, AllocError>
    ensures { IfOk result (λ view. view ≡ view_of_form client.now form.now) }
{
    match View::from_lines(alloc, client, form.lines("View")) {
        Ok(view) => Ok(view),
        Err(fault) => match fault.what {
            ViewCause::Memory => Err(AllocError),
            _ => empty(alloc, client),
        },
    }
}

/// The view in the text of a client's form.
fn view_in_text(alloc: Global, client: &Name, text: &[u8]) -> Result<View, AllocError>
    ensures { IfOk result (λ view. view ≡ view_of_text client.now text.now) }
{
    match Form::read(alloc, text, Shape::Client) {
        Ok(form) => {
            let view = view_in_form(alloc, client, &form)?;
            Ok(view)
        }
        Err(fault) => match fault.what {
            FormFaultKind::Memory => Err(AllocError),
            _ => empty(alloc, client),
        },
    }
}

/// The view in the row of a client's form, None where there is none.
fn view_in_row(
    alloc: Global,
    client: &Name,
    row: Option<&Record>,
) -> Result<Option<View>, AllocError>
    ensures { IfOk result (λ found. found ≡ view_of_row client.now (option_copied row.entry)) }
{
    match row {
        Some(Record::Domain(domain)) => {
            let view = view_in_text(alloc, client, domain.form.as_bytes())?;
            Ok(Some(view))
        }
        _ => Ok(None),
    }
}

/// The view of a client, None exactly where it isn't saved (Command-Line Reference, "p4 client"), from the table of
/// forms alone.
pub fn view_of(alloc: Global, tables: &Tables, client: &Name) -> Result<Option<View>, AllocError>
    ensures { IfOk result (λ found. (d : List Deed) → IsSound d → HasRows (rows_of tables.now) d table_ids.Domain →
        found ≡ (if is_client d client.now then Some (view d client.now) else None)) }
{
    let key = form_key(alloc, b"client", client.as_bytes())?;
    let version = tables.version(TableId::Domain);
    let row = version.get(&key);
    let view = view_in_row(alloc, client, row)?;
    Ok(view)
}
