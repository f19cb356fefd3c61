//! Whether a form holds a change.

ghost use Rattle.std.specs.Prelude.{◌≡◌, ◌++◌, ◌∷◌, [], List, IfOk, codes, decimal};
ghost use Rattle.depot_rows.specs.db_records.declared.table.TableId.TheVariants as table_ids;
ghost use Rattle.depot_rows.specs.table_changes.Changed.{rows_of};
ghost use Rattle.depot_rows.specs.depot_model.Deeds.{Deed, ShelfForm};
ghost use Rattle.depot_rows.specs.depot_model.Fixes.{is_fixing as is_fixing_in};
ghost use Rattle.depot_rows.specs.depot_model.Rules.{IsSound};
ghost use Rattle.depot_rows.specs.depot_model.Shelves.{is_shelved as is_shelved_in};
ghost use Rattle.depot_rows.specs.Standing.{HasRows};
ghost use Rattle.held_changes.specs.Holding.{holds, is_held};

use depot_rows::SpecKind;
use depot_rows::forms::Form;
use depot_rows::paths::Text;
use depot_rows::tables::Tables;
use job_fixes::{digits, fixes_of};
use named_forms::names_with;
use row_reads::{form_value, saved_form};
use std::alloc::{AllocError, Global};

/// Whether a form is in a state and of a change.
fn is_in_state(form: &Form, state: &[u8], change: &[u8]) -> bool
    ensures { result ≡ holds state.now change.now form.now }
{
    form_value(form, "State") == state && form_value(form, "Change") == change
}

/// Whether the form that is saved under a name is of a file that is kept in a change with these digits.
fn is_held_under(
    alloc: Global,
    tables: &Tables,
    change: &[u8],
    name: &Text,
) -> Result<bool, AllocError>
    ensures { IfOk result (λ held. (d : List Deed) → IsSound d → HasRows (rows_of tables.now) d table_ids.Domain →
        held ≡ is_held ShelfForm d (codes "kept") change.now name.now) }
{
    match saved_form(alloc, tables, SpecKind::Shelf, name.as_bytes())? {
        Some(form) => Ok(is_in_state(&form, b"kept", change)),
        None => Ok(false),
    }
}

/// What the names of the forms of the files that are shelved in a change begin with: its number and a space.
fn shelf_beginning(alloc: Global, number: u32) -> Result<Text, AllocError>
    ensures { IfOk result (λ start. start ≡ decimal number ++ 0x20 ∷ []) }
{
    let mut start = digits(alloc, number)?;
    start.append(b" ")?;
    Ok(start)
}

/// Whether a change has shelved files (Command-Line Reference, "p4 shelve"), from the table of forms alone. It looks at
/// the forms of that change, and reads them until one is of a file that is kept.
pub fn is_shelved(alloc: Global, tables: &Tables, change: u32) -> Result<bool, AllocError>
    ensures { IfOk result (λ shelved. (d : List Deed) → IsSound d → HasRows (rows_of tables.now) d table_ids.Domain →
        shelved ≡ is_shelved_in d change) }
{
    let number = digits(alloc, change)?;
    let spelled = number.as_bytes();
    let start = shelf_beginning(alloc, change)?;
    let found = names_with(alloc, tables, b"shelf", start.as_bytes())?;
    let names = found.as_slice();
    for name in names {
        if is_held_under(alloc, tables, spelled, name)? {
            return Ok(true);
        }
    }
    Ok(false)
}

/// Whether a change fixes jobs (Command-Line Reference, "p4 fix"), from the table of forms alone. It reads the fixes by
/// the change.
pub fn is_fixing(alloc: Global, tables: &Tables, change: u32) -> Result<bool, AllocError>
    ensures { IfOk result (λ fixing. (d : List Deed) → IsSound d → HasRows (rows_of tables.now) d table_ids.Domain →
        fixing ≡ is_fixing_in d change) }
{
    let fixes = fixes_of(alloc, tables, change)?;
    Ok(!fixes.as_slice().is_empty())
}
