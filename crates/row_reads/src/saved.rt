//! Which clients and labels are saved.

ghost use Rattle.std.specs.Prelude.{◌≡◌, List, IfOk};
ghost use Rattle.depot_rows.specs.db_records.declared.key.Key.TheVariants as keys;
ghost use Rattle.depot_rows.specs.db_records.declared.table.TableId.TheVariants as table_ids;
ghost use Rattle.depot_rows.specs.table_changes.Changed.{rows_of};
ghost use Rattle.depot_rows.specs.depot_model.Asking.{is_client as client_saved, is_label as label_saved};
ghost use Rattle.depot_rows.specs.depot_model.Deeds.{Deed};
ghost use Rattle.depot_rows.specs.Standing.{HasRows};

use depot_rows::paths::{Name, Text};
use depot_rows::records::{Key, TableId};
use depot_rows::tables::Tables;
use std::alloc::{AllocError, Global};

/// The key of a saved form.
pub(crate) fn form_key(alloc: Global, kind: &[u8], name: &[u8]) -> Result<Key, AllocError>
    ensures { IfOk result (λ key. key ≡ keys.Domain kind.now name.now) }
{
    let kind = Text::from_bytes(alloc, kind)?;
    let name = Text::from_bytes(alloc, name)?;
    Ok(Key::Domain { kind, name })
}

/// Whether a client of the name is saved (Command-Line Reference, "p4 client"), from the table of forms alone.
pub fn is_client(alloc: Global, tables: &Tables, name: &Name) -> Result<bool, AllocError>
    ensures { IfOk result (λ found. (d : List Deed) → HasRows (rows_of tables.now) d table_ids.Domain →
        found ≡ client_saved d name.now) }
{
    let key = form_key(alloc, b"client", name.as_bytes())?;
    let row = tables.version(TableId::Domain).get(&key);
    let found = row.is_some();
    Ok(found)
}

/// Whether a label of the name is saved (Command-Line Reference, "p4 label"), from the table of forms alone.
pub fn is_label(alloc: Global, tables: &Tables, name: &Name) -> Result<bool, AllocError>
    ensures { IfOk result (λ found. (d : List Deed) → HasRows (rows_of tables.now) d table_ids.Domain →
        found ≡ label_saved d name.now) }
{
    let key = form_key(alloc, b"label", name.as_bytes())?;
    let row = tables.version(TableId::Domain).get(&key);
    let found = row.is_some();
    Ok(found)
}
