//! The protections.

ghost use Rattle.std.specs.Prelude.{◌≡◌, List, map, IfOk};
ghost use Rattle.depot_rows.specs.db_records.declared.table.TableId.TheVariants as table_ids;
ghost use Rattle.depot_rows.specs.table_changes.Changed.{rows_of};
ghost use Rattle.depot_rows.specs.table_store.Protections.{protects_in as protects_told, texts_in};
ghost use Rattle.depot_rows.specs.depot_model.Asking.{protects as protects_in};
ghost use Rattle.depot_rows.specs.depot_model.Deeds.{Deed};
ghost use Rattle.depot_rows.specs.depot_model.Latest.{guard_lines};
ghost use Rattle.depot_rows.specs.depot_model.Rules.{IsSound};
ghost use Rattle.depot_rows.specs.depot_model.Steps.Protections.{kept_line};
ghost use Rattle.depot_rows.specs.Standing.{HasRows};

use depot_rows::paths::{Sequence, Text};
use depot_rows::protections::Protects;
use depot_rows::records::TableId;
use depot_rows::tables::{Tables, line_texts};
use std::alloc::{AllocError, Global};

/// The rows of a sound depot spell its lines.
fn rows_spell_lines(tables: &Tables)
    ensures { (d : List Deed) → IsSound d → HasRows (rows_of tables.now) d table_ids.Protect →
        protects_told (rows_of tables.now table_ids.Protect) ≡ protects_in d }
{
    let version = tables.version(TableId::Protect);
    // the rows of a version are of its table, their keys rising
    let _table = version.table();
}

/// The protections (Command-Line Reference, "p4 protect"), from the table of protections alone. They were read when its
/// version was made: the call takes no memory.
pub fn protects_of(tables: &Tables) -> &Protects
    ensures rows { result.now ≡ protects_told (rows_of tables.now table_ids.Protect) }
    ensures depot { (d : List Deed) → IsSound d → HasRows (rows_of tables.now) d table_ids.Protect →
        result.now ≡ protects_in d }
{
    rows_spell_lines(tables);
    tables.version(TableId::Protect).protects()
}

/// The rows of a sound depot have the words of its lines.
fn rows_keep_lines(tables: &Tables)
    ensures { (d : List Deed) → IsSound d → HasRows (rows_of tables.now) d table_ids.Protect →
        texts_in (rows_of tables.now table_ids.Protect) ≡ map kept_line (guard_lines d) }
{
    let version = tables.version(TableId::Protect);
    // the rows of a version are of its table, their keys rising
    let _table = version.table();
}

/// The lines of the protections, each with one space between its words (Command-Line Reference, "p4 protect"), from the
/// table of protections alone.
pub fn protection_lines(alloc: Global, tables: &Tables) -> Result<Sequence<Text>, AllocError>
    ensures { IfOk result (λ lines. (d : List Deed) → IsSound d → HasRows (rows_of tables.now) d table_ids.Protect →
        lines ≡ map kept_line (guard_lines d)) }
{
    rows_keep_lines(tables);
    let lines = line_texts(alloc, tables.version(TableId::Protect).rows())?;
    Ok(lines)
}
