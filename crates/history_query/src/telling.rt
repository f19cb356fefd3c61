//! The chosen revision of a file with its change.

ghost use Rattle.std.specs.Prelude.{◌≡◌, List, option_map};
ghost use Rattle.std.specs.Option.{option_copied};
ghost use Rattle.depot_rows.specs.db_records.declared.table.TableId.TheVariants as table_ids;
ghost use Rattle.depot_rows.specs.db_records.declared.record.Record.TheVariants.{Change};
ghost use Rattle.depot_rows.specs.table_changes.Changed.{rows_of};
ghost use Rattle.depot_rows.specs.depot_model.Choice.{Choice};
ghost use Rattle.depot_rows.specs.depot_model.Deeds.{Deed};
ghost use Rattle.depot_rows.specs.depot_model.Steps.Listing.{numbered};
ghost use Rattle.depot_rows.specs.Standing.{HasRows};
ghost use Rattle.revision_reads.specs.History.{numbered_record, seen};
ghost use Rattle.history_query.specs.Choosing.{ChoiceReads};
ghost use Rattle.history_query.specs.Telling.{revision_records, told_records, with_landed};

use depot_rows::paths::DepotPath;
use depot_rows::records::{ChangeRecord, RevRecord};
use depot_rows::tables::Tables;
use revision_reads::change_of;

/// The row of a revision and that of the change that made it.
#[derive(Drop)]
pub(crate) struct Told<'a> {
    pub row: &'a RevRecord,
    pub change: &'a ChangeRecord,
}

/// A revision with its change, if that is there.
fn pair<'a>(row: &'a RevRecord, change: Option<&'a ChangeRecord>) -> Option<Told<'a>>
    ensures { option_map told_records result ≡ option_map (λ c. (seen row.now, Change c)) (option_copied change.entry) }
{
    match change {
        None => None,
        Some(change) => Some(Told { row, change }),
    }
}

/// A revision with its change.
fn with_change<'a>(tables: &'a Tables, row: Option<&'a RevRecord>) -> Option<Told<'a>>
    ensures { (d : List Deed) → HasRows (rows_of tables.now) d table_ids.Change →
        option_map told_records result ≡ with_landed d (option_map seen (option_copied row.entry)) }
{
    match row {
        None => None,
        Some(row) => {
            let change = change_of(tables, row.change);
            let told = pair(row, change);
            told
        }
    }
}

/// The row of the revision that is chosen of a file, with its change.
pub(crate) fn told_of<'a>(
    tables: &'a Tables,
    path: &DepotPath,
    row: Option<&'a RevRecord>,
) -> Option<Told<'a>>
    ensures { (d : List Deed) (choice : Choice) → ChoiceReads (rows_of tables.now) d →
        option_map seen (option_copied row.entry) ≡ option_map numbered_record (numbered d path.now choice) →
        option_map told_records result ≡ option_map revision_records (numbered d path.now choice) }
{
    // the bytes of a path are one
    let _bytes = path.as_bytes();
    with_change(tables, row)
}
