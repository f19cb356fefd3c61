//! The integration records of a file.

ghost use Rattle.std.specs.Prelude.{◌≡◌, ◌∷◌, [], ℕ, List, IfOk, OnOk, Ok, Some, filter, if◌then◌else◌};
ghost use Rattle.std.specs.Option.{option_copied};
ghost use Rattle.depot_rows.specs.depot_path.Path.{path_of, printed};
ghost use Rattle.depot_rows.specs.db_records.declared.table.TableId.TheVariants as table_ids;
ghost use Rattle.row_ranges.specs.Ranges.{has_row, range_table};
ghost use Rattle.depot_rows.specs.table_changes.Changed.{rows_of};
ghost use Rattle.depot_rows.specs.depot_model.declared.request.Caller.{Caller as Asking};
ghost use Rattle.depot_rows.specs.depot_model.Deeds.{Deed};
ghost use Rattle.depot_rows.specs.depot_model.Steps.History.{records_of as records_in};
ghost use Rattle.depot_rows.specs.Standing.{HasRows};
ghost use Rattle.named_files.specs.Asked.{IsAsker};
ghost use Rattle.named_files.specs.declared.asker.Asker.{Asker as Asks};
ghost use Rattle.history_query.specs.Crediting.{AreAdded, AreCredited, integed_in, listed_by, listed_in, may_list_in, records_listed_in};

use depot_rows::paths::{DepotPath, PathFault, Text};
use depot_rows::protections::Level;
use depot_rows::records::{IntegedRecord, Record, TableId};
use depot_rows::tables::Tables;
use named_files::Asker;
use row_ranges::{KeyRange, rows_in};
use std::alloc::{AllocError, Global};
use std::collections::BTreeMap;

/// Integration records into a file, by the revision into which each is, those of a revision in the order in which they
/// were added.
#[derive(Drop)]
pub(crate) struct Credits<'a> {
    pub by_revision: BTreeMap<u32, Vec<&'a IntegedRecord>>,
}

impl<'a> Credits<'a> {
    /// None, which takes no memory.
    fn new(alloc: Global) -> Credits<'a>
        ensures { AreCredited result [] }
    {
        Credits {
            by_revision: BTreeMap::new(alloc),
        }
    }

    /// Adds a record behind the others of its revision.
    fn add(&mut self, alloc: Global, integed: &'a IntegedRecord) -> Result<(), AllocError>
        ensures { OnOk result (AreAdded self.old self.new (integed.now ∷ [])) }
    {
        let before = self.by_revision.remove(&integed.end_to);
        let mut records = before.unwrap_or(Vec::new(alloc));
        records.push(integed)?;
        self.by_revision.insert(integed.end_to, records)?;
        Ok(())
    }
}

/// Whether the asker may list the file whose path a text spells.
pub(crate) fn may_list(alloc: Global, asker: &Asker, text: &Text) -> Result<bool, AllocError>
    ensures { IfOk result (λ may. may ≡ may_list_in asker.now text.now) }
{
    match DepotPath::read(alloc, text.as_bytes()) {
        Ok(path) => {
            let may = asker.may(&path, Level(1));
            Ok(may)
        }
        Err(PathFault::Memory) => Err(AllocError),
        Err(_) => Ok(false),
    }
}

/// The integration record that a row is, if it is one.
pub(crate) fn as_integed(row: &Record) -> Option<&IntegedRecord>
    ensures { option_copied result ≡ integed_in row.now }
{
    match row {
        Record::Integed(integed) => Some(integed),
        _ => None,
    }
}

/// Adds a record, if it is to be listed.
fn add_if<'a>(
    alloc: Global,
    credits: &mut Credits<'a>,
    listed: bool,
    integed: &'a IntegedRecord,
) -> Result<(), AllocError>
    ensures { OnOk result (AreAdded credits.old credits.new (if listed then integed.now ∷ [] else [])) }
{
    if listed {
        credits.add(alloc, integed)?;
    }
    Ok(())
}

/// Adds a record, if the asker may list its other file.
fn add_listed<'a>(
    alloc: Global,
    credits: &mut Credits<'a>,
    asker: &Asker,
    integed: &'a IntegedRecord,
) -> Result<(), AllocError>
    ensures { OnOk result (AreAdded credits.old credits.new (listed_by asker.now (Some integed.now))) }
{
    let may = may_list(alloc, asker, &integed.from_file)?;
    add_if(alloc, credits, may, integed)?;
    Ok(())
}

/// Adds a record, if there is one and the asker may list its other file.
fn add_found<'a>(
    alloc: Global,
    credits: &mut Credits<'a>,
    asker: &Asker,
    found: Option<&'a IntegedRecord>,
) -> Result<(), AllocError>
    ensures { OnOk result (AreAdded credits.old credits.new (listed_by asker.now (option_copied found.entry))) }
{
    match found {
        None => Ok(()),
        Some(integed) => {
            add_listed(alloc, credits, asker, integed)?;
            Ok(())
        }
    }
}

/// Adds the record that a row is, if the asker may list its other file.
fn add_row<'a>(
    alloc: Global,
    credits: &mut Credits<'a>,
    asker: &Asker,
    row: &'a Record,
) -> Result<(), AllocError>
    ensures { OnOk result (AreAdded credits.old credits.new (listed_by asker.now (integed_in row.now))) }
{
    let found = as_integed(row);
    add_found(alloc, credits, asker, found)?;
    Ok(())
}

/// The range of the rows of a file's integration records. The one error, here and below, is want of memory.
pub(crate) fn range_of(alloc: Global, path: &DepotPath) -> Result<KeyRange, AllocError>
    ensures range { IfOk result (λ range. range ≡ KeyRange.Integrations (printed path.now)) }
    ensures read_again { path_of (printed path.now) ≡ Ok path.now }
{
    let to_file = path.print(alloc)?;
    Ok(KeyRange::Integrations { to_file })
}

/// The integration records in a range whose other file the asker may list, each revision's in the order of their keys.
pub(crate) fn credits_of<'a>(
    alloc: Global,
    tables: &'a Tables,
    asker: &Asker,
    range: &'a KeyRange,
) -> Result<Credits<'a>, AllocError>
    ensures { IfOk result (λ credits. AreCredited credits (records_listed_in asker.now (filter (has_row range.now) (rows_of tables.now (range_table range.now))))) }
{
    let mut credits = Credits::new(alloc);
    for row in rows_in(alloc, tables, range)? {
        add_row(alloc, &mut credits, asker, row)?;
    }
    Ok(credits)
}

/// The records of a file in its range are those of the depot (Command-Line Reference, "p4 integrated"), from the table
/// of integration records alone.
pub(crate) fn rows_are_records(tables: &Tables)
    ensures { (d : List Deed) (caller : Asking) (asker : Asks) (path : List ℕ) → IsAsker d caller asker →
        HasRows (rows_of tables.now) d table_ids.Integed →
        listed_in asker (filter (has_row (KeyRange.Integrations (printed path))) (rows_of tables.now table_ids.Integed)) ≡ records_in d caller path }
{
    let version = tables.version(TableId::Integed);
    // the rows of a version are of its table, their keys rising
    let _table = version.table();
}
