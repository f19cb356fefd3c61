//! The files that a client has opened, in a change where one is given, as arguments name them.

ghost use Rattle.std.specs.Prelude.{◌≡◌};
ghost use Rattle.named_files.specs.Sets.{selected_in};

use crate::asker::Asker;
use crate::choosing::candidates;
use crate::listing::Listing;
use depot_rows::model::{Caller, FileArgument};
use depot_rows::paths::{DepotPath, Sequence};
use depot_rows::records::Record;
use depot_rows::tables::Tables;
use file_steps::{FileSet, not_open};
use reply_rows::Step;
use row_reads::opened_of;
use std::alloc::{AllocError, Global};

/// The files that the client of a caller has opened, in a change where one is given, of which the arguments of the
/// caller name some.
#[derive(Drop)]
pub struct SelectedFiles<'a> {
    pub caller: &'a Caller,
    pub asker: &'a Asker,
    pub change: Option<u32>,
}

/// Whether a row is of a file opened in the change, where one is given.
fn is_selected(change: Option<u32>, row: &Option<Record>) -> bool
    ensures { result ≡ selected_in change row.now }
{
    match row {
        Some(Record::Working(row)) => match change {
            Some(change) => row.change == change,
            None => true,
        },
        _ => false,
    }
}

impl<'a> FileSet for SelectedFiles<'a> {
    ghost use Rattle.std.specs.Prelude.{◌∷◌, []};
    ghost use Rattle.depot_rows.specs.depot_model.Arguments.{opened_by};
    ghost use Rattle.depot_rows.specs.depot_model.Refusals.{refusal_row};
    ghost use Rattle.depot_rows.specs.depot_model.declared.refusal.Refusal.TheVariants as refusals;
    ghost use Rattle.named_files.specs.declared.listing.Listing.TheVariants.{OpenedBy};
    ghost use Rattle.named_files.specs.Sets.{Reads, is_chosen};

    ghost reads = { λ set rows d. Reads set.caller.now set.asker.now (OpenedBy set.caller.now.client) rows d };

    ghost files = { λ set d. opened_by d set.caller.now.client };

    ghost names = { λ set d argument path. is_chosen set.caller.now set.change d argument path };

    ghost rows_without = { λ set argument. refusal_row (refusals.NotOpen argument.text) ∷ [] };

    fn candidates(
        &self,
        alloc: Global,
        tables: &Tables,
        argument: &FileArgument,
    ) -> Result<Sequence<DepotPath>, AllocError> {
        let listing = Listing::opened_by(&self.caller.client)?;
        let pattern = &argument.spec.pattern;
        let found = candidates(alloc, tables, self.asker, &listing, pattern)?;
        Ok(found)
    }

    fn is_named(
        &self,
        alloc: Global,
        tables: &Tables,
        argument: &FileArgument,
        path: &DepotPath,
    ) -> Result<bool, AllocError> {
        let named = self.asker.names(alloc, &argument.spec.pattern, path)?;
        if !named {
            return Ok(false);
        }
        let row = opened_of(alloc, tables, &self.caller.client, path)?;
        let selected = is_selected(self.change, &row);
        drop(row);
        Ok(selected)
    }

    fn missing(&self, alloc: Global, argument: &FileArgument) -> Result<Step, AllocError> {
        let step = not_open(alloc, argument)?;
        Ok(step)
    }
}
