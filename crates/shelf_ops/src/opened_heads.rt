//! The files that a client has opened in a change, as arguments name them where the client shows them.

ghost use Rattle.std.specs.Prelude.{◌≡◌, Some, option_map};
ghost use Rattle.std.specs.Option.{option_copied};
ghost use Rattle.named_files.specs.Sets.{selected_in};

use depot_rows::model::{Caller, FileArgument};
use depot_rows::paths::{DepotPath, Sequence};
use depot_rows::records::{Record, WorkingRecord};
use depot_rows::tables::Tables;
use file_openings::opening_of;
use file_steps::{FileSet, not_open};
use named_files::{Asker, HeadFiles, Listing, candidates};
use reply_rows::Step;
use std::alloc::{AllocError, Global};

/// The files that the client of a caller has opened in a change, of which the arguments of the caller name some: one in
/// client syntax those that the client shows there at their heads, whichever revision it asks for.
#[derive(Drop)]
pub(crate) struct OpenedHeads<'a> {
    pub(crate) caller: &'a Caller,
    pub(crate) asker: &'a Asker,
    pub(crate) change: u32,
}

/// Whether a row is of a file opened in the change.
fn is_in_change(change: u32, row: Option<&WorkingRecord>) -> bool
    ensures { result ≡ selected_in (Some change) (option_map Record.Working (option_copied row.entry)) }
{
    match row {
        Some(row) => row.change == change,
        None => false,
    }
}

impl<'a> FileSet for OpenedHeads<'a> {
    ghost use Rattle.std.specs.Prelude.{◌∷◌, [], Some};
    ghost use Rattle.depot_rows.specs.depot_model.Arguments.{opened_by};
    ghost use Rattle.depot_rows.specs.depot_model.Refusals.{refusal_row};
    ghost use Rattle.depot_rows.specs.depot_model.declared.refusal.Refusal.TheVariants as refusals;
    ghost use Rattle.shelf_ops.specs.Shelved.{OpenedReads, is_at_head};

    ghost reads = { λ set rows d. OpenedReads set.caller.now set.asker.now rows d };

    ghost files = { λ set d. opened_by d set.caller.now.client };

    ghost names = { λ set d argument path. is_at_head set.caller.now set.change d argument path };

    ghost rows_without = { λ set argument. refusal_row (refusals.NotOpen argument.text) ∷ [] };

    fn candidates(
        &self,
        alloc: Global,
        tables: &Tables,
        argument: &FileArgument,
    ) -> Result<Sequence<DepotPath>, AllocError> {
        let listing = Listing::opened_by(&self.caller.client)?;
        let pattern = &argument.spec.pattern;
        let found = candidates(alloc, tables, self.asker, &listing, pattern)?;
        Ok(found)
    }

    fn is_named(
        &self,
        alloc: Global,
        tables: &Tables,
        argument: &FileArgument,
        path: &DepotPath,
    ) -> Result<bool, AllocError> {
        let row = opening_of(alloc, tables, &self.caller.client, path)?;
        if !is_in_change(self.change, row) {
            return Ok(false);
        }
        // whether a file is named where the client shows it doesn't follow from the list
        let listing = Listing::Submitted;
        let heads = HeadFiles {
            caller: self.caller,
            asker: self.asker,
            listing: &listing,
        };
        let named = heads.is_named(alloc, tables, argument, path)?;
        Ok(named)
    }

    fn missing(&self, alloc: Global, argument: &FileArgument) -> Result<Step, AllocError> {
        let step = not_open(alloc, argument)?;
        Ok(step)
    }
}
