//! The files that are kept in a change, as arguments name them where the client shows them.

use crate::keeping::kept_files;
use depot_rows::model::{Caller, FileArgument};
use depot_rows::paths::{DepotPath, Sequence};
use depot_rows::tables::Tables;
use file_steps::{FileSet, no_file};
use named_files::{Asker, HeadFiles, Listing};
use reply_rows::Step;
use std::alloc::{AllocError, Global};

/// The files that are kept in a change, of which the arguments of a caller name some: one in client syntax those that
/// the client shows there at their heads, whichever revision it asks for.
#[derive(Drop)]
pub(crate) struct KeptHeads<'a> {
    pub(crate) caller: &'a Caller,
    pub(crate) asker: &'a Asker,
    pub(crate) change: u32,
}

impl<'a> FileSet for KeptHeads<'a> {
    ghost use Rattle.std.specs.Prelude.{◌∷◌, [], false};
    ghost use Rattle.depot_rows.specs.depot_model.Arguments.{names as names_file};
    ghost use Rattle.depot_rows.specs.depot_model.Refusals.{refusal_row};
    ghost use Rattle.depot_rows.specs.depot_model.declared.refusal.Refusal.TheVariants as refusals;
    ghost use Rattle.depot_rows.specs.depot_model.Shelves.{kept_paths};
    ghost use Rattle.named_files.specs.Sets.{at_head};
    ghost use Rattle.shelf_ops.specs.Shelved.{OpenedReads};

    ghost reads = { λ set rows d. OpenedReads set.caller.now set.asker.now rows d };

    ghost files = { λ set d. kept_paths d set.change };

    ghost names = { λ set d argument path. names_file false d set.caller.now (at_head argument.spec) path };

    ghost rows_without = { λ set argument. refusal_row (refusals.NoSuchFile argument.text) ∷ [] };

    fn candidates(
        &self,
        alloc: Global,
        tables: &Tables,
        _argument: &FileArgument,
    ) -> Result<Sequence<DepotPath>, AllocError> {
        let files = kept_files(alloc, tables, self.change)?;
        Ok(files)
    }

    fn is_named(
        &self,
        alloc: Global,
        tables: &Tables,
        argument: &FileArgument,
        path: &DepotPath,
    ) -> Result<bool, AllocError> {
        // whether a file is named where the client shows it doesn't follow from the list
        let listing = Listing::Submitted;
        let heads = HeadFiles {
            caller: self.caller,
            asker: self.asker,
            listing: &listing,
        };
        let named = heads.is_named(alloc, tables, argument, path)?;
        Ok(named)
    }

    fn missing(&self, alloc: Global, argument: &FileArgument) -> Result<Step, AllocError> {
        let step = no_file(alloc, argument)?;
        Ok(step)
    }
}
