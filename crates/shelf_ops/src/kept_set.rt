//! The files that are kept in a change, as arguments name them.

use crate::keeping::kept_files;
use depot_rows::model::{Caller, FileArgument};
use depot_rows::paths::{DepotPath, Sequence};
use depot_rows::tables::Tables;
use file_steps::{FileSet, no_file};
use named_files::Asker;
use reply_rows::Step;
use std::alloc::{AllocError, Global};

/// The files that are kept in a change, of which the arguments of a caller name some, wherever the client's view puts
/// them.
#[derive(Drop)]
pub(crate) struct KeptFiles<'a> {
    pub(crate) caller: &'a Caller,
    pub(crate) asker: &'a Asker,
    pub(crate) change: u32,
}

impl<'a> FileSet for KeptFiles<'a> {
    ghost use Rattle.std.specs.Prelude.{◌∷◌, [], true};
    ghost use Rattle.depot_rows.specs.depot_model.Arguments.{names as names_file};
    ghost use Rattle.depot_rows.specs.depot_model.Refusals.{refusal_row};
    ghost use Rattle.depot_rows.specs.depot_model.declared.refusal.Refusal.TheVariants as refusals;
    ghost use Rattle.depot_rows.specs.depot_model.Shelves.{kept_paths};
    ghost use Rattle.shelf_ops.specs.Sets.{KeptReads};

    ghost reads = { λ set rows d. KeptReads set.caller.now set.asker.now rows d };

    ghost files = { λ set d. kept_paths d set.change };

    ghost names = { λ set d argument path. names_file true d set.caller.now argument.spec path };

    ghost rows_without = { λ set argument. refusal_row (refusals.NoSuchFile argument.text) ∷ [] };

    fn candidates(
        &self,
        alloc: Global,
        tables: &Tables,
        _argument: &FileArgument,
    ) -> Result<Sequence<DepotPath>, AllocError> {
        let files = kept_files(alloc, tables, self.change)?;
        Ok(files)
    }

    fn is_named(
        &self,
        alloc: Global,
        _tables: &Tables,
        argument: &FileArgument,
        path: &DepotPath,
    ) -> Result<bool, AllocError> {
        let named = self.asker.names(alloc, &argument.spec.pattern, path)?;
        Ok(named)
    }

    fn missing(&self, alloc: Global, argument: &FileArgument) -> Result<Step, AllocError> {
        let step = no_file(alloc, argument)?;
        Ok(step)
    }
}
