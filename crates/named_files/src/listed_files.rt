//! The files of a list, as arguments name them.

ghost use Rattle.std.specs.Prelude.{List, IfOk};
ghost use Rattle.depot_rows.specs.table_changes.Changed.{AllRows};
ghost use Rattle.depot_rows.specs.depot_model.Deeds.{Deed};
ghost use Rattle.depot_rows.specs.depot_model.Step.{tells};
ghost use Rattle.reply_rows.specs.Made.{IsMade};
ghost use Rattle.named_files.specs.Sets.{rows_without as told_without};

use crate::asker::Asker;
use crate::choosing::candidates;
use crate::listing::Listing;
use depot_rows::model::{Caller, FileArgument};
use depot_rows::paths::{DepotPath, Sequence};
use depot_rows::tables::Tables;
use file_steps::{FileSet, no_file, not_open};
use reply_rows::Step;
use std::alloc::{AllocError, Global};

/// The files of a list of which the arguments of a caller name some, wherever the client's view puts them.
#[derive(Drop)]
pub struct ListedFiles<'a> {
    pub caller: &'a Caller,
    pub asker: &'a Asker,
    pub listing: &'a Listing,
}

/// What is done for an argument that names no file of a list.
pub(crate) fn missing_of(
    alloc: Global,
    listing: &Listing,
    argument: &FileArgument,
) -> Result<Step, AllocError>
    ensures { IfOk result (λ step. (all : AllRows) (d e : List Deed) →
        IsMade all d e (tells (told_without listing.now argument.now)) step) }
{
    match listing {
        Listing::OpenedBy { .. } => {
            let step = not_open(alloc, argument)?;
            Ok(step)
        }
        Listing::Had { .. } => {
            let step = no_file(alloc, argument)?;
            Ok(step)
        }
        Listing::Submitted => {
            let step = no_file(alloc, argument)?;
            Ok(step)
        }
    }
}

impl<'a> FileSet for ListedFiles<'a> {
    ghost use Rattle.std.specs.Prelude.{true};
    ghost use Rattle.depot_rows.specs.depot_model.Arguments.{names as names_file};
    ghost use Rattle.named_files.specs.Listed.{files_of};
    ghost use Rattle.named_files.specs.Sets.{Reads, rows_without as without};

    ghost reads = { λ set rows d. Reads set.caller.now set.asker.now set.listing.now rows d };

    ghost files = { λ set d. files_of set.listing.now d };

    ghost names = { λ set d argument path. names_file true d set.caller.now argument.spec path };

    ghost rows_without = { λ set argument. without set.listing.now argument };

    fn candidates(
        &self,
        alloc: Global,
        tables: &Tables,
        argument: &FileArgument,
    ) -> Result<Sequence<DepotPath>, AllocError> {
        let pattern = &argument.spec.pattern;
        let found = candidates(alloc, tables, self.asker, self.listing, pattern)?;
        Ok(found)
    }

    fn is_named(
        &self,
        alloc: Global,
        _tables: &Tables,
        argument: &FileArgument,
        path: &DepotPath,
    ) -> Result<bool, AllocError> {
        let named = self.asker.names(alloc, &argument.spec.pattern, path)?;
        Ok(named)
    }

    fn missing(&self, alloc: Global, argument: &FileArgument) -> Result<Step, AllocError> {
        let step = missing_of(alloc, self.listing, argument)?;
        Ok(step)
    }
}
