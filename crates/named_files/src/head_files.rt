//! The files of a list, as arguments that ask for no revision name them where the client shows them.

use crate::asker::Asker;
use crate::choosing::candidates;
use crate::listed_files::missing_of;
use crate::listing::Listing;
use crate::shown_files::is_shown;
use depot_rows::model::{Caller, FileArgument};
use depot_rows::paths::{DepotPath, Sequence, Wanted};
use depot_rows::tables::Tables;
use file_steps::FileSet;
use reply_rows::Step;
use std::alloc::{AllocError, Global};

/// The files of a list of which the arguments of a caller name some: one in client syntax those that the client shows
/// there at their heads, whichever revision it asks for.
#[derive(Drop)]
pub struct HeadFiles<'a> {
    pub caller: &'a Caller,
    pub asker: &'a Asker,
    pub listing: &'a Listing,
}

impl<'a> FileSet for HeadFiles<'a> {
    ghost use Rattle.std.specs.Prelude.{false};
    ghost use Rattle.depot_rows.specs.depot_model.Arguments.{names as names_file};
    ghost use Rattle.named_files.specs.Listed.{files_of};
    ghost use Rattle.named_files.specs.Sets.{HeadReads, at_head, rows_without as without};

    ghost reads = { λ set rows d. HeadReads set.caller.now set.asker.now set.listing.now rows d };

    ghost files = { λ set d. files_of set.listing.now d };

    ghost names = { λ set d argument path. names_file false d set.caller.now (at_head argument.spec) path };

    ghost rows_without = { λ set argument. without set.listing.now argument };

    fn candidates(
        &self,
        alloc: Global,
        tables: &Tables,
        argument: &FileArgument,
    ) -> Result<Sequence<DepotPath>, AllocError> {
        let pattern = &argument.spec.pattern;
        let found = candidates(alloc, tables, self.asker, self.listing, pattern)?;
        Ok(found)
    }

    fn is_named(
        &self,
        alloc: Global,
        tables: &Tables,
        argument: &FileArgument,
        path: &DepotPath,
    ) -> Result<bool, AllocError> {
        let pattern = &argument.spec.pattern;
        let head = Wanted::Head;
        let named = is_shown(alloc, tables, self.caller, self.asker, pattern, &head, path)?;
        drop(head);
        Ok(named)
    }

    fn missing(&self, alloc: Global, argument: &FileArgument) -> Result<Step, AllocError> {
        let step = missing_of(alloc, self.listing, argument)?;
        Ok(step)
    }
}
