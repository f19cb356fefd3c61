//! The files of a list, as arguments name them where the client shows them, of which they choose a revision.

ghost use Rattle.std.specs.Prelude.{◌≡◌, is_some};
ghost use Rattle.std.specs.Option.{option_copied};

use crate::asker::Asker;
use crate::choosing::candidates;
use crate::listed_files::missing_of;
use crate::listing::Listing;
use crate::looked_up::has_wildcard;
use crate::made_files::files_made;
use crate::shown_files::is_shown;
use depot_rows::model::{Caller, FileArgument};
use depot_rows::paths::{DepotPath, RevSpec, Sequence, Wanted};
use depot_rows::records::RevRecord;
use depot_rows::tables::Tables;
use file_steps::FileSet;
use reply_rows::Step;
use revision_reads::chosen_revision;
use std::alloc::{AllocError, Global};

/// The files of a list of which the arguments of a caller name some, as those of [`ShownFiles`](crate::ShownFiles), and
/// choose a revision: one that isn't passed over (Command-Line Reference, "p4 files").
#[derive(Drop)]
pub struct ChosenFiles<'a> {
    pub caller: &'a Caller,
    pub asker: &'a Asker,
    pub listing: &'a Listing,
}

/// Whether a revision was chosen.
fn is_there(row: Option<&RevRecord>) -> bool
    ensures { result ≡ is_some (option_copied row.entry) }
{
    match row {
        Some(_) => true,
        None => false,
    }
}

impl<'a> FileSet for ChosenFiles<'a> {
    ghost use Rattle.named_files.specs.Listed.{files_of};
    ghost use Rattle.named_files.specs.Sets.{ShownReads, is_listed, rows_without as without};

    ghost reads = { λ set rows d. ShownReads set.caller.now set.asker.now set.listing.now rows d };

    ghost files = { λ set d. files_of set.listing.now d };

    ghost names = { λ set d argument path. is_listed set.caller.now d argument path };

    ghost rows_without = { λ set argument. without set.listing.now argument };

    fn candidates(
        &self,
        alloc: Global,
        tables: &Tables,
        argument: &FileArgument,
    ) -> Result<Sequence<DepotPath>, AllocError> {
        let pattern = &argument.spec.pattern;
        if let Listing::Submitted = self.listing
            && let Wanted::One(end) = &argument.spec.wanted
            && let RevSpec::Only(change) = end
            && has_wildcard(pattern)
        {
            let made = files_made(alloc, tables, self.asker, *change, pattern)?;
            return Ok(made);
        }
        let found = candidates(alloc, tables, self.asker, self.listing, pattern)?;
        Ok(found)
    }

    fn is_named(
        &self,
        alloc: Global,
        tables: &Tables,
        argument: &FileArgument,
        path: &DepotPath,
    ) -> Result<bool, AllocError> {
        let pattern = &argument.spec.pattern;
        let wanted = &argument.spec.wanted;
        let named = is_shown(
            alloc,
            tables,
            self.caller,
            self.asker,
            pattern,
            wanted,
            path,
        )?;
        if !named {
            return Ok(false);
        }
        let row = chosen_revision(alloc, tables, self.caller, path, wanted)?;
        Ok(is_there(row))
    }

    fn missing(&self, alloc: Global, argument: &FileArgument) -> Result<Step, AllocError> {
        let step = missing_of(alloc, self.listing, argument)?;
        Ok(step)
    }
}
