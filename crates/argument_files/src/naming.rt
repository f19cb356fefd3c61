//! Given files and one argument.

ghost use Rattle.std.specs.Prelude.{◌≡◌, List, IfOk};
ghost use Rattle.depot_rows.specs.table_changes.Changed.{rows_of};
ghost use Rattle.depot_rows.specs.depot_model.Arguments.{named as named_files, names};
ghost use Rattle.depot_rows.specs.depot_model.Deeds.{Deed};
ghost use Rattle.named_files.specs.Asked.{IsAsker};
ghost use Rattle.argument_files.specs.Naming.{NamesBy};

use depot_rows::model::{Caller, FileArgument};
use depot_rows::paths::{DepotPath, Sequence};
use depot_rows::tables::Tables;
use file_steps::FileSet;
use named_files::{Asker, Listing, ShownFiles};
use opening_parts::own_path;
use std::alloc::{AllocError, Global};

/// Whether an argument names a file that the asker, who is the caller, may list.
fn is_named(
    alloc: Global,
    tables: &Tables,
    caller: &Caller,
    asker: &Asker,
    argument: &FileArgument,
    path: &DepotPath,
    mapped_only: bool,
) -> Result<bool, AllocError>
    ensures { IfOk result (λ named. (d : List Deed) → NamesBy (rows_of tables.now) d mapped_only →
        IsAsker d caller.now asker.now →
        named ≡ names mapped_only d caller.now argument.now.spec path.now) }
{
    if mapped_only {
        let named = asker.names(alloc, &argument.spec.pattern, path)?;
        return Ok(named);
    }
    let files = ShownFiles {
        caller,
        asker,
        listing: &Listing::Submitted,
    };
    let named = files.is_named(alloc, tables, argument, path)?;
    Ok(named)
}

/// Those of some files that an argument names and that the caller may list, in their order. Where `mapped_only` holds,
/// an argument in client syntax names the files that the client's view puts at a fitting path; else those that the
/// client shows at one, at the revisions for which the argument asks. The asker is the caller's, and one for all its
/// arguments. The one error is want of memory.
pub fn named(
    alloc: Global,
    tables: &Tables,
    caller: &Caller,
    asker: &Asker,
    argument: &FileArgument,
    files: &[DepotPath],
    mapped_only: bool,
) -> Result<Sequence<DepotPath>, AllocError>
    ensures { IfOk result (λ found. (d : List Deed) → NamesBy (rows_of tables.now) d mapped_only →
        IsAsker d caller.now asker.now →
        found ≡ named_files mapped_only d caller.now files.now argument.now) }
{
    let mut found = Sequence::new(alloc);
    for path in files {
        if is_named(alloc, tables, caller, asker, argument, path, mapped_only)? {
            let own = own_path(path)?;
            found.push(own)?;
        }
    }
    Ok(found)
}
