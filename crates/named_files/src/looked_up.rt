//! The files that an argument without wildcards names, looked up one by one.

ghost use Rattle.std.specs.Prelude.{◌≡◌, ◌&&◌, ℕ, Bool, List, filter, true, false, if◌then◌else◌, IfOk, OnOk};
ghost use Rattle.std.specs.List.{list_any};
ghost use Rattle.depot_rows.specs.depot_path.Fit.{is_specifier};
ghost use Rattle.depot_rows.specs.depot_path.Path.{is_path};
ghost use Rattle.depot_rows.specs.depot_model.Arguments.{is_in};
ghost use Rattle.depot_rows.specs.depot_model.Sorted.{path_inserted};
ghost use Rattle.depot_rows.specs.table_changes.Changed.{AllRows, rows_of};
ghost use Rattle.named_files.specs.Asked.{is_placed};
ghost use Rattle.named_files.specs.Listed.{listed, listing_table};
ghost use Rattle.depot_rows.specs.Rising.{Rise};

use crate::asker::Asker;
use crate::listing::Listing;
use depot_rows::paths::{DepotPath, Pattern, Piece, Sequence};
use depot_rows::tables::Tables;
use file_steps::PathSet;
use row_reads::in_client_syntax;
use std::alloc::{AllocError, Global};

/// Whether a pattern has wildcards.
pub(crate) fn has_wildcard(pattern: &Pattern) -> bool
    ensures { result ≡ list_any is_specifier pattern.now }
{
    let pieces = pattern.pieces();
    pieces.iter().any(|piece| !matches!(piece, Piece::Byte(_)))
}

/// All files that a pattern without wildcards fits, or in client syntax at the places where the view puts them. The one
/// error, here and below, is want of memory.
pub(crate) fn spelled_files(
    alloc: Global,
    asker: &Asker,
    pattern: &Pattern,
) -> Result<Sequence<DepotPath>, AllocError>
    requires { list_any is_specifier pattern.now ≡ false }
    ensures { IfOk result (λ files. (file : List ℕ) → is_path file ≡ true →
        is_placed asker.now pattern.now file ≡ true → is_in files file ≡ true) }
{
    let text = pattern.filled(alloc, &[])?;
    let mut files = Sequence::new(alloc);
    let Some(path) = DepotPath::from_text(text) else {
        return Ok(files);
    };
    if in_client_syntax(&asker.client, pattern) {
        let placed = asker.view.to_depot(alloc, &path)?;
        return Ok(placed);
    }
    files.push(path)?;
    Ok(files)
}

/// A list of files, of each of which the tables say whether it is one of them. The one error is want of memory.
pub(crate) trait FileList {
    /// Whether rows say that a file is one of the list.
    ghost lists: { Self → AllRows → List ℕ → Bool };

    /// Whether a file is one of the list.
    fn has(&self, alloc: Global, tables: &Tables, file: &DepotPath) -> Result<bool, AllocError>
        ensures { IfOk result (λ is. is ≡ lists self.now (rows_of tables.now) file.now) };
}

impl FileList for Listing {
    ghost lists = { λ listing rows file. is_in (listed listing (rows (listing_table listing))) file };

    fn has(&self, alloc: Global, tables: &Tables, file: &DepotPath) -> Result<bool, AllocError> {
        let version = tables.version(self.table());
        // the rows of a version are of its table, their keys rising
        let _table = version.table();
        // the bytes of a path are one
        let _bytes = file.as_bytes();
        let key = self.own_key(alloc, file)?;
        let row = version.get(&key);
        let found = row.is_some();
        Ok(found)
    }
}

/// Adds a file, where it is one of a list.
fn add_listed<L: FileList>(
    alloc: Global,
    tables: &Tables,
    list: &L,
    found: &mut PathSet,
    file: DepotPath,
) -> Result<(), AllocError>
    ensures found { OnOk result (found.new ≡ (if L.lists list.now (rows_of tables.now) file then path_inserted file found.old else found.old)) }
    ensures path { is_path file ≡ true }
{
    // the bytes of a path are one
    let _bytes = file.as_bytes();
    let named = list.has(alloc, tables, &file)?;
    if !named {
        return Ok(());
    }
    found.insert(file)?;
    Ok(())
}

/// Those of some files that are of a list, in the order of their paths.
pub(crate) fn listed_among<L: FileList>(
    alloc: Global,
    tables: &Tables,
    list: &L,
    files: Sequence<DepotPath>,
) -> Result<Sequence<DepotPath>, AllocError>
    ensures rise { IfOk result (λ found. Rise found) }
    ensures exactly { IfOk result (λ found. (file : List ℕ) →
        is_in found file ≡ (is_in files file && L.lists list.now (rows_of tables.now) file)) }
{
    let mut found = PathSet::new(alloc);
    let mut rest = files.into_vec();
    while let Some(file) = rest.pop() {
        add_listed(alloc, tables, list, &mut found, file)?;
    }
    let paths = found.into_sequence(alloc)?;
    Ok(paths)
}

/// The files of a list, in the order of their paths, that a pattern without wildcards fits, or in client syntax at the
/// places where the view puts them. It asks for one row a file.
pub(crate) fn looked_up(
    alloc: Global,
    tables: &Tables,
    asker: &Asker,
    listing: &Listing,
    pattern: &Pattern,
) -> Result<Sequence<DepotPath>, AllocError>
    requires { list_any is_specifier pattern.now ≡ false }
    ensures { IfOk result (λ paths. (test : List ℕ → Bool) →
        ((path : List ℕ) → test path ≡ true → is_placed asker.now pattern.now path ≡ true) →
        filter test paths ≡ filter test (listed listing.now (rows_of tables.now (listing_table listing.now)))) }
{
    let version = tables.version(listing.table());
    // the rows of a version are of its table, their keys rising
    let _table = version.table();
    let files = spelled_files(alloc, asker, pattern)?;
    let paths = listed_among(alloc, tables, listing, files)?;
    Ok(paths)
}
