//! Lists of files, as tables have them.

ghost use Rattle.std.specs.Prelude.{◌≡◌, IfOk, if◌then◌else◌, Some, None, ◌==◌, ◌++◌, OnOk};
ghost use Rattle.std.specs.Option.{option_copied};
ghost use Rattle.std.specs.Option.{option_to_list};
ghost use Rattle.depot_rows.specs.depot_path.Bytes.{same};
ghost use Rattle.named_files.specs.Listed.{front_key, front_text as text_in_front, listed_text as text_listed, listing_table, opener_of, own_key as key_of_file, path_in_text};

use depot_rows::paths::{DepotPath, Name, PathFault, Sequence, Text};
use depot_rows::records::{Key, Record, TableId};
use std::alloc::{AllocError, Global};

/// A list of files, as a table has it.
#[derive(Drop)]
pub enum Listing {
    /// db.have: the files that a client has.
    Had { client: Name },
    /// db.working: the files that a client has opened.
    OpenedBy { client: Name },
    /// db.rev: the submitted files.
    Submitted,
}

impl Listing {
    /// The files that a client has. The one error is want of memory.
    pub fn had_by(client: &Name) -> Result<Listing, AllocError>
        ensures { IfOk result (λ listing. listing ≡ Listing.Had client.now) }
    {
        Ok(Listing::Had {
            client: client.clone()?,
        })
    }

    /// The files that a client has opened. The one error is want of memory.
    pub fn opened_by(client: &Name) -> Result<Listing, AllocError>
        ensures { IfOk result (λ listing. listing ≡ Listing.OpenedBy client.now) }
    {
        Ok(Listing::OpenedBy {
            client: client.clone()?,
        })
    }

    /// The table.
    pub(crate) fn table(&self) -> TableId
        ensures { result ≡ listing_table self.now }
    {
        match self {
            Listing::Had { .. } => TableId::Have,
            Listing::OpenedBy { .. } => TableId::Working,
            Listing::Submitted => TableId::Rev,
        }
    }

    /// The client whose openings the list has, as the rows name it, where it is a list of opened files. The one error
    /// is want of memory.
    pub(crate) fn opener(&self, alloc: Global) -> Result<Option<Text>, AllocError>
        ensures { IfOk result (λ client. client ≡ opener_of self.now) }
    {
        match self {
            Listing::OpenedBy { client } => Ok(Some(Text::from_bytes(alloc, client.as_bytes())?)),
            Listing::Had { .. } => Ok(None),
            Listing::Submitted => Ok(None),
        }
    }

    /// The text of the path of a row of the list.
    pub(crate) fn listed_text<'a>(&self, row: &'a Record) -> Option<&'a Text>
        ensures { option_copied result ≡ text_listed self.now row.now }
    {
        match (self, row) {
            (Listing::Had { client }, Record::Have(row)) => own(client, &row.client, &row.path),
            (Listing::OpenedBy { client }, Record::Working(row)) => {
                own(client, &row.client, &row.path)
            }
            (Listing::Submitted, Record::Rev(row)) => first(row.rev, &row.path),
            _ => None,
        }
    }

    /// The text of the path of a row that stands among those of the list.
    pub(crate) fn front_text<'a>(&self, row: &'a Record) -> Option<&'a Text>
        ensures { option_copied result ≡ text_in_front self.now row.now }
    {
        match (self, row) {
            (Listing::Had { client }, Record::Have(row)) => own(client, &row.client, &row.path),
            (Listing::OpenedBy { .. }, Record::Working(row)) => Some(&row.path),
            (Listing::Submitted, Record::Rev(row)) => Some(&row.path),
            _ => None,
        }
    }

    /// The key of the row that lists a file. The one error is want of memory.
    pub(crate) fn own_key(&self, alloc: Global, file: &DepotPath) -> Result<Key, AllocError>
        ensures { IfOk result (λ key. key ≡ key_of_file self.now file.now) }
    {
        let path = file.print(alloc)?;
        match self {
            Listing::Had { client } => Ok(Key::Have {
                client: Text::from_bytes(alloc, client.as_bytes())?,
                path,
            }),
            Listing::OpenedBy { client } => Ok(Key::Working {
                path,
                client: Text::from_bytes(alloc, client.as_bytes())?,
            }),
            Listing::Submitted => Ok(Key::Rev { path, rev: 1 }),
        }
    }

    /// The least key of rows whose paths begin with a text.
    pub(crate) fn first_key(&self, alloc: Global, beginning: &Text) -> Result<Key, AllocError>
        ensures { IfOk result (λ key. key ≡ front_key self.now beginning.now) }
    {
        let path = beginning.clone()?;
        match self {
            Listing::Had { client } => Ok(Key::Have {
                client: Text::from_bytes(alloc, client.as_bytes())?,
                path,
            }),
            Listing::OpenedBy { .. } => Ok(Key::Working {
                path,
                client: Text::new(alloc),
            }),
            Listing::Submitted => Ok(Key::Rev { path, rev: 0 }),
        }
    }
}

/// The text of a path, where the row is of that name.
fn own<'a>(name: &Name, owner: &Text, path: &'a Text) -> Option<&'a Text>
    ensures { option_copied result ≡ (if same name.now owner.now then Some path.now else None) }
{
    if name.as_bytes() == owner.as_bytes() {
        Some(path)
    } else {
        None
    }
}

/// The text of a path, where the row is of its first revision.
fn first(rev: u32, path: &Text) -> Option<&Text>
    ensures { option_copied result ≡ (if rev == 1 then Some path.now else None) }
{
    if rev == 1 { Some(path) } else { None }
}

/// The path that a text spells, where it is that path as printed.
fn read_path(alloc: Global, text: &Text) -> Result<Option<DepotPath>, AllocError>
    ensures { IfOk result (λ path. option_to_list path ≡ path_in_text text.now) }
{
    match DepotPath::read(alloc, text.as_bytes()) {
        Ok(path) => {
            if path.print(alloc)?.as_bytes() == text.as_bytes() {
                Ok(Some(path))
            } else {
                Ok(None)
            }
        }
        Err(PathFault::Memory) => Err(AllocError),
        Err(_) => Ok(None),
    }
}

/// Adds the path that a text spells, where it is that path as printed.
pub(crate) fn add_path(
    alloc: Global,
    paths: &mut Sequence<DepotPath>,
    text: &Text,
) -> Result<(), AllocError>
    ensures { OnOk result (paths.new ≡ paths.old ++ path_in_text text.now) }
{
    if let Some(path) = read_path(alloc, text)? {
        paths.push(path)?;
    }
    Ok(())
}
