//! The rows of each table, with their fields in the order in which they are written.

use depot_path::Text;

/// A counter.
#[derive(Clone, Drop, PartialEq, Eq)]
pub struct CounterRecord {
    pub name: Text,
    pub value: u64,
}

/// A user of a group.
#[derive(Clone, Drop, PartialEq, Eq)]
pub struct GroupRecord {
    pub group: Text,
    pub user: Text,
}

/// A line of the protections table: its number from 1, and its five words as they were given.
#[derive(Clone, Drop, PartialEq, Eq)]
pub struct ProtectRecord {
    pub line: u32,
    pub mode: Text,
    /// `user` or `group`.
    pub kind: Text,
    /// The user or group that the line speaks of.
    pub name: Text,
    pub host: Text,
    pub path: Text,
}

/// A client or label with its form.
#[derive(Clone, Drop, PartialEq, Eq)]
pub struct DomainRecord {
    /// `client`, `label` or another word for what has a form.
    pub kind: Text,
    pub name: Text,
    pub form: Text,
}

/// A file that a client has.
#[derive(Clone, Drop, PartialEq, Eq)]
pub struct HaveRecord {
    pub client: Text,
    pub path: Text,
    pub rev: u32,
}

/// A file that a label holds.
#[derive(Clone, Drop, PartialEq, Eq)]
pub struct LabelRecord {
    pub label: Text,
    pub path: Text,
    pub rev: u32,
}

/// Revisions of one file that another file took, or that were taken from it.
#[derive(Clone, Drop, PartialEq, Eq)]
pub struct IntegedRecord {
    pub to_file: Text,
    pub from_file: Text,
    pub start_from: u32,
    pub end_from: u32,
    pub start_to: u32,
    pub end_to: u32,
    /// `copy from`, `copy into` or another word for how.
    pub how: Text,
    pub change: u32,
}

/// A resolve of revisions of a file, or of the opened file itself, into a client's opened file.
#[derive(Clone, Drop, PartialEq, Eq)]
pub struct ResolveRecord {
    pub client: Text,
    pub path: Text,
    pub from: Text,
    pub first: u32,
    pub last: u32,
    /// How it was made, empty while it is owed.
    pub how: Text,
}

/// A file that a client has opened.
#[derive(Clone, Drop, PartialEq, Eq)]
pub struct WorkingRecord {
    pub path: Text,
    pub client: Text,
    /// The revision that was opened, 0 for a new file.
    pub base: u32,
    pub action: Text,
    pub file_type: Text,
    /// The changelist, 0 for the default one.
    pub change: u32,
    /// 1 where the client has locked the file, else 0.
    pub lock: u32,
    /// The file whose content a submit takes, empty where there is none.
    pub source: Text,
    /// The revision of that file, 0 where there is none.
    pub source_rev: u32,
    /// The other file of a move, empty for an action that isn't of a move.
    pub moved: Text,
}

/// A changelist.
#[derive(Clone, Drop, PartialEq, Eq)]
pub struct ChangeRecord {
    pub change: u32,
    /// `pending` or `submitted`.
    pub status: Text,
    pub user: Text,
    pub client: Text,
    /// Seconds since 1970.
    pub moment: u64,
    /// The description.
    pub text: Text,
}

/// A revision of a file.
#[derive(Clone, Drop, PartialEq, Eq)]
pub struct RevRecord {
    pub path: Text,
    pub rev: u32,
    pub change: u32,
    pub action: Text,
    pub file_type: Text,
    /// The MD5 of the content in 32 capital hexadecimal digits, empty for a deleted revision.
    pub digest: Text,
    /// The bytes of the content.
    pub length: u64,
    /// The place of the content in the archive.
    pub at: u64,
    /// The other file of a move, empty for an action that isn't of a move.
    pub moved: Text,
}
