//! What is done in a depot, as a command computes it.

use depot_model::forms::Form;
use depot_model::paths::{DepotPath, Name, Sequence, Text};
use depot_model::records::Spot;

/// What a saved form is of.
#[derive(Clone, Copy, PartialEq, Eq)]
pub enum SpecKind {
    Client,
    Label,
    /// A shelved file.
    Shelf,
    Job,
    /// A job that a change fixes.
    Fix,
}

/// What a file is opened or was submitted for.
#[derive(Clone, Copy, PartialEq, Eq)]
pub enum Action {
    Add,
    Edit,
    Delete,
    Branch,
    Integrate,
    MoveAdd,
    MoveDelete,
}

/// How a resolve was paid.
#[derive(Clone, Copy, PartialEq, Eq)]
pub enum How {
    CopyFrom,
    BranchFrom,
    DeleteFrom,
    Ignored,
    MovedFrom,
}

/// A change as it is pending.
#[derive(Drop)]
pub struct Pending {
    pub change: u32,
    pub user: Name,
    pub client: Name,
    /// Seconds since 1970.
    pub moment: u64,
    /// The description.
    pub text: Text,
}

/// A revision whose content a submit takes.
#[derive(Drop)]
pub struct Source {
    pub path: DepotPath,
    pub rev: u32,
}

/// A file as a client has it opened.
pub struct Opening {
    pub client: Name,
    pub path: DepotPath,
    /// The revision that was opened, 0 for a new file.
    pub base: u32,
    pub action: Action,
    pub file_type: Text,
    /// The changelist, 0 for the default one.
    pub change: u32,
    pub source: Option<Source>,
    /// The path at the other end of a move.
    pub moved: Option<DepotPath>,
}

impl Drop for Opening {
    fn drop(self) {
        let Opening {
            client: _,
            path: _,
            base: _,
            action: _,
            file_type: _,
            change: _,
            source: _,
            moved: _,
        } = self;
    }
}

/// A file of a client.
#[derive(Drop)]
pub struct Held {
    pub client: Name,
    pub path: DepotPath,
}

/// A resolve that a client owes.
pub struct Owing {
    pub client: Name,
    pub path: DepotPath,
    pub from: DepotPath,
    pub first: u32,
    pub last: u32,
}

impl Drop for Owing {
    fn drop(self) {
        let Owing {
            client: _,
            path: _,
            from: _,
            first: _,
            last: _,
        } = self;
    }
}

/// Revisions of a file that an entry takes in.
#[derive(Drop)]
pub struct Credit {
    pub from: DepotPath,
    pub first: u32,
    pub last: u32,
    pub how: How,
}

/// A content that stands in the archive.
#[derive(Drop)]
pub struct Stored {
    /// Its MD5 in 32 capital hexadecimal digits.
    pub digest: Text,
    /// Where it stands.
    pub spot: Spot,
}

/// A file of a submitted change.
pub struct Entry {
    pub path: DepotPath,
    /// The number of the revision that it becomes.
    pub rev: u32,
    pub action: Action,
    pub file_type: Text,
    /// None where the file is deleted.
    pub content: Option<Stored>,
    pub credits: Sequence<Credit>,
    /// The path at the other end of a move.
    pub moved: Option<DepotPath>,
}

impl Drop for Entry {
    fn drop(self) {
        let Entry {
            path: _,
            rev: _,
            action: _,
            file_type: _,
            content: _,
            credits: _,
            moved: _,
        } = self;
    }
}

/// A submitted change with its files.
#[derive(Drop)]
pub struct Landing {
    pub change: u32,
    pub user: Name,
    pub client: Name,
    /// Seconds since 1970.
    pub moment: u64,
    /// The description.
    pub text: Text,
    /// In the order of their paths.
    pub entries: Sequence<Entry>,
}

/// What is done in a depot.
pub enum Deed {
    /// A form is saved under a name.
    Spec(SpecKind, Text, Form),
    /// The protections table has these lines.
    Guard(Sequence<Text>),
    /// A group has these users.
    Group(Name, Sequence<Name>),
    /// A counter has this value, or is gone.
    Count(Name, Option<u64>),
    /// A change is pending.
    Pend(Pending),
    /// A change is pending no more.
    Drop(u32),
    /// A client opens a file.
    Open(Opening),
    /// A client has a file opened no more.
    Shut(Held),
    /// A client locks a file.
    Hold(Held),
    /// A client unlocks a file.
    Free(Held),
    /// A client has a revision of a file, or none where the number is 0.
    Got(Held, u32),
    /// A label has a revision of a file, or none where the number is 0.
    Tag(Name, DepotPath, u32),
    /// A client owes a resolve.
    Owe(Owing),
    /// A client paid the resolve of a file from another one.
    Paid(Held, DepotPath, How),
    /// A change is submitted.
    Land(Landing),
}

impl Drop for Deed {
    fn drop(self) {
        match self {
            Deed::Spec(_, _, _) => {}
            Deed::Guard(_) => {}
            Deed::Group(_, _) => {}
            Deed::Count(_, _) => {}
            Deed::Pend(_) => {}
            Deed::Drop(_) => {}
            Deed::Open(_) => {}
            Deed::Shut(_) => {}
            Deed::Hold(_) => {}
            Deed::Free(_) => {}
            Deed::Got(_, _) => {}
            Deed::Tag(_, _, _) => {}
            Deed::Owe(_) => {}
            Deed::Paid(_, _, _) => {}
            Deed::Land(_) => {}
        }
    }
}
