//! Why a command or a file is refused.

use db_records::paths::{DepotPath, Name, PathFault, Text};

/// What has a limit.
#[derive(Clone, Copy, PartialEq, Eq)]
pub enum Limit {
    /// 200 lines of a view.
    View,
    /// 1,000 lines of protections.
    Protections,
    /// 10,000 users of a group.
    Users,
    /// 65,536 bytes of a change's text.
    Text,
    /// 10,000 files changed by a command.
    Files,
    /// Change 2,147,483,647.
    Change,
    /// Generation 4,095.
    Generation,
    /// 16,777,216 bytes of blocks shelved by a command.
    Shelf,
    /// 999,999 jobs.
    Jobs,
    /// 100 fixes of a change.
    Fixes,
}

/// Why a command or a file is refused, one variant a code.
pub enum Refusal {
    /// 1: no command of that word.
    UnknownCommand(Text),
    /// 2: words that the command of that word doesn't take.
    BadUsage(Text),
    /// 3: an argument that is no path or pattern, and its fault.
    BadPath(Text, PathFault),
    /// 4: an argument whose revision can't be read, and its fault.
    BadRevision(Text, PathFault),
    /// 5: a path, or `//...`, for which the caller lacks a right, and the right's word.
    Denied(Text, u8),
    /// 6: the caller's client isn't saved.
    NoClient(Name),
    /// 7: a path or an argument that the client's view doesn't show.
    NotInView(Text),
    /// 8: an argument that names no file.
    NoSuchFile(Text),
    /// 9: no such change.
    NoSuchChange(u32),
    /// 10: the change of another user or client.
    NotYours(u32),
    /// 11: a file that this client has opened.
    AlreadyOpen(DepotPath),
    /// 12: an argument that names no opened file.
    NotOpen(Text),
    /// 13: a file that a client has opened, one of them alone.
    ExclusiveOpen(DepotPath, Name),
    /// 14: a file that a client has locked.
    Locked(DepotPath, Name),
    /// 15: a file opened from a revision that is no longer the head: its base and its head.
    Stale(DepotPath, u32, u32),
    /// 16: a file with a resolve that is owed.
    MustResolve(DepotPath),
    /// 17: a file for which there is no content.
    NoContent(DepotPath),
    /// 18: a change without files, 0 for the default.
    EmptyChange(u32),
    /// 19: a form that isn't as it should be, and its line.
    BadForm(u32),
    /// 20: no such label.
    NoSuchLabel(Name),
    /// 21: a locked label.
    LabelLocked(Name),
    /// 22: a change that can't be deleted.
    NotDeletable(u32),
    /// 23: a command that a replica doesn't take.
    ReadOnly(Text),
    /// 24: more than the limit.
    OverLimit(Limit),
    /// 26: a file into which all was integrated.
    AllIntegrated(DepotPath),
    /// 27: a file that is there.
    Exists(DepotPath),
    /// 28: a file that can't be moved.
    NotMovable(DepotPath),
    /// 29: a file of a move, and the path at its other end.
    InMove(DepotPath, DepotPath),
    /// 32: a change with shelved files.
    Shelved(u32),
    /// 33: a file that is shelved in the change.
    AlreadyShelved(DepotPath),
    /// 34: a file that can't be shelved.
    NotShelvable(DepotPath),
    /// 35: no such shelf.
    NoShelf(u32),
    /// 36: no such job.
    NoSuchJob(Text),
    /// 37: a change with fixes.
    Fixed(u32),
    /// 38: a content in the archive that isn't as it should be, and its place.
    BadArchive(u64),
}

impl Drop for Refusal {
    fn drop(self) {
        match self {
            Refusal::UnknownCommand(_) => {}
            Refusal::BadUsage(_) => {}
            Refusal::BadPath(_, _) => {}
            Refusal::BadRevision(_, _) => {}
            Refusal::Denied(_, _) => {}
            Refusal::NoClient(_) => {}
            Refusal::NotInView(_) => {}
            Refusal::NoSuchFile(_) => {}
            Refusal::NoSuchChange(_) => {}
            Refusal::NotYours(_) => {}
            Refusal::AlreadyOpen(_) => {}
            Refusal::NotOpen(_) => {}
            Refusal::ExclusiveOpen(_, _) => {}
            Refusal::Locked(_, _) => {}
            Refusal::Stale(_, _, _) => {}
            Refusal::MustResolve(_) => {}
            Refusal::NoContent(_) => {}
            Refusal::EmptyChange(_) => {}
            Refusal::BadForm(_) => {}
            Refusal::NoSuchLabel(_) => {}
            Refusal::LabelLocked(_) => {}
            Refusal::NotDeletable(_) => {}
            Refusal::ReadOnly(_) => {}
            Refusal::OverLimit(_) => {}
            Refusal::AllIntegrated(_) => {}
            Refusal::Exists(_) => {}
            Refusal::NotMovable(_) => {}
            Refusal::InMove(_, _) => {}
            Refusal::Shelved(_) => {}
            Refusal::AlreadyShelved(_) => {}
            Refusal::NotShelvable(_) => {}
            Refusal::NoShelf(_) => {}
            Refusal::NoSuchJob(_) => {}
            Refusal::Fixed(_) => {}
            Refusal::BadArchive(_) => {}
        }
    }
}
