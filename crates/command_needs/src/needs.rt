//! What a command needs.

ghost use Rattle.std.specs.Prelude.{◌≡◌};
ghost use Rattle.depot_model.specs.Tables.{own_tables, reads_archive, writes_archive};
ghost use Rattle.command_needs.specs.Sets.{AreNone, AreOf, AreOfWords, takes, writes_behind};

use crate::table_set::TableSet;
use depot_model::records::TableId;
use depot_model::{Command, LockId, Request};

/// What a command reads and writes.
#[derive(Clone, Copy)]
pub struct Needs {
    /// The tables that it reads, beside those that it writes.
    pub reads: TableSet,
    /// The tables that it writes.
    pub writes: TableSet,
    /// Whether it reads contents of the archive.
    pub reads_archive: bool,
    /// Whether it stores contents there.
    pub writes_archive: bool,
}

/// The tables that a command reads alone, but for the three that every command reads, and those that it writes.
fn own_tables(command: &Command) -> (&'static [TableId], &'static [TableId])
    ensures read { result.0.now ≡ (own_tables command.now).read }
    ensures written { result.1.now ≡ (own_tables command.now).written }
{
    match command {
        Command::CounterShow { .. } | Command::Counters => (&[TableId::Counter], &[]),
        Command::CounterSet { .. } | Command::CounterDelete { .. } => (&[], &[TableId::Counter]),
        Command::ClientShow { .. }
        | Command::LabelShow { .. }
        | Command::GroupShow { .. }
        | Command::ProtectShow
        | Command::Where { .. }
        | Command::Labels
        | Command::JobShow { .. }
        | Command::Jobs
        | Command::Fixes { .. }
        | Command::Pull => (&[], &[]),
        Command::ClientSave | Command::LabelSave | Command::JobSave => (&[], &[TableId::Domain]),
        Command::GroupSave => (&[], &[TableId::Group]),
        Command::ProtectSave => (&[], &[TableId::Protect]),
        Command::Add { .. } => (&[TableId::Change, TableId::Rev], &[TableId::Working]),
        Command::Edit { .. } | Command::Delete { .. } => (
            &[TableId::Have, TableId::Change, TableId::Rev],
            &[TableId::Working],
        ),
        Command::Move { .. } => (
            &[TableId::Change, TableId::Rev],
            &[TableId::Resolve, TableId::Working],
        ),
        Command::Revert { .. } => (&[TableId::Have], &[TableId::Resolve, TableId::Working]),
        Command::Reopen { .. } => (&[TableId::Change], &[TableId::Working]),
        Command::Lock { .. } | Command::Unlock { .. } => (&[], &[TableId::Working]),
        Command::Opened { .. } => (&[TableId::Working], &[]),
        Command::ChangeSave => (&[], &[TableId::Counter, TableId::Working, TableId::Change]),
        Command::ChangeShow { .. } => (&[TableId::Working, TableId::Change], &[]),
        Command::ChangeDelete { .. } => (&[TableId::Working], &[TableId::Change]),
        Command::Changes { .. } | Command::Files { .. } => (
            &[TableId::Have, TableId::Label, TableId::Change, TableId::Rev],
            &[],
        ),
        Command::SubmitChange { .. } | Command::SubmitDefault { .. } => {
            (
                &[],
                &[
                    TableId::Counter,
                    TableId::Domain,
                    TableId::Have,
                    TableId::Integed,
                    TableId::Resolve,
                    TableId::Working,
                    TableId::Change,
                    TableId::Rev,
                ],
            )
        }
        Command::Sync { .. } => (
            &[
                TableId::Label,
                TableId::Working,
                TableId::Change,
                TableId::Rev,
            ],
            &[TableId::Have, TableId::Resolve],
        ),
        Command::Have { .. } => (&[TableId::Have], &[]),
        Command::Tag { .. } => (
            &[TableId::Have, TableId::Change, TableId::Rev],
            &[TableId::Domain, TableId::Label],
        ),
        Command::LabelSync { .. } => (
            &[TableId::Have, TableId::Change, TableId::Rev],
            &[TableId::Label],
        ),
        Command::Integrate { .. } => (
            &[
                TableId::Label,
                TableId::Integed,
                TableId::Change,
                TableId::Rev,
            ],
            &[TableId::Have, TableId::Resolve, TableId::Working],
        ),
        Command::Resolve { .. } => (
            &[TableId::Rev],
            &[TableId::Have, TableId::Resolve, TableId::Working],
        ),
        Command::Integrated { .. } => (&[TableId::Integed, TableId::Rev], &[]),
        Command::FileLog { .. } => (
            &[
                TableId::Have,
                TableId::Label,
                TableId::Integed,
                TableId::Change,
                TableId::Rev,
            ],
            &[],
        ),
        Command::Print { .. } => (
            &[TableId::Have, TableId::Label, TableId::Change, TableId::Rev],
            &[],
        ),
        Command::Describe { .. } => (&[TableId::Change, TableId::Rev], &[]),
        Command::Dirs { .. } => (&[TableId::Rev], &[]),
        Command::FileStat { .. } => (
            &[
                TableId::Have,
                TableId::Label,
                TableId::Working,
                TableId::Change,
                TableId::Rev,
            ],
            &[],
        ),
        Command::Shelve { .. } => (
            &[TableId::Working, TableId::Change, TableId::Rev],
            &[TableId::Domain],
        ),
        Command::ShelveDelete { .. } => (&[TableId::Change], &[TableId::Domain]),
        Command::Unshelve { .. } => (&[TableId::Change, TableId::Rev], &[TableId::Working]),
        Command::DescribeShelved { .. } => (&[TableId::Change], &[]),
        Command::Fix { .. } | Command::FixDelete { .. } => (&[TableId::Change], &[TableId::Domain]),
        Command::Checkpoint => (
            &[
                TableId::Have,
                TableId::Label,
                TableId::Integed,
                TableId::Resolve,
                TableId::Working,
                TableId::Change,
                TableId::Rev,
            ],
            &[TableId::Counter],
        ),
    }
}

/// Whether a command reads contents of the archive.
fn reads_archive(command: &Command) -> bool
    ensures { result ≡ reads_archive command.now }
{
    matches!(command, Command::Print { .. })
}

/// Whether a command stores contents there.
fn writes_archive(command: &Command) -> bool
    ensures { result ≡ writes_archive command.now }
{
    matches!(
        command,
        Command::SubmitChange { .. } | Command::SubmitDefault { .. }
    )
}

impl Needs {
    /// Nothing.
    fn none() -> Needs
        ensures { AreNone result }
    {
        Needs {
            reads: TableSet::none(),
            writes: TableSet::none(),
            reads_archive: false,
            writes_archive: false,
        }
    }

    /// Whether a lock is one of the set: that of a table or of the archive.
    pub fn takes(&self, lock: LockId) -> bool
        ensures { result ≡ takes self.now lock }
    {
        match lock {
            LockId::Table(table) => self.reads.has(table) || self.writes.has(table),
            LockId::Archive => self.reads_archive || self.writes_archive,
            LockId::Journal => false,
        }
    }

    /// Whether what a lock of the set guards is written.
    pub fn writes_behind(&self, lock: LockId) -> bool
        ensures { result ≡ writes_behind self.now lock }
    {
        match lock {
            LockId::Table(table) => self.writes.has(table),
            LockId::Archive => self.writes_archive,
            LockId::Journal => false,
        }
    }
}

/// What a command reads and writes.
pub fn tables_of(command: &Command) -> Needs
    ensures { AreOf command.now result }
{
    let (read, written) = own_tables(command);
    Needs {
        reads: TableSet::none()
            .with_all(&[TableId::Group, TableId::Protect, TableId::Domain])
            .with_all(read),
        writes: TableSet::none().with_all(written),
        reads_archive: reads_archive(command),
        writes_archive: writes_archive(command),
    }
}

/// What a request needs: what its command does, and nothing where its words are no command.
pub fn request_needs(request: &Request) -> Needs
    ensures { AreOfWords request.now.command result }
{
    match &request.command {
        Ok(command) => tables_of(command),
        Err(_) => Needs::none(),
    }
}
