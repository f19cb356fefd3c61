//! What is known of each form of command: its family, the right that it needs, whether it needs a client, and its
//! arguments.

ghost use Rattle.std.specs.Prelude.{◌≡◌};
ghost use Rattle.depot_rows.specs.depot_model.About.{about};
ghost use Rattle.command_core.specs.Families.{is_change as is_change_in, is_history as is_history_in, is_job as is_job_in, is_opening as is_opening_in, is_server as is_server_in, is_spec as is_spec_in, is_submit as is_submit_in, is_syncing as is_syncing_in};

use depot_rows::model::{Command, FileArgument, PatternArgument};
use depot_rows::protections::Level;
use std::slice;

/// Whether a command is one of counters or forms, changes that are saved or deleted among them.
pub(crate) fn is_spec(command: &Command) -> bool
    ensures { result ≡ is_spec_in command.now }
{
    matches!(
        command,
        Command::CounterShow { .. }
            | Command::CounterSet { .. }
            | Command::CounterDelete { .. }
            | Command::Counters
            | Command::ClientShow { .. }
            | Command::ClientSave
            | Command::LabelShow { .. }
            | Command::LabelSave
            | Command::Labels
            | Command::GroupShow { .. }
            | Command::GroupSave
            | Command::ProtectShow
            | Command::ProtectSave
            | Command::ChangeSave
            | Command::ChangeDelete { .. }
    )
}

/// Whether a command is one of opened files.
pub(crate) fn is_opening(command: &Command) -> bool
    ensures { result ≡ is_opening_in command.now }
{
    matches!(
        command,
        Command::Add { .. }
            | Command::Edit { .. }
            | Command::Delete { .. }
            | Command::Revert { .. }
            | Command::Reopen { .. }
            | Command::Lock { .. }
            | Command::Unlock { .. }
            | Command::Opened { .. }
            | Command::Move { .. }
    )
}

/// Whether a command shows changes.
pub(crate) fn is_change(command: &Command) -> bool
    ensures { result ≡ is_change_in command.now }
{
    matches!(
        command,
        Command::ChangeShow { .. } | Command::Changes { .. } | Command::Describe { .. }
    )
}

/// Whether a command is one of have lists, labels or integration.
pub(crate) fn is_syncing(command: &Command) -> bool
    ensures { result ≡ is_syncing_in command.now }
{
    matches!(
        command,
        Command::Where { .. }
            | Command::Sync { .. }
            | Command::Have { .. }
            | Command::Tag { .. }
            | Command::LabelSync { .. }
            | Command::Integrate { .. }
            | Command::Resolve { .. }
    )
}

/// Whether a command shows submitted files.
pub(crate) fn is_history(command: &Command) -> bool
    ensures { result ≡ is_history_in command.now }
{
    matches!(
        command,
        Command::Files { .. }
            | Command::FileLog { .. }
            | Command::Print { .. }
            | Command::Dirs { .. }
            | Command::FileStat { .. }
            | Command::Integrated { .. }
    )
}

/// Whether a command is one of the server itself.
pub(crate) fn is_server(command: &Command) -> bool
    ensures { result ≡ is_server_in command.now }
{
    matches!(command, Command::Checkpoint | Command::Pull)
}

/// Whether a command is one of jobs or fixes.
pub(crate) fn is_job(command: &Command) -> bool
    ensures { result ≡ is_job_in command.now }
{
    matches!(
        command,
        Command::JobShow { .. }
            | Command::JobSave
            | Command::Jobs
            | Command::Fix { .. }
            | Command::FixDelete { .. }
            | Command::Fixes { .. }
    )
}

/// Whether a command submits.
pub(crate) fn is_submit(command: &Command) -> bool
    ensures { result ≡ is_submit_in command.now }
{
    matches!(
        command,
        Command::SubmitChange { .. } | Command::SubmitDefault { .. }
    )
}

/// The right that a command needs somewhere.
pub(crate) fn need_of(command: &Command) -> Level
    ensures { result.0 ≡ (about command.now).need }
{
    match command {
        Command::GroupSave | Command::ProtectShow | Command::ProtectSave | Command::Checkpoint =>
            Level(6),
        Command::CounterSet { .. }
        | Command::CounterDelete { .. }
        | Command::Lock { .. }
        | Command::Unlock { .. }
        | Command::SubmitChange { .. }
        | Command::SubmitDefault { .. } => Level(4),
        Command::LabelSave
        | Command::Add { .. }
        | Command::Edit { .. }
        | Command::Delete { .. }
        | Command::Move { .. }
        | Command::Revert { .. }
        | Command::Reopen { .. }
        | Command::ChangeSave
        | Command::ChangeDelete { .. }
        | Command::Tag { .. }
        | Command::LabelSync { .. }
        | Command::Integrate { .. }
        | Command::Resolve { .. }
        | Command::Shelve { .. }
        | Command::ShelveDelete { .. }
        | Command::Unshelve { .. }
        | Command::JobSave
        | Command::Fix { .. }
        | Command::FixDelete { .. } => Level(3),
        Command::Sync { .. } | Command::Print { .. } => Level(2),
        Command::CounterShow { .. }
        | Command::Counters
        | Command::ClientShow { .. }
        | Command::ClientSave
        | Command::LabelShow { .. }
        | Command::GroupShow { .. }
        | Command::Where { .. }
        | Command::Opened { .. }
        | Command::ChangeShow { .. }
        | Command::Changes { .. }
        | Command::Have { .. }
        | Command::Labels
        | Command::Integrated { .. }
        | Command::Files { .. }
        | Command::FileLog { .. }
        | Command::Describe { .. }
        | Command::Dirs { .. }
        | Command::FileStat { .. }
        | Command::DescribeShelved { .. }
        | Command::JobShow { .. }
        | Command::Jobs
        | Command::Fixes { .. }
        | Command::Pull => Level(1),
    }
}

/// Whether a command needs the caller's client.
pub(crate) fn needs_client(command: &Command) -> bool
    ensures { result ≡ (about command.now).needs_client }
{
    matches!(
        command,
        Command::Where { .. }
            | Command::Add { .. }
            | Command::Edit { .. }
            | Command::Delete { .. }
            | Command::Move { .. }
            | Command::Revert { .. }
            | Command::Reopen { .. }
            | Command::Lock { .. }
            | Command::Unlock { .. }
            | Command::Opened { .. }
            | Command::ChangeSave
            | Command::ChangeShow { .. }
            | Command::ChangeDelete { .. }
            | Command::SubmitChange { .. }
            | Command::SubmitDefault { .. }
            | Command::Sync { .. }
            | Command::Have { .. }
            | Command::LabelSync { .. }
            | Command::Integrate { .. }
            | Command::Resolve { .. }
            | Command::Shelve { .. }
            | Command::ShelveDelete { .. }
            | Command::Unshelve { .. }
    )
}

/// The file arguments of a command.
pub(crate) fn files_of(command: &Command) -> &[FileArgument]
    ensures { result.now ≡ (about command.now).files }
{
    match command {
        Command::Where { paths: files }
        | Command::Add { paths: files, .. }
        | Command::Edit { files, .. }
        | Command::Delete { files, .. }
        | Command::Revert { files, .. }
        | Command::Reopen { files, .. }
        | Command::Lock { files, .. }
        | Command::Unlock { files, .. }
        | Command::Opened { files, .. }
        | Command::Changes { files, .. }
        | Command::Sync { files, .. }
        | Command::Have { files }
        | Command::Tag { files, .. }
        | Command::LabelSync { files, .. }
        | Command::Resolve { files, .. }
        | Command::Integrated { files }
        | Command::Files { files, .. }
        | Command::FileLog { files }
        | Command::Print { files }
        | Command::Dirs { patterns: files }
        | Command::FileStat { files }
        | Command::Shelve { files, .. }
        | Command::ShelveDelete { files, .. }
        | Command::Unshelve { files, .. } => files.as_slice(),
        Command::Move { from, .. } | Command::Integrate { from, .. } => slice::from_ref(from),
        _ => &[],
    }
}

/// The pattern arguments of a command.
pub(crate) fn patterns_of(command: &Command) -> &[PatternArgument]
    ensures { result.now ≡ (about command.now).patterns }
{
    match command {
        Command::Move { to, .. } | Command::Integrate { to, .. } => slice::from_ref(to),
        _ => &[],
    }
}
