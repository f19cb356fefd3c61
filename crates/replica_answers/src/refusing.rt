//! The commands that a replica turns away.

ghost use Rattle.std.specs.Prelude.{◌≡◌};
ghost use Rattle.depot_runs.specs.Replica.{is_refused};

use depot_rows::model::Command;

/// Whether a command writes a table or shows a shelf.
pub(crate) fn is_turned_away(command: &Command) -> bool
    ensures { result ≡ is_refused command.now }
{
    match command {
        Command::CounterSet { .. }
        | Command::CounterDelete { .. }
        | Command::ClientSave
        | Command::LabelSave
        | Command::GroupSave
        | Command::ProtectSave
        | Command::Add { .. }
        | Command::Edit { .. }
        | Command::Delete { .. }
        | Command::Move { .. }
        | Command::Revert { .. }
        | Command::Reopen { .. }
        | Command::Lock { .. }
        | Command::Unlock { .. }
        | Command::ChangeSave
        | Command::ChangeDelete { .. }
        | Command::SubmitChange { .. }
        | Command::SubmitDefault { .. }
        | Command::Sync { .. }
        | Command::Tag { .. }
        | Command::LabelSync { .. }
        | Command::Integrate { .. }
        | Command::Resolve { .. }
        | Command::Shelve { .. }
        | Command::ShelveDelete { .. }
        | Command::Unshelve { .. }
        | Command::DescribeShelved { .. }
        | Command::JobSave
        | Command::Fix { .. }
        | Command::FixDelete { .. }
        | Command::Checkpoint => true,
        Command::CounterShow { .. }
        | Command::Counters
        | Command::ClientShow { .. }
        | Command::LabelShow { .. }
        | Command::Labels
        | Command::GroupShow { .. }
        | Command::ProtectShow
        | Command::Where { .. }
        | Command::Opened { .. }
        | Command::ChangeShow { .. }
        | Command::Changes { .. }
        | Command::Have { .. }
        | Command::Integrated { .. }
        | Command::Files { .. }
        | Command::FileLog { .. }
        | Command::Print { .. }
        | Command::Describe { .. }
        | Command::Dirs { .. }
        | Command::FileStat { .. }
        | Command::JobShow { .. }
        | Command::Jobs
        | Command::Fixes { .. }
        | Command::Pull => false,
    }
}
