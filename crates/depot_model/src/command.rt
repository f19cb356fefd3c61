//! The commands that sessions give (Command-Line Reference, "Commands by Functional Area").

ghost use Rattle.std.specs.Prelude.{◌≡◌};
ghost use Rattle.depot_model.specs.About.{about};

use db_records::paths::{FileSpec, Name, Pattern, Sequence, Text};

/// A file spec as it was given.
#[derive(Drop)]
pub struct FileArgument {
    /// The text.
    pub text: Text,
    /// What it spells.
    pub spec: FileSpec,
}

/// A pattern as it was given.
#[derive(Drop)]
pub struct PatternArgument {
    /// The text.
    pub text: Text,
    /// What it spells.
    pub pattern: Pattern,
}

/// Which side a resolve takes.
#[derive(Clone, Copy, PartialEq, Eq)]
pub enum Taking {
    /// `-at`
    Theirs,
    /// `-ay`
    Yours,
}

/// What `labelsync` does with labelled files that it doesn't take.
#[derive(Clone, Copy, PartialEq, Eq)]
pub enum Labelling {
    /// It removes them.
    Exact,
    /// `-a`: it leaves them.
    Adding,
    /// `-d`: it removes the named ones.
    Removing,
}

/// A command, one variant for each form of words.
pub enum Command {
    /// `counter NAME`
    CounterShow {
        /// The name.
        name: Name,
    },
    /// `counter NAME VALUE`
    CounterSet {
        /// The name.
        name: Name,
        /// Its value from then on.
        value: u64,
    },
    /// `counter -d NAME`
    CounterDelete {
        /// The name.
        name: Name,
    },
    /// `counters`
    Counters,
    /// `client -o [NAME]`
    ClientShow {
        /// The name.
        name: Option<Name>,
    },
    /// `client -i`
    ClientSave,
    /// `label -o NAME`
    LabelShow {
        /// The name.
        name: Name,
    },
    /// `label -i`
    LabelSave,
    /// `group -o NAME`
    GroupShow {
        /// The name.
        name: Name,
    },
    /// `group -i`
    GroupSave,
    /// `protect -o`
    ProtectShow,
    /// `protect -i`
    ProtectSave,
    /// `where PATH...`
    Where {
        /// The files.
        paths: Sequence<FileArgument>,
    },
    /// `add [-c N] [-t TYPE] PATH...`
    Add {
        /// The change.
        change: Option<u32>,
        /// The file type.
        file_type: Option<Text>,
        /// The files.
        paths: Sequence<FileArgument>,
    },
    /// `edit [-c N] [-t TYPE] FILE...`
    Edit {
        /// The change.
        change: Option<u32>,
        /// The file type.
        file_type: Option<Text>,
        /// The files.
        files: Sequence<FileArgument>,
    },
    /// `delete [-c N] FILE...`
    Delete {
        /// The change.
        change: Option<u32>,
        /// The files.
        files: Sequence<FileArgument>,
    },
    /// `move [-c N] FROM TO`
    Move {
        /// The change.
        change: Option<u32>,
        /// From where.
        from: FileArgument,
        /// Where to.
        to: PatternArgument,
    },
    /// `revert [-c N] FILE...`
    Revert {
        /// The change.
        change: Option<u32>,
        /// The files.
        files: Sequence<FileArgument>,
    },
    /// `reopen [-c N] [-t TYPE] FILE...`
    Reopen {
        /// The change.
        change: Option<u32>,
        /// The file type.
        file_type: Option<Text>,
        /// The files.
        files: Sequence<FileArgument>,
    },
    /// `lock [-c N] FILE...`
    Lock {
        /// The change.
        change: Option<u32>,
        /// The files.
        files: Sequence<FileArgument>,
    },
    /// `unlock [-c N] FILE...`
    Unlock {
        /// The change.
        change: Option<u32>,
        /// The files.
        files: Sequence<FileArgument>,
    },
    /// `opened [-a] [FILE...]`
    Opened {
        /// Whether of every client.
        all: bool,
        /// The files.
        files: Sequence<FileArgument>,
    },
    /// `change -i`
    ChangeSave,
    /// `change -o [N]`
    ChangeShow {
        /// The change.
        change: Option<u32>,
    },
    /// `change -d N`
    ChangeDelete {
        /// The change.
        change: u32,
    },
    /// `changes [-m N] [-s STATUS] [-u USER] [-c CLIENT] [FILE...]`
    Changes {
        /// How many at most.
        most: Option<u32>,
        /// Of which status.
        status: Option<Text>,
        /// Of which user.
        user: Option<Name>,
        /// Of which client.
        client: Option<Name>,
        /// The files.
        files: Sequence<FileArgument>,
    },
    /// `submit -c N`
    SubmitChange {
        /// The change.
        change: u32,
    },
    /// `submit -d TEXT`
    SubmitDefault {
        /// The description.
        text: Text,
    },
    /// `sync [-f] [-n] [FILE...]`
    Sync {
        /// `-f`: whether files that the client has are fetched again.
        again: bool,
        /// `-n`: whether it only shows.
        shows: bool,
        /// The files.
        files: Sequence<FileArgument>,
    },
    /// `have [FILE...]`
    Have {
        /// The files.
        files: Sequence<FileArgument>,
    },
    /// `tag -l LABEL [-d] FILE...`
    Tag {
        /// The label.
        label: Name,
        /// `-d`: whether it removes.
        removes: bool,
        /// The files.
        files: Sequence<FileArgument>,
    },
    /// `labelsync -l LABEL [-a or -d] [FILE...]`
    LabelSync {
        /// The label.
        label: Name,
        /// What it does with other labelled files.
        labelling: Labelling,
        /// The files.
        files: Sequence<FileArgument>,
    },
    /// `labels`
    Labels,
    /// `integrate [-c N] FROM TO`
    Integrate {
        /// The change.
        change: Option<u32>,
        /// From where.
        from: FileArgument,
        /// Where to.
        to: PatternArgument,
    },
    /// `resolve -at or -ay [FILE...]`
    Resolve {
        /// The side that it takes.
        taking: Taking,
        /// The files.
        files: Sequence<FileArgument>,
    },
    /// `integrated FILE...`
    Integrated {
        /// The files.
        files: Sequence<FileArgument>,
    },
    /// `files [-e] FILE...`
    Files {
        /// `-e`: whether deleted files are left out.
        live: bool,
        /// The files.
        files: Sequence<FileArgument>,
    },
    /// `filelog FILE...`
    FileLog {
        /// The files.
        files: Sequence<FileArgument>,
    },
    /// `print FILE...`
    Print {
        /// The files.
        files: Sequence<FileArgument>,
    },
    /// `describe -s N`
    Describe {
        /// The change.
        change: u32,
    },
    /// `dirs PATTERN...`
    Dirs {
        /// The folders.
        patterns: Sequence<FileArgument>,
    },
    /// `fstat FILE...`
    FileStat {
        /// The files.
        files: Sequence<FileArgument>,
    },
    /// `shelve -c N [-f] [FILE...]`
    Shelve {
        /// The change.
        change: u32,
        /// `-f`: whether shelved files are replaced.
        replaces: bool,
        /// The files.
        files: Sequence<FileArgument>,
    },
    /// `shelve -d -c N [FILE...]`
    ShelveDelete {
        /// The change.
        change: u32,
        /// The files.
        files: Sequence<FileArgument>,
    },
    /// `unshelve -s N [-c M] [FILE...]`
    Unshelve {
        /// The change that is shelved.
        shelved: u32,
        /// The change.
        change: Option<u32>,
        /// The files.
        files: Sequence<FileArgument>,
    },
    /// `describe -S N`
    DescribeShelved {
        /// The change.
        change: u32,
    },
    /// `job -o [JOB]`
    JobShow {
        /// The job.
        job: Option<Text>,
    },
    /// `job -i`
    JobSave,
    /// `jobs`
    Jobs,
    /// `fix -c N JOB...`
    Fix {
        /// The change.
        change: u32,
        /// The jobs.
        jobs: Sequence<Text>,
    },
    /// `fix -d -c N JOB...`
    FixDelete {
        /// The change.
        change: u32,
        /// The jobs.
        jobs: Sequence<Text>,
    },
    /// `fixes [-c N] [-j JOB]`
    Fixes {
        /// The change.
        change: Option<u32>,
        /// The job.
        job: Option<Text>,
    },
    /// `admin checkpoint`
    Checkpoint,
    /// `pull`
    Pull,
}

impl Drop for Command {
    fn drop(self) {
        match self {
            Command::CounterShow { name: _ } => {}
            Command::CounterSet { name: _, value: _ } => {}
            Command::CounterDelete { name: _ } => {}
            Command::Counters => {}
            Command::ClientShow { name: _ } => {}
            Command::ClientSave => {}
            Command::LabelShow { name: _ } => {}
            Command::LabelSave => {}
            Command::GroupShow { name: _ } => {}
            Command::GroupSave => {}
            Command::ProtectShow => {}
            Command::ProtectSave => {}
            Command::Where { paths: _ } => {}
            Command::Add {
                change: _,
                file_type: _,
                paths: _,
            } => {}
            Command::Edit {
                change: _,
                file_type: _,
                files: _,
            } => {}
            Command::Delete {
                change: _,
                files: _,
            } => {}
            Command::Move {
                change: _,
                from: _,
                to: _,
            } => {}
            Command::Revert {
                change: _,
                files: _,
            } => {}
            Command::Reopen {
                change: _,
                file_type: _,
                files: _,
            } => {}
            Command::Lock {
                change: _,
                files: _,
            } => {}
            Command::Unlock {
                change: _,
                files: _,
            } => {}
            Command::Opened { all: _, files: _ } => {}
            Command::ChangeSave => {}
            Command::ChangeShow { change: _ } => {}
            Command::ChangeDelete { change: _ } => {}
            Command::Changes {
                most: _,
                status: _,
                user: _,
                client: _,
                files: _,
            } => {}
            Command::SubmitChange { change: _ } => {}
            Command::SubmitDefault { text: _ } => {}
            Command::Sync {
                again: _,
                shows: _,
                files: _,
            } => {}
            Command::Have { files: _ } => {}
            Command::Tag {
                label: _,
                removes: _,
                files: _,
            } => {}
            Command::LabelSync {
                label: _,
                labelling: _,
                files: _,
            } => {}
            Command::Labels => {}
            Command::Integrate {
                change: _,
                from: _,
                to: _,
            } => {}
            Command::Resolve {
                taking: _,
                files: _,
            } => {}
            Command::Integrated { files: _ } => {}
            Command::Files { live: _, files: _ } => {}
            Command::FileLog { files: _ } => {}
            Command::Print { files: _ } => {}
            Command::Describe { change: _ } => {}
            Command::Dirs { patterns: _ } => {}
            Command::FileStat { files: _ } => {}
            Command::Shelve {
                change: _,
                replaces: _,
                files: _,
            } => {}
            Command::ShelveDelete {
                change: _,
                files: _,
            } => {}
            Command::Unshelve {
                shelved: _,
                change: _,
                files: _,
            } => {}
            Command::DescribeShelved { change: _ } => {}
            Command::JobShow { job: _ } => {}
            Command::JobSave => {}
            Command::Jobs => {}
            Command::Fix { change: _, jobs: _ } => {}
            Command::FixDelete { change: _, jobs: _ } => {}
            Command::Fixes { change: _, job: _ } => {}
            Command::Checkpoint => {}
            Command::Pull => {}
        }
    }
}

impl Command {
    /// The word that names the command.
    pub fn word(&self) -> &'static str
        ensures { result.now ≡ (about self.now).word }
    {
        match self {
            Command::CounterShow { .. }
            | Command::CounterSet { .. }
            | Command::CounterDelete { .. } => "counter",
            Command::Counters => "counters",
            Command::ClientShow { .. } | Command::ClientSave => "client",
            Command::LabelShow { .. } | Command::LabelSave => "label",
            Command::GroupShow { .. } | Command::GroupSave => "group",
            Command::ProtectShow | Command::ProtectSave => "protect",
            Command::Where { .. } => "where",
            Command::Add { .. } => "add",
            Command::Edit { .. } => "edit",
            Command::Delete { .. } => "delete",
            Command::Move { .. } => "move",
            Command::Revert { .. } => "revert",
            Command::Reopen { .. } => "reopen",
            Command::Lock { .. } => "lock",
            Command::Unlock { .. } => "unlock",
            Command::Opened { .. } => "opened",
            Command::ChangeSave | Command::ChangeShow { .. } | Command::ChangeDelete { .. } =>
                "change",
            Command::Changes { .. } => "changes",
            Command::SubmitChange { .. } | Command::SubmitDefault { .. } => "submit",
            Command::Sync { .. } => "sync",
            Command::Have { .. } => "have",
            Command::Tag { .. } => "tag",
            Command::LabelSync { .. } => "labelsync",
            Command::Labels => "labels",
            Command::Integrate { .. } => "integrate",
            Command::Resolve { .. } => "resolve",
            Command::Integrated { .. } => "integrated",
            Command::Files { .. } => "files",
            Command::FileLog { .. } => "filelog",
            Command::Print { .. } => "print",
            Command::Describe { .. } | Command::DescribeShelved { .. } => "describe",
            Command::Dirs { .. } => "dirs",
            Command::FileStat { .. } => "fstat",
            Command::Shelve { .. } | Command::ShelveDelete { .. } => "shelve",
            Command::Unshelve { .. } => "unshelve",
            Command::JobShow { .. } | Command::JobSave => "job",
            Command::Jobs => "jobs",
            Command::Fix { .. } | Command::FixDelete { .. } => "fix",
            Command::Fixes { .. } => "fixes",
            Command::Checkpoint => "admin",
            Command::Pull => "pull",
        }
    }
}
