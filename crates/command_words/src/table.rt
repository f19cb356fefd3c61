//! The table of commands.

ghost use Rattle.std.specs.Prelude.{◌≡◌};
ghost use Rattle.command_words.specs.Table.{seen_choices, seen_rows, seen_row, table, kind_in, kind_in_row, kind_of, is_command, takes_value};

use depot_model::{Labelling, Taking};

/// What the value of an option is.
#[derive(Clone, Copy)]
pub enum ValueKind {
    /// It has none.
    Flag,
    /// A number up to 2,147,483,647.
    Number,
    /// The number of a change, or `default`.
    Change,
    /// The name of a user, a client or a label.
    Name,
    /// The type of a file.
    FileType,
    /// Any word.
    Word,
}

impl ValueKind {
    /// Whether an option of this kind takes a value.
    pub fn takes_value(self) -> bool
        ensures { result ≡ takes_value self }
    {
        !matches!(self, ValueKind::Flag)
    }
}

/// A form of a command's word and options alone.
#[derive(Clone, Copy)]
pub enum BareForm {
    /// `counters`
    Counters,
    /// `client -i`
    ClientSave,
    /// `label -i`
    LabelSave,
    /// `group -i`
    GroupSave,
    /// `protect -o`
    ProtectShow,
    /// `protect -i`
    ProtectSave,
    /// `change -i`
    ChangeSave,
    /// `labels`
    Labels,
    /// `job -i`
    JobSave,
    /// `jobs`
    Jobs,
    /// `pull`
    Pull,
}

/// A form whose arguments are files.
#[derive(Clone, Copy)]
pub enum FileForm {
    /// `where PATH...`
    Where,
    /// `add [-c N] [-t TYPE] PATH...`
    Add,
    /// `edit [-c N] [-t TYPE] FILE...`
    Edit,
    /// `delete [-c N] FILE...`
    Delete,
    /// `move [-c N] FROM TO`
    Move,
    /// `revert [-c N] FILE...`
    Revert,
    /// `reopen [-c N] [-t TYPE] FILE...`
    Reopen,
    /// `lock [-c N] FILE...`
    Lock,
    /// `unlock [-c N] FILE...`
    Unlock,
    /// `opened [-a] [FILE...]`
    Opened,
    /// `changes [-m N] [-s STATUS] [-u USER] [-c CLIENT] [FILE...]`
    Changes,
    /// `sync [-f] [-n] [FILE...]`
    Sync,
    /// `have [FILE...]`
    Have,
    /// `tag -l LABEL [-d] FILE...`
    Tag,
    /// `labelsync -l LABEL [-a or -d] [FILE...]`
    LabelSync(Labelling),
    /// `integrate [-c N] FROM TO`
    Integrate,
    /// `resolve -at or -ay [FILE...]`
    Resolve(Taking),
    /// `integrated FILE...`
    Integrated,
    /// `files [-e] FILE...`
    Files,
    /// `filelog FILE...`
    FileLog,
    /// `print FILE...`
    Print,
    /// `dirs PATTERN...`
    Dirs,
    /// `fstat FILE...`
    FileStat,
    /// `shelve -c N [-f] [FILE...]`
    Shelve,
    /// `shelve -d -c N [FILE...]`
    ShelveDelete,
    /// `unshelve -s N [-c M] [FILE...]`
    Unshelve,
}

/// A form whose arguments are names, numbers or other words, or that has a value of an option alone.
#[derive(Clone, Copy)]
pub enum WordForm {
    /// `counter NAME` and `counter NAME VALUE`
    Counter,
    /// `counter -d NAME`
    CounterDelete,
    /// `client -o [NAME]`
    ClientShow,
    /// `label -o NAME`
    LabelShow,
    /// `group -o NAME`
    GroupShow,
    /// `change -o [N]`
    ChangeShow,
    /// `change -d N`
    ChangeDelete,
    /// `submit -c N`
    SubmitChange,
    /// `submit -d TEXT`
    SubmitDefault,
    /// `describe -s N`
    Describe,
    /// `describe -S N`
    DescribeShelved,
    /// `job -o [JOB]`
    JobShow,
    /// `fix -c N JOB...`
    Fix,
    /// `fix -d -c N JOB...`
    FixDelete,
    /// `fixes [-c N] [-j JOB]`
    Fixes,
    /// `admin checkpoint`
    Admin,
}

/// A form of words.
#[derive(Clone, Copy)]
pub enum Form {
    /// One of a command's word and options alone.
    Bare(BareForm),
    /// One whose arguments are files.
    Files(FileForm),
    /// One with other words.
    Words(WordForm),
}

/// An option, and what its value is.
pub type Choice = (&'static [u8], ValueKind);

/// A row of the table: the command's word, the form, the options that the form always has, those
/// that it may have, and whether an input block belongs to it.
pub type Row = (
    &'static [u8],
    Form,
    &'static [Choice],
    &'static [Choice],
    bool,
);

const SHOW: Choice = (b"-o", ValueKind::Flag);

const SAVE: Choice = (b"-i", ValueKind::Flag);

const DELETE: Choice = (b"-d", ValueKind::Flag);

const CHANGE: Choice = (b"-c", ValueKind::Number);

const CHANGE_OR_DEFAULT: Choice = (b"-c", ValueKind::Change);

const TYPE: Choice = (b"-t", ValueKind::FileType);

const LABEL: Choice = (b"-l", ValueKind::Name);

const ALL: Choice = (b"-a", ValueKind::Flag);

const FORCE: Choice = (b"-f", ValueKind::Flag);

/// The forms of every command.
static FORMS: [Row; 56] = [
    (b"counter", Form::Words(WordForm::Counter), &[], &[], false),
    (
        b"counter",
        Form::Words(WordForm::CounterDelete),
        &[DELETE],
        &[],
        false,
    ),
    (b"counters", Form::Bare(BareForm::Counters), &[], &[], false),
    (
        b"client",
        Form::Words(WordForm::ClientShow),
        &[SHOW],
        &[],
        false,
    ),
    (
        b"client",
        Form::Bare(BareForm::ClientSave),
        &[SAVE],
        &[],
        true,
    ),
    (
        b"label",
        Form::Words(WordForm::LabelShow),
        &[SHOW],
        &[],
        false,
    ),
    (
        b"label",
        Form::Bare(BareForm::LabelSave),
        &[SAVE],
        &[],
        true,
    ),
    (
        b"group",
        Form::Words(WordForm::GroupShow),
        &[SHOW],
        &[],
        false,
    ),
    (
        b"group",
        Form::Bare(BareForm::GroupSave),
        &[SAVE],
        &[],
        true,
    ),
    (
        b"protect",
        Form::Bare(BareForm::ProtectShow),
        &[SHOW],
        &[],
        false,
    ),
    (
        b"protect",
        Form::Bare(BareForm::ProtectSave),
        &[SAVE],
        &[],
        true,
    ),
    (b"where", Form::Files(FileForm::Where), &[], &[], false),
    (
        b"add",
        Form::Files(FileForm::Add),
        &[],
        &[CHANGE, TYPE],
        false,
    ),
    (
        b"edit",
        Form::Files(FileForm::Edit),
        &[],
        &[CHANGE, TYPE],
        false,
    ),
    (
        b"delete",
        Form::Files(FileForm::Delete),
        &[],
        &[CHANGE],
        false,
    ),
    (b"move", Form::Files(FileForm::Move), &[], &[CHANGE], false),
    (
        b"revert",
        Form::Files(FileForm::Revert),
        &[],
        &[CHANGE],
        false,
    ),
    (
        b"reopen",
        Form::Files(FileForm::Reopen),
        &[],
        &[CHANGE_OR_DEFAULT, TYPE],
        false,
    ),
    (b"lock", Form::Files(FileForm::Lock), &[], &[CHANGE], false),
    (
        b"unlock",
        Form::Files(FileForm::Unlock),
        &[],
        &[CHANGE],
        false,
    ),
    (b"opened", Form::Files(FileForm::Opened), &[], &[ALL], false),
    (
        b"change",
        Form::Bare(BareForm::ChangeSave),
        &[SAVE],
        &[],
        true,
    ),
    (
        b"change",
        Form::Words(WordForm::ChangeShow),
        &[SHOW],
        &[],
        false,
    ),
    (
        b"change",
        Form::Words(WordForm::ChangeDelete),
        &[(b"-d", ValueKind::Number)],
        &[],
        false,
    ),
    (
        b"changes",
        Form::Files(FileForm::Changes),
        &[],
        &[
            (b"-m", ValueKind::Number),
            (b"-s", ValueKind::Word),
            (b"-u", ValueKind::Name),
            (b"-c", ValueKind::Name),
        ],
        false,
    ),
    (
        b"submit",
        Form::Words(WordForm::SubmitChange),
        &[CHANGE],
        &[],
        false,
    ),
    (
        b"submit",
        Form::Words(WordForm::SubmitDefault),
        &[(b"-d", ValueKind::Word)],
        &[],
        false,
    ),
    (
        b"sync",
        Form::Files(FileForm::Sync),
        &[],
        &[FORCE, (b"-n", ValueKind::Flag)],
        false,
    ),
    (b"have", Form::Files(FileForm::Have), &[], &[], false),
    (
        b"tag",
        Form::Files(FileForm::Tag),
        &[LABEL],
        &[DELETE],
        false,
    ),
    (
        b"labelsync",
        Form::Files(FileForm::LabelSync(Labelling::Exact)),
        &[LABEL],
        &[],
        false,
    ),
    (
        b"labelsync",
        Form::Files(FileForm::LabelSync(Labelling::Adding)),
        &[LABEL, ALL],
        &[],
        false,
    ),
    (
        b"labelsync",
        Form::Files(FileForm::LabelSync(Labelling::Removing)),
        &[LABEL, DELETE],
        &[],
        false,
    ),
    (b"labels", Form::Bare(BareForm::Labels), &[], &[], false),
    (
        b"integrate",
        Form::Files(FileForm::Integrate),
        &[],
        &[CHANGE],
        false,
    ),
    (
        b"resolve",
        Form::Files(FileForm::Resolve(Taking::Theirs)),
        &[(b"-at", ValueKind::Flag)],
        &[],
        false,
    ),
    (
        b"resolve",
        Form::Files(FileForm::Resolve(Taking::Yours)),
        &[(b"-ay", ValueKind::Flag)],
        &[],
        false,
    ),
    (
        b"integrated",
        Form::Files(FileForm::Integrated),
        &[],
        &[],
        false,
    ),
    (
        b"files",
        Form::Files(FileForm::Files),
        &[],
        &[(b"-e", ValueKind::Flag)],
        false,
    ),
    (b"filelog", Form::Files(FileForm::FileLog), &[], &[], false),
    (b"print", Form::Files(FileForm::Print), &[], &[], false),
    (
        b"describe",
        Form::Words(WordForm::Describe),
        &[(b"-s", ValueKind::Number)],
        &[],
        false,
    ),
    (
        b"describe",
        Form::Words(WordForm::DescribeShelved),
        &[(b"-S", ValueKind::Number)],
        &[],
        false,
    ),
    (b"dirs", Form::Files(FileForm::Dirs), &[], &[], false),
    (b"fstat", Form::Files(FileForm::FileStat), &[], &[], false),
    (
        b"shelve",
        Form::Files(FileForm::Shelve),
        &[CHANGE],
        &[FORCE],
        false,
    ),
    (
        b"shelve",
        Form::Files(FileForm::ShelveDelete),
        &[DELETE, CHANGE],
        &[],
        false,
    ),
    (
        b"unshelve",
        Form::Files(FileForm::Unshelve),
        &[(b"-s", ValueKind::Number)],
        &[CHANGE],
        false,
    ),
    (b"job", Form::Words(WordForm::JobShow), &[SHOW], &[], false),
    (b"job", Form::Bare(BareForm::JobSave), &[SAVE], &[], true),
    (b"jobs", Form::Bare(BareForm::Jobs), &[], &[], false),
    (b"fix", Form::Words(WordForm::Fix), &[CHANGE], &[], false),
    (
        b"fix",
        Form::Words(WordForm::FixDelete),
        &[DELETE, CHANGE],
        &[],
        false,
    ),
    (
        b"fixes",
        Form::Words(WordForm::Fixes),
        &[],
        &[CHANGE, (b"-j", ValueKind::Word)],
        false,
    ),
    (b"admin", Form::Words(WordForm::Admin), &[], &[], false),
    (b"pull", Form::Bare(BareForm::Pull), &[], &[], false),
];

/// Whether a row is of this command.
fn is_command_among(mut rows: &[Row], command: &[u8]) -> bool
    ensures { result ≡ is_command (seen_rows rows.entry.now) command.now }
{
    while let [row, rest @ ..] = rows {
        if row.0 == command {
            return true;
        }
        rows = rest;
    }
    false
}

/// What the value of an option is, among these.
fn kind_among(mut choices: &[Choice], option: &[u8]) -> Option<ValueKind>
    ensures { result ≡ kind_in (seen_choices choices.entry.now) option.now }
{
    while let [choice, rest @ ..] = choices {
        if choice.0 == option {
            return Some(choice.1);
        }
        choices = rest;
    }
    None
}

/// What the value of a form's option is.
pub fn kind_in_form(row: &Row, option: &[u8]) -> Option<ValueKind>
    ensures { result ≡ kind_in_row (seen_row row.now) option.now }
{
    match kind_among(row.2, option) {
        Some(kind) => Some(kind),
        None => kind_among(row.3, option),
    }
}

/// What the value of a command's option is: that of the first form that has the option.
fn kind_in_rows(mut rows: &[Row], command: &[u8], option: &[u8]) -> Option<ValueKind>
    ensures { result ≡ kind_of (seen_rows rows.entry.now) command.now option.now }
{
    while let [row, rest @ ..] = rows {
        if row.0 == command
            && let Some(kind) = kind_in_form(row, option)
        {
            return Some(kind);
        }
        rows = rest;
    }
    None
}

/// The rows of every command.
pub fn forms() -> &'static [Row]
    ensures { seen_rows result.now ≡ table }
{
    &FORMS
}

/// Whether there is such a command.
pub fn has_command(command: &[u8]) -> bool
    ensures { result ≡ is_command table command.now }
{
    is_command_among(forms(), command)
}

/// What the value of a command's option is.
pub fn option_kind(command: &[u8], option: &[u8]) -> Option<ValueKind>
    ensures { result ≡ kind_of table command.now option.now }
{
    kind_in_rows(forms(), command, option)
}
