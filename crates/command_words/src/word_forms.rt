//! The commands whose arguments aren't files.
#![tactic(auto, using(depot_path::proofs::Answers::right, depot_path::proofs::Answers::wanting, depot_path::proofs::Answers::after, depot_path::proofs::Answers::fails))]

ghost use Rattle.std.specs.Prelude.{◌≡◌};
ghost use Rattle.depot_path.specs.Answers.{Answers};
ghost use Rattle.command_words.specs.Options.{seen};
ghost use Rattle.command_words.specs.Arguments.{exactly_one};
ghost use Rattle.command_words.specs.WordForms as spec;

use crate::arguments::{
    name_or_none, no_word, number_or_none, one_name, one_value, some_words, wanted, word_or_none,
};
use crate::options::Invocation;
use crate::table::{BareForm, WordForm};
use crate::values::{bad_usage, name};
use depot_model::{Command, WordFault};
use depot_path::{Name, Text};
use std::alloc::Global;

fn bare_made(form: BareForm) -> Command
    ensures { result ≡ spec.bare_made form }
{
    match form {
        BareForm::Counters => Command::Counters,
        BareForm::ClientSave => Command::ClientSave,
        BareForm::LabelSave => Command::LabelSave,
        BareForm::GroupSave => Command::GroupSave,
        BareForm::ProtectShow => Command::ProtectShow,
        BareForm::ProtectSave => Command::ProtectSave,
        BareForm::ChangeSave => Command::ChangeSave,
        BareForm::Labels => Command::Labels,
        BareForm::JobSave => Command::JobSave,
        BareForm::Jobs => Command::Jobs,
        BareForm::Pull => Command::Pull,
    }
}

/// The command of a form of a word and options alone.
pub fn bare_command(alloc: Global, form: BareForm, words: &Invocation) -> Result<Command, WordFault>
    ensures { Answers WordFault.Memory result (spec.bare_command form (seen words.now)) }
{
    words.nothing(alloc)?;
    Ok(bare_made(form))
}

/// Whether the program keeps the counter, so that no command sets it.
fn is_kept(word: &[u8]) -> bool
    ensures { result ≡ spec.is_kept word.now }
{
    word == b"change".as_slice() || word == b"journal".as_slice()
}

/// Reads the name of a counter that commands may set.
fn free_name(alloc: Global, command: &[u8], word: &[u8]) -> Result<Name, WordFault>
    ensures { Answers WordFault.Memory result (spec.free_name command.now word.now) }
{
    if is_kept(word) {
        bad_usage(alloc, command)
    } else {
        name(alloc, command, word)
    }
}

/// `counter NAME`
fn counter_show(alloc: Global, command: &[u8], word: &[u8]) -> Result<Command, WordFault>
    ensures { Answers WordFault.Memory result (spec.counter_show command.now word.now) }
{
    let name = name(alloc, command, word)?;
    Ok(Command::CounterShow { name })
}

/// `counter NAME VALUE`
fn counter_set(
    alloc: Global,
    command: &[u8],
    word: &[u8],
    values: &[Text],
) -> Result<Command, WordFault>
    ensures { Answers WordFault.Memory result (spec.counter_set command.now word.now values.now) }
{
    let name = free_name(alloc, command, word)?;
    let value = one_value(alloc, command, values)?;
    Ok(Command::CounterSet { name, value })
}

/// The command of a counter's name and what stands behind it.
fn counter_of(
    alloc: Global,
    command: &[u8],
    word: &[u8],
    values: &[Text],
) -> Result<Command, WordFault>
    ensures { Answers WordFault.Memory result (spec.counter_of command.now word.now values.now) }
{
    match values {
        [] => counter_show(alloc, command, word),
        [_, ..] => counter_set(alloc, command, word, values),
    }
}

/// `counter NAME` and `counter NAME VALUE`
fn counter(alloc: Global, words: &Invocation) -> Result<Command, WordFault>
    ensures { Answers WordFault.Memory result (spec.counter (seen words.now)) }
{
    match words.arguments {
        [] => bad_usage(alloc, words.command),
        [word, rest @ ..] => counter_of(alloc, words.command, word.as_bytes(), rest),
    }
}

/// Reads exactly one name of a counter that commands may set.
fn one_free_name(alloc: Global, command: &[u8], words: &[Text]) -> Result<Name, WordFault>
    ensures { Answers WordFault.Memory result (exactly_one command.now (spec.free_name command.now) words.now) }
{
    match words {
        [] => bad_usage(alloc, command),
        [word, rest @ ..] => {
            let name = free_name(alloc, command, word.as_bytes())?;
            no_word(alloc, command, rest)?;
            Ok(name)
        }
    }
}

/// `counter -d NAME`
fn counter_delete(alloc: Global, words: &Invocation) -> Result<Command, WordFault>
    ensures { Answers WordFault.Memory result (spec.counter_delete (seen words.now)) }
{
    let name = one_free_name(alloc, words.command, words.arguments)?;
    Ok(Command::CounterDelete { name })
}

/// `client -o [NAME]`
fn client_show(alloc: Global, words: &Invocation) -> Result<Command, WordFault>
    ensures { Answers WordFault.Memory result (spec.client_show (seen words.now)) }
{
    let name = name_or_none(alloc, words.command, words.arguments)?;
    Ok(Command::ClientShow { name })
}

/// `label -o NAME`
fn label_show(alloc: Global, words: &Invocation) -> Result<Command, WordFault>
    ensures { Answers WordFault.Memory result (spec.label_show (seen words.now)) }
{
    let name = one_name(alloc, words.command, words.arguments)?;
    Ok(Command::LabelShow { name })
}

/// `group -o NAME`
fn group_show(alloc: Global, words: &Invocation) -> Result<Command, WordFault>
    ensures { Answers WordFault.Memory result (spec.group_show (seen words.now)) }
{
    let name = one_name(alloc, words.command, words.arguments)?;
    Ok(Command::GroupShow { name })
}

/// `change -o [N]`
fn change_show(alloc: Global, words: &Invocation) -> Result<Command, WordFault>
    ensures { Answers WordFault.Memory result (spec.change_show (seen words.now)) }
{
    let change = number_or_none(alloc, words.command, words.arguments)?;
    Ok(Command::ChangeShow { change })
}

/// `change -d N`
fn change_delete(alloc: Global, words: &Invocation) -> Result<Command, WordFault>
    ensures { Answers WordFault.Memory result (spec.change_delete (seen words.now)) }
{
    let given = words.number_option(alloc, b"-d")?;
    let change = wanted(alloc, words.command, given)?;
    words.nothing(alloc)?;
    Ok(Command::ChangeDelete { change })
}

/// `submit -c N`
fn submit_change(alloc: Global, words: &Invocation) -> Result<Command, WordFault>
    ensures { Answers WordFault.Memory result (spec.submit_change (seen words.now)) }
{
    let given = words.number_option(alloc, b"-c")?;
    let change = wanted(alloc, words.command, given)?;
    words.nothing(alloc)?;
    Ok(Command::SubmitChange { change })
}

/// `submit -d TEXT`
fn submit_default(alloc: Global, words: &Invocation) -> Result<Command, WordFault>
    ensures { Answers WordFault.Memory result (spec.submit_default (seen words.now)) }
{
    let given = words.text_option(alloc, b"-d")?;
    let text = wanted(alloc, words.command, given)?;
    words.nothing(alloc)?;
    Ok(Command::SubmitDefault { text })
}

/// `describe -s N`
fn describe(alloc: Global, words: &Invocation) -> Result<Command, WordFault>
    ensures { Answers WordFault.Memory result (spec.describe (seen words.now)) }
{
    let given = words.number_option(alloc, b"-s")?;
    let change = wanted(alloc, words.command, given)?;
    words.nothing(alloc)?;
    Ok(Command::Describe { change })
}

/// `describe -S N`
fn describe_shelved(alloc: Global, words: &Invocation) -> Result<Command, WordFault>
    ensures { Answers WordFault.Memory result (spec.describe_shelved (seen words.now)) }
{
    let given = words.number_option(alloc, b"-S")?;
    let change = wanted(alloc, words.command, given)?;
    words.nothing(alloc)?;
    Ok(Command::DescribeShelved { change })
}

/// `job -o [JOB]`
fn job_show(alloc: Global, words: &Invocation) -> Result<Command, WordFault>
    ensures { Answers WordFault.Memory result (spec.job_show (seen words.now)) }
{
    let job = word_or_none(alloc, words.command, words.arguments)?;
    Ok(Command::JobShow { job })
}

/// `fix -c N JOB...`
fn fix(alloc: Global, words: &Invocation) -> Result<Command, WordFault>
    ensures { Answers WordFault.Memory result (spec.fix (seen words.now)) }
{
    let given = words.number_option(alloc, b"-c")?;
    let change = wanted(alloc, words.command, given)?;
    let jobs = some_words(alloc, words.command, words.arguments)?;
    Ok(Command::Fix { change, jobs })
}

/// `fix -d -c N JOB...`
fn fix_delete(alloc: Global, words: &Invocation) -> Result<Command, WordFault>
    ensures { Answers WordFault.Memory result (spec.fix_delete (seen words.now)) }
{
    let given = words.number_option(alloc, b"-c")?;
    let change = wanted(alloc, words.command, given)?;
    let jobs = some_words(alloc, words.command, words.arguments)?;
    Ok(Command::FixDelete { change, jobs })
}

/// `fixes [-c N] [-j JOB]`
fn fixes(alloc: Global, words: &Invocation) -> Result<Command, WordFault>
    ensures { Answers WordFault.Memory result (spec.fixes (seen words.now)) }
{
    let change = words.number_option(alloc, b"-c")?;
    let job = words.text_option(alloc, b"-j")?;
    words.nothing(alloc)?;
    Ok(Command::Fixes { change, job })
}

/// Reads `checkpoint` and refuses further words.
fn checkpoint(
    alloc: Global,
    command: &[u8],
    word: &[u8],
    rest: &[Text],
) -> Result<Command, WordFault>
    ensures { Answers WordFault.Memory result (spec.checkpoint command.now word.now rest.now) }
{
    if word != b"checkpoint".as_slice() {
        return bad_usage(alloc, command);
    }
    no_word(alloc, command, rest)?;
    Ok(Command::Checkpoint)
}

/// `admin checkpoint`
fn admin(alloc: Global, words: &Invocation) -> Result<Command, WordFault>
    ensures { Answers WordFault.Memory result (spec.admin (seen words.now)) }
{
    match words.arguments {
        [] => bad_usage(alloc, words.command),
        [word, rest @ ..] => checkpoint(alloc, words.command, word.as_bytes(), rest),
    }
}

/// The command of a form whose arguments aren't files.
pub fn word_command(alloc: Global, form: WordForm, words: &Invocation) -> Result<Command, WordFault>
    ensures { Answers WordFault.Memory result (spec.word_command form (seen words.now)) }
{
    match form {
        WordForm::Counter => counter(alloc, words),
        WordForm::CounterDelete => counter_delete(alloc, words),
        WordForm::ClientShow => client_show(alloc, words),
        WordForm::LabelShow => label_show(alloc, words),
        WordForm::GroupShow => group_show(alloc, words),
        WordForm::ChangeShow => change_show(alloc, words),
        WordForm::ChangeDelete => change_delete(alloc, words),
        WordForm::SubmitChange => submit_change(alloc, words),
        WordForm::SubmitDefault => submit_default(alloc, words),
        WordForm::Describe => describe(alloc, words),
        WordForm::DescribeShelved => describe_shelved(alloc, words),
        WordForm::JobShow => job_show(alloc, words),
        WordForm::Fix => fix(alloc, words),
        WordForm::FixDelete => fix_delete(alloc, words),
        WordForm::Fixes => fixes(alloc, words),
        WordForm::Admin => admin(alloc, words),
    }
}
