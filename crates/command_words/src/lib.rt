//! The command that the words of a line spell.
//!
//! A line is `p4`, a command's word, options and arguments. The table in `table.rt` has the forms of every command; a
//! form's options choose it, and its arguments are read from the left. The first word from the left that has a fault
//! gives the answer (Command-Line Reference, "Commands").
#![tactic(auto, using(depot_path::proofs::Answers::right, depot_path::proofs::Answers::wanting, depot_path::proofs::Answers::after, depot_path::proofs::Answers::fails))]

mod arguments;
mod choice;
mod ends;
mod fields;
mod file_forms;
mod laws;
mod options;
mod table;
mod values;
mod word_forms;

ghost use Rattle.std.specs.Prelude.{[], Err};
ghost use Rattle.depot_path.specs.Answers.{Answers};
ghost use Rattle.command_words.specs.Options.{seen, invocation_of};
ghost use Rattle.command_words.specs.Reading as spec;

use crate::choice::form_of;
use crate::file_forms::file_command;
use crate::options::{Invocation, invocation_of};
use crate::table::{Form, has_command};
use crate::values::{bad_usage, text};
use crate::word_forms::{bare_command, word_command};
use depot_model::{Command, Line, WordFault};
use depot_path::Text;
pub use laws::words_spell_well_formed_commands;
use std::alloc::Global;

/// The command of a form with these options and arguments.
fn form_command(alloc: Global, form: Form, words: &Invocation) -> Result<Command, WordFault>
    ensures { Answers WordFault.Memory result (spec.form_command form (seen words.now)) }
{
    match form {
        Form::Bare(form) => bare_command(alloc, form, words),
        Form::Files(form) => file_command(alloc, form, words),
        Form::Words(form) => word_command(alloc, form, words),
    }
}

/// Reads the options and the arguments of a command of the table.
fn known_command(
    alloc: Global,
    command: &[u8],
    rest: &[Text],
    has_input: bool,
) -> Result<Command, WordFault>
    ensures { Answers WordFault.Memory result (spec.known_command command.now rest.now has_input) }
{
    let words = invocation_of(alloc, command, rest)?;
    let form = form_of(alloc, command, &words.options, has_input)?;
    form_command(alloc, form, &words)
}

/// Refuses a word that is no command.
fn unknown(alloc: Global, word: &[u8]) -> Result<Command, WordFault>
    ensures { Answers WordFault.Memory result (Err (WordFault.UnknownCommand word.now)) }
{
    Err(WordFault::UnknownCommand(text(alloc, word)?))
}

/// Reads the words behind `p4`.
fn command_of_words(alloc: Global, words: &[Text], has_input: bool) -> Result<Command, WordFault>
    ensures { Answers WordFault.Memory result (spec.command_of_words words.now has_input) }
{
    match words {
        [] => bad_usage(alloc, &[]),
        [command, rest @ ..] => {
            if has_command(command.as_bytes()) {
                known_command(alloc, command.as_bytes(), rest, has_input)
            } else {
                unknown(alloc, command.as_bytes())
            }
        }
    }
}

/// Reads the words of a line, from `p4` on.
fn command_of_line(alloc: Global, words: &[Text], has_input: bool) -> Result<Command, WordFault>
    ensures { Answers WordFault.Memory result (spec.command_of_line words.now has_input) }
{
    match words {
        [] => bad_usage(alloc, &[]),
        [program, rest @ ..] => {
            if program.as_bytes() == b"p4".as_slice() {
                command_of_words(alloc, rest, has_input)
            } else {
                unknown(alloc, program.as_bytes())
            }
        }
    }
}

/// Reads the command that a line spells; `has_input` says whether an input block stands before it. Otherwise it answers
/// why the words are none: `UnknownCommand` for a first word other than `p4` or a command that isn't in the table,
/// `BadPath` and `BadRevision` for an argument, which is given as it stands in the line, `BadNumber` for a number, and
/// `BadUsage` with the command's word (empty for a line without one) for everything else. Of several faults it answers
/// that of the first word from the left; an option that is wanting and an input block that the form doesn't take, or
/// that is wanting, count behind the options and before the arguments.
pub fn read_command(alloc: Global, line: &Line, has_input: bool) -> Result<Command, WordFault>
    ensures { Answers WordFault.Memory result (spec.command_of line.now has_input) }
{
    match line {
        Line::Words(words) => command_of_line(alloc, words.as_slice(), has_input),
        Line::Bad => bad_usage(alloc, &[]),
    }
}
