//! The options of a command, and the arguments behind them.
#![tactic(auto, using(depot_path::proofs::Answers::right, depot_path::proofs::Answers::wanting, depot_path::proofs::Answers::after, depot_path::proofs::Answers::fails, depot_path::proofs::Answers::seen))]

ghost use Rattle.std.specs.Prelude.{◌≡◌, option_map};
ghost use Rattle.depot_path.specs.Answers.{Answers, on_ok};
ghost use Rattle.command_words.specs.Options as spec;

use crate::table::{ValueKind, option_kind};
use crate::values::bad_usage;
use depot_model::WordFault;
use depot_path::Text;
use std::alloc::Global;

/// An option as it was given.
#[derive(Clone, Copy)]
pub struct Given<'a> {
    /// The option, as `-c`.
    pub option: &'a [u8],
    /// Its value, which is empty where it has none.
    pub value: &'a [u8],
}

/// A command as it was given.
#[derive(Drop)]
pub struct Invocation<'a> {
    /// The command's word.
    pub command: &'a [u8],
    /// Its options, in the order in which they were given.
    pub options: Vec<Given<'a>>,
    /// The words behind them.
    pub arguments: &'a [Text],
}

/// The value of an option, where it was given.
pub fn value_of<'a>(mut options: &[Given<'a>], option: &[u8]) -> Option<&'a [u8]>
    ensures { option_map (λ value. value.now) result ≡ spec.value_of option.now (spec.seen_options options.entry.now) }
{
    while let [given, rest @ ..] = options {
        if given.option == option {
            return Some(given.value);
        }
        options = rest;
    }
    None
}

/// Whether an option was given.
pub fn was_given(options: &[Given], option: &[u8]) -> bool
    ensures { result ≡ spec.was_given option.now (spec.seen_options options.now) }
{
    value_of(options, option).is_some()
}

fn is_option(word: &[u8]) -> bool
    ensures { result ≡ spec.is_option word.now }
{
    word.starts_with(b"-")
}

/// The option with which words begin, and the words behind it.
fn first_option(words: &[Text]) -> Option<(&[u8], &[Text])>
    ensures { option_map (λ found. (found.0.now, found.1.now)) result ≡ spec.first_option words.now }
{
    match words {
        [] => None,
        [word, after @ ..] => {
            if is_option(word.as_bytes()) {
                Some((word.as_bytes(), after))
            } else {
                None
            }
        }
    }
}

/// What the value of the next option is.
fn next_kind(
    alloc: Global,
    command: &[u8],
    options: &[Given],
    option: &[u8],
) -> Result<ValueKind, WordFault>
    ensures { Answers WordFault.Memory result (spec.next_kind command.now (spec.seen_options options.now) option.now) }
{
    match option_kind(command, option) {
        Some(kind) => {
            if was_given(options, option) {
                bad_usage(alloc, command)
            } else {
                Ok(kind)
            }
        }
        None => bad_usage(alloc, command),
    }
}

/// An option, and the words behind it.
#[derive(Clone, Copy)]
struct Next<'a> {
    given: Given<'a>,
    rest: &'a [Text],
}

/// Reads the value of an option.
fn valued<'a>(
    alloc: Global,
    command: &[u8],
    option: &'a [u8],
    kind: ValueKind,
    words: &'a [Text],
) -> Result<Next<'a>, WordFault>
    ensures { Answers WordFault.Memory (on_ok spec.seen_next result) (spec.with_value command.now option.now kind words.now) }
{
    match words {
        [] => bad_usage(alloc, command),
        [word, rest @ ..] => {
            let value = kind.check(alloc, command, word.as_bytes())?;
            let given = Given { option, value };
            Ok(Next { given, rest })
        }
    }
}

/// Reads the next option and its value, where it has one.
fn next_option<'a>(
    alloc: Global,
    command: &[u8],
    options: &[Given],
    option: &'a [u8],
    words: &'a [Text],
) -> Result<Next<'a>, WordFault>
    ensures { Answers WordFault.Memory (on_ok spec.seen_next result) (spec.next_option command.now (spec.seen_options options.now) option.now words.now) }
{
    let kind = next_kind(alloc, command, options, option)?;
    if kind.takes_value() {
        valued(alloc, command, option, kind, words)
    } else {
        let given = Given { option, value: &[] };
        Ok(Next { given, rest: words })
    }
}

/// Parts words into the options of the command and the arguments behind them.
pub fn invocation_of<'a>(
    alloc: Global,
    command: &'a [u8],
    words: &'a [Text],
) -> Result<Invocation<'a>, WordFault>
    ensures { Answers WordFault.Memory (on_ok spec.seen result) (spec.invocation_of command.now words.now) }
{
    let mut options = Vec::new(alloc);
    let mut arguments = words;
    while let Some((option, after)) = first_option(arguments) {
        let next = next_option(alloc, command, &options, option, after)?;
        if options.push(next.given).is_err() {
            return Err(WordFault::Memory);
        }
        arguments = next.rest;
    }
    Ok(Invocation {
        command,
        options,
        arguments,
    })
}
