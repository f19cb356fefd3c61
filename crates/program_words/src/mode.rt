//! The mode that the words ask.

ghost use Rattle.std.specs.Prelude.{◌≡◌, ◌≤◌, true, Some, None, IfOk, IfSome, IfNone, length, option_map};
ghost use Rattle.clap.specs.Walk.{rows_of};
ghost use Rattle.clap.specs.Matches.{found_of};
ghost use Rattle.program_words.specs.Words as spec;
ghost use Rattle.program_words.specs.Words.{words_of, asked, asks_alone, HasParties};
ghost use Rattle.program_words.specs.Words.{job_of, job_alone, job_by_names, job_with_names, job_of_mode};
ghost use Rattle.program_words.specs.Rows.{job_by_texts, job_in};

use crate::command::command;
use crate::names::are_party_names;
use crate::number::number_in;
use clap::ArgMatches;
use clap::error::ErrorKind;
use std::alloc::{AllocError, Global};

/// What the program is to do.
#[derive(Drop)]
pub enum Mode<'a> {
    /// Make the files of an empty depot.
    Init,
    /// Print every row of the depot.
    Dump,
    /// Begin the next generation of the files.
    Checkpoint,
    /// Run the script that the seed and the count make, over files that are there or are made.
    Load { seed: u32, count: u32 },
    /// Run the scripts of these names, by turns that the seed draws.
    Schedule { seed: u32, names: Vec<&'a str> },
    /// Run the scripts of these names, each on a thread of its own.
    Serve { names: Vec<&'a str> },
}

/// The greatest seed.
const MOST_SEED: u32 = 2_147_483_647;

/// The greatest count.
const MOST_COUNT: u32 = 10_000;

/// The mode of a word that stands without names.
fn mode_alone<'a>(seed: u32, count: u32, word: &str) -> Option<Mode<'a>>
    ensures mode { option_map job_of result ≡ job_alone seed count word.now }
    ensures parties { IfSome result HasParties }
{
    if word == "init" {
        Some(Mode::Init)
    } else if word == "dump" {
        Some(Mode::Dump)
    } else if word == "checkpoint" {
        Some(Mode::Checkpoint)
    } else if word == "load" {
        Some(Mode::Load { seed, count })
    } else {
        None
    }
}

/// The mode of a word that has these names behind it.
fn mode_by_names<'a>(seed: u32, word: &str, names: Vec<&'a str>) -> Option<Mode<'a>>
    ensures mode { option_map job_of result ≡ job_by_names seed word.now (words_of names.entry.items) }
    ensures parties { (1 ≤ length names.entry.items) × (length names.entry.items ≤ 16) → IfSome result HasParties }
{
    if word == "schedule" {
        Some(Mode::Schedule { seed, names })
    } else if word == "serve" {
        Some(Mode::Serve { names })
    } else {
        None
    }
}

/// The mode of a word with names.
fn mode_with_names<'a>(
    alloc: Global,
    seed: u32,
    word: &str,
    names: &[&'a str],
) -> Result<Option<Mode<'a>>, AllocError>
    ensures mode { IfOk result (λ mode. option_map job_of mode ≡ job_with_names seed word.now (words_of names.now)) }
    ensures parties { 1 ≤ length names.now → IfOk result (λ mode. IfSome mode HasParties) }
{
    if !are_party_names(names) {
        return Ok(None);
    }
    let names = Vec::from_slice(alloc, names)?;
    Ok(mode_by_names(seed, word, names))
}

/// The mode of a word and the names behind it.
fn mode_of_word<'a>(
    alloc: Global,
    seed: u32,
    count: u32,
    word: &str,
    names: &[&'a str],
) -> Result<Option<Mode<'a>>, AllocError>
    ensures mode { IfOk result (λ mode. option_map job_of mode ≡ job_of_mode seed count word.now (words_of names.now)) }
    ensures parties { IfOk result (λ mode. IfSome mode HasParties) }
{
    match names {
        [] => Ok(mode_alone(seed, count, word)),
        [_, ..] => mode_with_names(alloc, seed, word, names),
    }
}

/// The mode that texts ask: the values of the options, MODE and the names.
fn mode_of_texts<'a>(
    alloc: Global,
    seed: Option<&str>,
    count: Option<&str>,
    word: Option<&str>,
    names: &[&'a str],
) -> Result<Option<Mode<'a>>, AllocError>
    ensures mode { IfOk result (λ mode. option_map job_of mode
        ≡ job_by_texts (option_map (λ text. text.now) seed.entry) (option_map (λ text. text.now) count.entry)
        (option_map (λ text. text.now) word.entry) (words_of names.now)) }
    ensures parties { IfOk result (λ mode. IfSome mode HasParties) }
{
    let (Some(seed), Some(count), Some(word)) = (seed, count, word) else {
        return Ok(None);
    };
    let Some(seed) = number_in(0, MOST_SEED, seed.as_bytes()) else {
        return Ok(None);
    };
    let Some(count) = number_in(1, MOST_COUNT, count.as_bytes()) else {
        return Ok(None);
    };
    mode_of_word(alloc, seed, count, word, names)
}

/// The mode that the matches ask.
fn mode_in<'a>(alloc: Global, matches: &ArgMatches<'a>) -> Result<Option<Mode<'a>>, AllocError>
    ensures mode { IfOk result (λ mode. option_map job_of mode ≡ job_in (rows_of (found_of matches.now))) }
    ensures parties { IfOk result (λ mode. IfSome mode HasParties) }
{
    let seed = matches.get_str("seed");
    let count = matches.get_str("count");
    let word = matches.get_str("MODE");
    let names = matches.get_strs("NAME").unwrap_or(&[]);
    mode_of_texts(alloc, seed, count, word, names)
}

/// The mode that the words ask, which are those behind the program's own name: `[--seed N] [--count N] MODE NAME..`.
/// There is none where they ask nothing. The one error is want of memory.
pub fn mode_of<'a>(alloc: Global, words: &'a [&'a str]) -> Result<Option<Mode<'a>>, AllocError>
    ensures mode { IfOk result (λ mode. IfSome mode (λ mode. asked (words_of words.now) ≡ Some (job_of mode))) }
    ensures usage { IfOk result (λ mode. IfNone mode (asked (words_of words.now) ≡ None)) }
    ensures parties { IfOk result (λ mode. IfSome mode HasParties) }
{
    let command = command(alloc)?;
    match command.try_get_matches_from(words) {
        Ok(matches) => mode_in(alloc, &matches),
        Err(error) => match error.kind() {
            ErrorKind::OutOfMemory => Err(AllocError),
            _ => Ok(None),
        },
    }
}

/// The names of the parties that are to run on threads, where the words ask for that. The one error is want of memory.
pub fn served_names<'a>(
    alloc: Global,
    words: &'a [&'a str],
) -> Result<Option<Vec<&'a str>>, AllocError>
    ensures serve { IfOk result (λ names. IfSome names (λ names. asked (words_of words.now) ≡ Some (spec.serve (words_of names.items)))) }
    ensures few { IfOk result (λ names. IfSome names (λ names. length names.items ≤ 16)) }
    ensures alone { IfOk result (λ names. IfNone names (asks_alone (words_of words.now) ≡ true)) }
{
    match mode_of(alloc, words)? {
        Some(Mode::Serve { names }) => Ok(Some(names)),
        Some(
            Mode::Init | Mode::Dump | Mode::Checkpoint | Mode::Load { .. } | Mode::Schedule { .. },
        ) => Ok(None),
        None => Ok(None),
    }
}
