//! A source and a target of files.
#![tactic(auto, using(depot_path::proofs::Answers::right, depot_path::proofs::Answers::wanting, depot_path::proofs::Answers::after, depot_path::proofs::Answers::fails))]

ghost use Rattle.depot_path.specs.Answers.{Answers};
ghost use Rattle.command_words.specs.Arguments as spec;

use crate::arguments::{Takes, file, no_word};
use crate::values::{bad_usage, text};
use depot_model::views::same_specifiers;
use depot_model::{FileArgument, PatternArgument, WordFault};
use depot_path::{PathFault, Pattern, Text};
use std::alloc::Global;

/// Where files come from, and where they go.
#[derive(Drop)]
pub struct Ends {
    /// The files.
    pub from: FileArgument,
    /// Where they go.
    pub to: PatternArgument,
}

/// Reads the pattern of a target.
fn target_pattern(alloc: Global, word: &[u8]) -> Result<Pattern, WordFault>
    ensures { Answers WordFault.Memory result (spec.target_pattern word.now) }
{
    match Pattern::read(alloc, word, false) {
        Ok(pattern) => Ok(pattern),
        Err(fault) => {
            if fault == PathFault::Memory {
                Err(WordFault::Memory)
            } else {
                Err(WordFault::BadPath(text(alloc, word)?, fault))
            }
        }
    }
}

/// Reads a target, which has the same specifiers as the source.
fn target(
    alloc: Global,
    command: &[u8],
    from: &FileArgument,
    word: &[u8],
) -> Result<PatternArgument, WordFault>
    ensures { Answers WordFault.Memory result (spec.target command.now from.now word.now) }
{
    let pattern = target_pattern(alloc, word)?;
    if !same_specifiers(&from.spec.pattern, &pattern) {
        return bad_usage(alloc, command);
    }
    let text = text(alloc, word)?;
    Ok(PatternArgument { text, pattern })
}

/// Reads exactly one target.
fn one_target(
    alloc: Global,
    command: &[u8],
    from: &FileArgument,
    words: &[Text],
) -> Result<PatternArgument, WordFault>
    ensures { Answers WordFault.Memory result (spec.exactly_one command.now (spec.target command.now from.now) words.now) }
{
    match words {
        [] => bad_usage(alloc, command),
        [word, rest @ ..] => {
            let to = target(alloc, command, from, word.as_bytes())?;
            no_word(alloc, command, rest)?;
            Ok(to)
        }
    }
}

/// Reads the target behind a source, and refuses further words.
fn ends_after(
    alloc: Global,
    command: &[u8],
    from: FileArgument,
    words: &[Text],
) -> Result<Ends, WordFault>
    ensures { Answers WordFault.Memory result (spec.ends_after command.now from words.now) }
{
    let to = one_target(alloc, command, &from, words)?;
    Ok(Ends { from, to })
}

/// Reads a source, and the target behind it.
fn ends_from(
    alloc: Global,
    command: &[u8],
    takes: Takes,
    word: &[u8],
    words: &[Text],
) -> Result<Ends, WordFault>
    ensures { Answers WordFault.Memory result (spec.ends_from command.now takes word.now words.now) }
{
    let from = file(alloc, command, takes, word)?;
    ends_after(alloc, command, from, words)
}

/// Reads a source and a target, and refuses further words.
pub fn both_ends(
    alloc: Global,
    command: &[u8],
    takes: Takes,
    words: &[Text],
) -> Result<Ends, WordFault>
    ensures { Answers WordFault.Memory result (spec.both_ends command.now takes words.now) }
{
    match words {
        [] => bad_usage(alloc, command),
        [word, rest @ ..] => ends_from(alloc, command, takes, word.as_bytes(), rest),
    }
}
