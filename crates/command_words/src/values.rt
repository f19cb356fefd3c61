//! What a word is read as where it is the value of an option, or an argument that is no file.
#![tactic(auto, using(depot_path::proofs::Answers::right, depot_path::proofs::Answers::wanting, depot_path::proofs::Answers::after, depot_path::proofs::Answers::fails, crate::proofs::Spelled::is_spelled, crate::proofs::Spelled::is_none))]

ghost use Rattle.std.specs.Prelude.{◌≡◌, Err, Ok};
ghost use Rattle.depot_path.specs.Answers.{Answers, on_ok};
ghost use Rattle.depot_path.specs.Digits.{is_number as number_test};
ghost use Rattle.command_words.specs.Values as spec;
ghost use Rattle.command_words.specs.Values.{checked};

use crate::table::ValueKind;
use depot_model::{WordFault, is_file_type, printed_type};
use depot_path::{Name, NameFault, Text, is_name, number_up_to};
use std::alloc::Global;

/// The greatest number of a change or a revision.
const MOST_NUMBER: u32 = 2_147_483_647;

/// A copy of a word.
pub fn text(alloc: Global, word: &[u8]) -> Result<Text, WordFault>
    ensures { Answers WordFault.Memory result (Ok word.now) }
{
    match Text::from_bytes(alloc, word) {
        Ok(text) => Ok(text),
        Err(_) => Err(WordFault::Memory),
    }
}

/// Refuses words that the command doesn't take.
pub fn bad_usage<T>(alloc: Global, command: &[u8]) -> Result<T, WordFault>
    ensures { Answers WordFault.Memory result (Err (WordFault.BadUsage command.now)) }
{
    Err(WordFault::BadUsage(text(alloc, command)?))
}

/// Refuses a word that is no number, or one that is too great.
pub fn bad_number<T>(alloc: Global, command: &[u8]) -> Result<T, WordFault>
    ensures { Answers WordFault.Memory result (Err (WordFault.BadNumber command.now)) }
{
    Err(WordFault::BadNumber(text(alloc, command)?))
}

fn is_number(word: &[u8]) -> bool
    ensures { result ≡ number_test spec.most_number word.now }
{
    number_up_to(u64::from(MOST_NUMBER), word).is_some()
}

/// Reads a number up to 2,147,483,647.
pub fn number(alloc: Global, command: &[u8], word: &[u8]) -> Result<u32, WordFault>
    ensures { Answers WordFault.Memory result (spec.number command.now word.now) }
{
    match number_up_to(u64::from(MOST_NUMBER), word) {
        Some(number) => Ok(number as u32),
        None => bad_number(alloc, command),
    }
}

/// Reads the value of a counter.
pub fn counter_value(alloc: Global, command: &[u8], word: &[u8]) -> Result<u64, WordFault>
    ensures { Answers WordFault.Memory result (spec.value command.now word.now) }
{
    match number_up_to(u64::MAX, word) {
        Some(number) => Ok(number),
        None => bad_number(alloc, command),
    }
}

fn is_default(word: &[u8]) -> bool
    ensures { result ≡ spec.is_default word.now }
{
    word == b"default".as_slice()
}

/// Reads a number, or `default`, which is 0.
pub fn change(alloc: Global, command: &[u8], word: &[u8]) -> Result<u32, WordFault>
    ensures { Answers WordFault.Memory result (spec.change command.now word.now) }
{
    if is_default(word) {
        Ok(0)
    } else {
        number(alloc, command, word)
    }
}

/// Reads a name.
pub fn name(alloc: Global, command: &[u8], word: &[u8]) -> Result<Name, WordFault>
    ensures { Answers WordFault.Memory result (spec.name command.now word.now) }
{
    match Name::read(alloc, word) {
        Ok(name) => Ok(name),
        Err(NameFault::NotAName) => bad_usage(alloc, command),
        Err(NameFault::Memory) => Err(WordFault::Memory),
    }
}

/// Reads a file type, as it is printed.
pub fn file_type(alloc: Global, command: &[u8], word: &[u8]) -> Result<Text, WordFault>
    ensures { Answers WordFault.Memory result (spec.file_type command.now word.now) }
{
    if !is_file_type(word) {
        return bad_usage(alloc, command);
    }
    match printed_type(alloc, word) {
        Ok(printed) => Ok(printed),
        Err(_) => Err(WordFault::Memory),
    }
}

impl ValueKind {
    /// Whether a word is a value of this kind.
    fn fits(self, word: &[u8]) -> bool
        ensures { result ≡ spec.is_value self word.now }
    {
        match self {
            ValueKind::Flag | ValueKind::Word => true,
            ValueKind::Number => is_number(word),
            ValueKind::Change => is_default(word) || is_number(word),
            ValueKind::Name => is_name(word),
            ValueKind::FileType => is_file_type(word),
        }
    }

    /// Refuses a word that is no value of this kind.
    fn refuse<T>(self, alloc: Global, command: &[u8]) -> Result<T, WordFault>
        ensures { Answers WordFault.Memory result (Err (spec.no_value self command.now)) }
    {
        match self {
            ValueKind::Number | ValueKind::Change => bad_number(alloc, command),
            _ => bad_usage(alloc, command),
        }
    }

    /// The word, where it is a value of this kind.
    pub fn check<'a>(
        self,
        alloc: Global,
        command: &[u8],
        word: &'a [u8],
    ) -> Result<&'a [u8], WordFault>
        ensures { Answers WordFault.Memory (on_ok (λ value. value.now) result) (checked command.now self word.now) }
    {
        if self.fits(word) {
            Ok(word)
        } else {
            self.refuse(alloc, command)
        }
    }
}
