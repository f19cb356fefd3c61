//! The fields that a form takes from the options and the arguments that were given.
#![tactic(auto, using(depot_path::proofs::Answers::right, depot_path::proofs::Answers::wanting, depot_path::proofs::Answers::after, depot_path::proofs::Answers::fails, crate::proofs::Taking::goes, crate::proofs::Taking::none))]

ghost use Rattle.std.specs.Prelude.{◌≡◌};
ghost use Rattle.depot_path.specs.Answers.{Answers};
ghost use Rattle.command_words.specs.Fields as spec;
ghost use Rattle.command_words.specs.Options.{seen};

use crate::arguments::{Takes, files, no_word, some_files};
use crate::ends::{Ends, both_ends};
use crate::options::{Invocation, value_of, was_given};
use crate::values::{change, file_type, name, number, text};
use depot_model::{FileArgument, WordFault};
use depot_path::{Name, Sequence, Text};
use std::alloc::Global;

impl Invocation<'_> {
    /// Whether an option was given.
    pub fn has(&self, option: &[u8]) -> bool
        ensures { result ≡ spec.has option.now (seen self.now) }
    {
        was_given(&self.options, option)
    }

    /// The number of an option.
    pub fn number_option(&self, alloc: Global, option: &[u8]) -> Result<Option<u32>, WordFault>
        ensures { Answers WordFault.Memory result (spec.number_option option.now (seen self.now)) }
    {
        match value_of(&self.options, option) {
            Some(word) => Ok(Some(number(alloc, self.command, word)?)),
            None => Ok(None),
        }
    }

    /// The number of an option, or 0 for `default`.
    pub fn change_option(&self, alloc: Global, option: &[u8]) -> Result<Option<u32>, WordFault>
        ensures { Answers WordFault.Memory result (spec.change_option option.now (seen self.now)) }
    {
        match value_of(&self.options, option) {
            Some(word) => Ok(Some(change(alloc, self.command, word)?)),
            None => Ok(None),
        }
    }

    /// The name of an option.
    pub fn name_option(&self, alloc: Global, option: &[u8]) -> Result<Option<Name>, WordFault>
        ensures { Answers WordFault.Memory result (spec.name_option option.now (seen self.now)) }
    {
        match value_of(&self.options, option) {
            Some(word) => Ok(Some(name(alloc, self.command, word)?)),
            None => Ok(None),
        }
    }

    /// The file type of `-t`, as it is printed.
    pub fn type_option(&self, alloc: Global, option: &[u8]) -> Result<Option<Text>, WordFault>
        ensures { Answers WordFault.Memory result (spec.type_option option.now (seen self.now)) }
    {
        match value_of(&self.options, option) {
            Some(word) => Ok(Some(file_type(alloc, self.command, word)?)),
            None => Ok(None),
        }
    }

    /// The text of an option.
    pub fn text_option(&self, alloc: Global, option: &[u8]) -> Result<Option<Text>, WordFault>
        ensures { Answers WordFault.Memory result (spec.text_option option.now (seen self.now)) }
    {
        match value_of(&self.options, option) {
            Some(word) => Ok(Some(text(alloc, word)?)),
            None => Ok(None),
        }
    }

    /// The files that the arguments name.
    pub fn files(&self, alloc: Global, takes: Takes) -> Result<Sequence<FileArgument>, WordFault>
        ensures { Answers WordFault.Memory result (spec.files takes (seen self.now)) }
    {
        files(alloc, self.command, takes, self.arguments)
    }

    /// The files that the arguments name, of which there is one at least.
    pub fn some_files(
        &self,
        alloc: Global,
        takes: Takes,
    ) -> Result<Sequence<FileArgument>, WordFault>
        ensures { Answers WordFault.Memory result (spec.some_files takes (seen self.now)) }
    {
        some_files(alloc, self.command, takes, self.arguments)
    }

    /// The source and the target that the arguments are.
    pub fn both_ends(&self, alloc: Global, takes: Takes) -> Result<Ends, WordFault>
        ensures { Answers WordFault.Memory result (spec.both_ends takes (seen self.now)) }
    {
        both_ends(alloc, self.command, takes, self.arguments)
    }

    /// Refuses arguments.
    pub fn nothing(&self, alloc: Global) -> Result<(), WordFault>
        ensures { Answers WordFault.Memory result (spec.nothing (seen self.now)) }
    {
        no_word(alloc, self.command, self.arguments)
    }
}
